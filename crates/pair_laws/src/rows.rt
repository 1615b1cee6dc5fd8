//! The laws of the reductions of rows, for pairs, with the undoing of their records.

ghost use Rattle.std.specs.Prelude.{◌≡◌, ℕ, List};
ghost use Rattle.fractions.specs.Number.{Number};
ghost use Rattle.lp_model.specs.declared.program.Sense.TheVariants.{Min};
ghost use Rattle.lp_model.specs.declared.terms.Term.{Term};
ghost use Rattle.lp_model.specs.LinearProgram.{LinearProgram};
ghost use Rattle.lp_model.specs.Reductions.{ReducesPairs};
ghost use Rattle.lp_model.specs.Sparse.{Ascends, dense};
ghost use Rattle.lp_rows.specs.EmptyRow.{IsEmptyRow, empty_row_deleted};
ghost use Rattle.lp_rows.specs.SingletonRow.{IsSingletonRow, singleton_row_met};
ghost use Rattle.lp_rows.specs.RedundantRow.{IsRedundantRow, redundant_row_deleted};
ghost use Rattle.lp_rows.specs.RedundantSide.{IsRedundantLowerSide, IsRedundantUpperSide, lower_side_dropped, upper_side_dropped};
ghost use Rattle.lp_rows.specs.ForcingRow.{IsForcedAtLowerSide, IsForcedAtUpperSide, forced_at_lower_side, forced_at_upper_side};
ghost use Rattle.lp_rows.specs.BoundTightening.{IsLowerBoundTightening, IsUpperBoundTightening, lower_bound_tightened, upper_bound_tightened};
ghost use Rattle.lp_rows.specs.CoefficientTightening.{IsCoefficientTightening, OneSide, Tightening, coefficient_tightened};
ghost use Rattle.lp_rows.specs.ParallelRows.{AreParallelRows, parallel_rows_joined};
ghost use Rattle.undo_records.specs.declared.side.Side.TheVariants.{Lower, Upper};
ghost use Rattle.undo_pairs.specs.LiftPair.{undone_pair};
ghost use Rattle.pair_laws.specs.Records.{empty_row, singleton_row, redundant_row, redundant_side, forcing_row, lower_bound_tightening, upper_bound_tightening, coefficient_tightening, parallel_rows};

/// K1, K2, K5: rows that were deleted.
pub fn deleted_rows_keep_pairs()
    ensures empty { (M : LinearProgram) (i : ℕ) → IsEmptyRow M i → ReducesPairs Min M (empty_row_deleted M i) (undone_pair (empty_row i)) }
    ensures singleton { (M : LinearProgram) (i j : ℕ) → IsSingletonRow M i j → ReducesPairs Min M (singleton_row_met M i j) (undone_pair (singleton_row M i j)) }
    ensures redundant { (M : LinearProgram) (i : ℕ) → IsRedundantRow M i → ReducesPairs Min M (redundant_row_deleted M i) (undone_pair (redundant_row i)) }
{}

/// K6: sides that were dropped.
pub fn dropped_sides_keep_pairs()
    ensures lower { (M : LinearProgram) (i : ℕ) → IsRedundantLowerSide M i → ReducesPairs Min M (lower_side_dropped M i) (undone_pair (redundant_side i)) }
    ensures upper { (M : LinearProgram) (i : ℕ) → IsRedundantUpperSide M i → ReducesPairs Min M (upper_side_dropped M i) (undone_pair (redundant_side i)) }
{}

/// K7: forcing rows; the list has the row's entries.
pub fn forcing_rows_keep_pairs()
    ensures lower { (M : LinearProgram) (i : ℕ) (ts : List Term) → IsForcedAtLowerSide M i → Ascends 0 M.columns ts → dense ts ≡ M.coefficient i → ReducesPairs Min M (forced_at_lower_side M i) (undone_pair (forcing_row i Lower ts)) }
    ensures upper { (M : LinearProgram) (i : ℕ) (ts : List Term) → IsForcedAtUpperSide M i → Ascends 0 M.columns ts → dense ts ≡ M.coefficient i → ReducesPairs Min M (forced_at_upper_side M i) (undone_pair (forcing_row i Upper ts)) }
{}

/// K8: bound tightening; the list has the row's entries.
pub fn bound_tightenings_keep_pairs()
    ensures lower { (M : LinearProgram) (i j : ℕ) (ts : List Term) → IsLowerBoundTightening M i j → dense ts ≡ M.coefficient i → ReducesPairs Min M (lower_bound_tightened M i j) (undone_pair (lower_bound_tightening M i j ts)) }
    ensures upper { (M : LinearProgram) (i j : ℕ) (ts : List Term) → IsUpperBoundTightening M i j → dense ts ≡ M.coefficient i → ReducesPairs Min M (upper_bound_tightened M i j) (undone_pair (upper_bound_tightening M i j ts)) }
{}

/// K9: coefficient tightening. Its column has to be whole, so that nothing meets the optimality conditions.
pub fn coefficient_tightenings_keep_pairs()
    ensures { (M : LinearProgram) (i j : ℕ) (f : OneSide) (t : Tightening) → IsCoefficientTightening M i j f t → ReducesPairs Min M (coefficient_tightened M i j f t) (undone_pair (coefficient_tightening i j)) }
{}

/// K15: parallel rows; the list has the entries of the row that was kept.
pub fn parallel_rows_keep_pairs()
    ensures { (M : LinearProgram) (i k : ℕ) (s : Number) (ts : List Term) → AreParallelRows M i k s → Ascends 0 M.columns ts → dense ts ≡ M.coefficient k → ReducesPairs Min M (parallel_rows_joined M i k s) (undone_pair (parallel_rows M i k s ts)) }
{}
