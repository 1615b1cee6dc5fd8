//! The reductions of rows, on the meaning of a program with original ids: K1 (empty row), K2 (singleton row), K5 (redundant row),
//! K6 (redundant side), K7 (forcing row), K8 (bound tightening), K9 (coefficient tightening), K15 (parallel rows), and the verdicts
//! V1 on sides (crossed) and V2 (infeasible row).
//!
//! `specs/` says where each is enabled, what it changes and how it is undone. The functions here do nothing when they run: each
//! states what its reduction keeps, and its check proves it. Points are kept in both senses, pairs of points and duals in the
//! minimizing sense, in which a program is reduced.
#![tactic(auto)]

ghost use Rattle.std.specs.Prelude.{ℕ};
ghost use Rattle.fractions.specs.Number.{Number, zero_ℚ};
ghost use Rattle.lp_model.specs.declared.program.Sense.{Sense};
ghost use Rattle.lp_model.specs.declared.program.Sense.TheVariants.{Min};
ghost use Rattle.lp_model.specs.Vectors.{Vector};
ghost use Rattle.lp_model.specs.LinearProgram.{LinearProgram};
ghost use Rattle.lp_model.specs.Reductions.{Reduces, ReducesPairs};
ghost use Rattle.lp_model.specs.Verdicts.{NoPoint};
ghost use Rattle.lp_rows.specs.EmptyRow.{IsEmptyRow, empty_row_deleted, undo_empty_row};
ghost use Rattle.lp_rows.specs.SingletonRow.{IsSingletonRow, singleton_row_met, undo_singleton_row};
ghost use Rattle.lp_rows.specs.CrossedSides.{IsCrossedRow};
ghost use Rattle.lp_rows.specs.RedundantRow.{IsRedundantRow, redundant_row_deleted, undo_redundant_row};
ghost use Rattle.lp_rows.specs.RedundantSide.{IsRedundantLowerSide, IsRedundantUpperSide, lower_side_dropped, upper_side_dropped};
ghost use Rattle.lp_rows.specs.InfeasibleRow.{IsAboveUpperSide, IsBelowLowerSide};
ghost use Rattle.lp_rows.specs.BoundTightening.{IsLowerBoundTightening, IsUpperBoundTightening, lower_bound_tightened, upper_bound_tightened, undo_lower_bound_tightened, undo_upper_bound_tightened};
ghost use Rattle.lp_rows.specs.ForcingRow.{IsForcedAtLowerSide, IsForcedAtUpperSide, IsGreatestRatio, IsLeastRatio, greatest_ratio, least_ratio, forced_at_lower_side, forced_at_upper_side, undo_forced_at_lower_side, undo_forced_at_upper_side};
ghost use Rattle.lp_rows.specs.ParallelRows.{AreParallelRows, parallel_rows_joined, undo_parallel_rows};
ghost use Rattle.lp_rows.specs.CoefficientTightening.{OneSide, Tightening, IsCoefficientTightening, coefficient_tightened};

/// K1: deleting a row without entries whose sides let 0 through.
pub fn empty_rows_reduce()
    ensures points { (d : Sense) (M : LinearProgram) (i : ℕ) → IsEmptyRow M i → Reduces d M (empty_row_deleted M i) (λ x. x) zero_ℚ }
    ensures pairs { (M : LinearProgram) (i : ℕ) → IsEmptyRow M i → ReducesPairs Min M (empty_row_deleted M i) (undo_empty_row i) }
{}

/// K2: putting a row with one entry into the bounds of its column.
pub fn singleton_rows_reduce()
    ensures points { (d : Sense) (M : LinearProgram) (i j : ℕ) → IsSingletonRow M i j → Reduces d M (singleton_row_met M i j) (λ x. x) zero_ℚ }
    ensures pairs { (M : LinearProgram) (i j : ℕ) → IsSingletonRow M i j → ReducesPairs Min M (singleton_row_met M i j) (undo_singleton_row i j (M.coefficient i j) (M.lower_bound j) (M.upper_bound j)) }
{}

/// K5: deleting a row that its columns' bounds keep.
pub fn redundant_rows_reduce()
    ensures points { (d : Sense) (M : LinearProgram) (i : ℕ) → IsRedundantRow M i → Reduces d M (redundant_row_deleted M i) (λ x. x) zero_ℚ }
    ensures pairs { (M : LinearProgram) (i : ℕ) → IsRedundantRow M i → ReducesPairs Min M (redundant_row_deleted M i) (undo_redundant_row i) }
{}

/// K6: dropping a lower side that the columns' bounds keep.
pub fn redundant_lower_sides_reduce()
    ensures points { (d : Sense) (M : LinearProgram) (i : ℕ) → IsRedundantLowerSide M i → Reduces d M (lower_side_dropped M i) (λ x. x) zero_ℚ }
    ensures pairs { (M : LinearProgram) (i : ℕ) → IsRedundantLowerSide M i → ReducesPairs Min M (lower_side_dropped M i) (λ p. p) }
{}

/// K6: dropping an upper side that the columns' bounds keep.
pub fn redundant_upper_sides_reduce()
    ensures points { (d : Sense) (M : LinearProgram) (i : ℕ) → IsRedundantUpperSide M i → Reduces d M (upper_side_dropped M i) (λ x. x) zero_ℚ }
    ensures pairs { (M : LinearProgram) (i : ℕ) → IsRedundantUpperSide M i → ReducesPairs Min M (upper_side_dropped M i) (λ p. p) }
{}

/// K7: putting the columns of a row whose greatest activity is its lower side at the ends that give it, and deleting the row.
pub fn rows_forced_at_the_lower_side_reduce()
    ensures points { (d : Sense) (M : LinearProgram) (i : ℕ) → IsForcedAtLowerSide M i → Reduces d M (forced_at_lower_side M i) (λ x. x) zero_ℚ }
    ensures pairs { (M : LinearProgram) (i : ℕ) → IsForcedAtLowerSide M i → ReducesPairs Min M (forced_at_lower_side M i) (undo_forced_at_lower_side M.columns i (M.coefficient i)) }
{}

/// K7: putting the columns of a row whose least activity is its upper side at the ends that give it, and deleting the row.
pub fn rows_forced_at_the_upper_side_reduce()
    ensures points { (d : Sense) (M : LinearProgram) (i : ℕ) → IsForcedAtUpperSide M i → Reduces d M (forced_at_upper_side M i) (λ x. x) zero_ℚ }
    ensures pairs { (M : LinearProgram) (i : ℕ) → IsForcedAtUpperSide M i → ReducesPairs Min M (forced_at_upper_side M i) (undo_forced_at_upper_side M.columns i (M.coefficient i)) }
{}

/// K7: the dual that undoes a forcing row is the greatest, at the upper side the least, of 0 and the ratios.
pub fn duals_of_forcing_rows_are_extreme_ratios()
    ensures greatest { (n : ℕ) (z a : Vector) → IsGreatestRatio n z a (greatest_ratio n z a) }
    ensures least { (n : ℕ) (z a : Vector) → IsLeastRatio n z a (least_ratio n z a) }
{}

/// K8: giving a column the lower bound that a row and the other columns' bounds imply.
pub fn lower_bound_tightenings_reduce()
    ensures points { (d : Sense) (M : LinearProgram) (i j : ℕ) → IsLowerBoundTightening M i j → Reduces d M (lower_bound_tightened M i j) (λ x. x) zero_ℚ }
    ensures pairs { (M : LinearProgram) (i j : ℕ) → IsLowerBoundTightening M i j → ReducesPairs Min M (lower_bound_tightened M i j) (undo_lower_bound_tightened i j (M.lower_bound j) (M.coefficient i)) }
{}

/// K8: giving a column the upper bound that a row and the other columns' bounds imply.
pub fn upper_bound_tightenings_reduce()
    ensures points { (d : Sense) (M : LinearProgram) (i j : ℕ) → IsUpperBoundTightening M i j → Reduces d M (upper_bound_tightened M i j) (λ x. x) zero_ℚ }
    ensures pairs { (M : LinearProgram) (i j : ℕ) → IsUpperBoundTightening M i j → ReducesPairs Min M (upper_bound_tightened M i j) (undo_upper_bound_tightened i j (M.upper_bound j) (M.coefficient i)) }
{}

/// K9: shrinking the coefficient of a whole column in a row with one side.
pub fn coefficient_tightenings_reduce()
    ensures { (d : Sense) (M : LinearProgram) (i j : ℕ) (f : OneSide) (t : Tightening) → IsCoefficientTightening M i j f t → Reduces d M (coefficient_tightened M i j f t) (λ x. x) zero_ℚ }
{}

/// K15: giving a row the sides of a row that is a multiple of it.
pub fn parallel_rows_reduce()
    ensures points { (d : Sense) (M : LinearProgram) (i k : ℕ) (s : Number) → AreParallelRows M i k s → Reduces d M (parallel_rows_joined M i k s) (λ x. x) zero_ℚ }
    ensures pairs { (M : LinearProgram) (i k : ℕ) (s : Number) → AreParallelRows M i k s → ReducesPairs Min M (parallel_rows_joined M i k s) (undo_parallel_rows M.columns i k s (M.lower_side k) (M.upper_side k) (M.coefficient k)) }
{}

/// V1 on sides: where they are crossed no point is feasible.
pub fn crossed_sides_let_no_point_through()
    ensures { (M : LinearProgram) (i : ℕ) → IsCrossedRow M i → NoPoint M }
{}

/// V2: where a row's least activity is above its upper side, or its greatest below its lower side, no point is feasible.
pub fn infeasible_rows_let_no_point_through()
    ensures above { (M : LinearProgram) (i : ℕ) → IsAboveUpperSide M i → NoPoint M }
    ensures below { (M : LinearProgram) (i : ℕ) → IsBelowLowerSide M i → NoPoint M }
{}
