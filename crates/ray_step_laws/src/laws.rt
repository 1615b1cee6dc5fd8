//! What undoing a record makes of weights is the step back of its reduction. The functions do nothing when they run: each states laws,
//! and its check proves them.

ghost use Rattle.std.specs.Prelude.{◌≡◌, ℕ, ◌<◌, List, [], ◌∷◌};
ghost use Rattle.fractions.specs.Number.{Number, zero_ℚ};
ghost use Rattle.fractions.specs.Total.{put};
ghost use Rattle.lp_model.specs.declared.terms.Term.{Term};
ghost use Rattle.lp_model.specs.LinearProgram.{LinearProgram};
ghost use Rattle.lp_model.specs.Edits.{without_row};
ghost use Rattle.lp_model.specs.Sparse.{Ascends, dense};
ghost use Rattle.lp_theory.specs.Elsewhere.{IsColumnSingleton};
ghost use Rattle.lp_rows.specs.SingletonRow.{IsSingletonRow, singleton_row_met};
ghost use Rattle.lp_rows.specs.BoundTightening.{lower_bound_tightened, upper_bound_tightened};
ghost use Rattle.lp_rows.specs.ForcingRow.{IsForcedAtLowerSide, IsForcedAtUpperSide, forced_at_lower_side, forced_at_upper_side};
ghost use Rattle.lp_rows.specs.ParallelRows.{AreParallelRows, parallel_rows_joined};
ghost use Rattle.lp_rows.specs.RedundantSide.{lower_side_dropped, upper_side_dropped};
ghost use Rattle.lp_columns.specs.FixedColumn.{IsFixedColumn, fixed_column_deleted};
ghost use Rattle.lp_columns.specs.DualFixing.{IsDualFixing, column_dual_fixed};
ghost use Rattle.lp_columns.specs.DominatedColumn.{IsDominatedColumn, dominated_column_fixed};
ghost use Rattle.lp_columns.specs.EmptyColumn.{IsEmptyColumn, empty_column_fixed};
ghost use Rattle.lp_columns.specs.ParallelColumns.{AreParallelColumns, parallel_columns_joined};
ghost use Rattle.lp_substitutions.specs.DoubletonEquation.{IsDoubletonEquation, doubleton_equation_substituted};
ghost use Rattle.lp_substitutions.specs.FreeColumnSingleton.{free_column_singleton_deleted};
ghost use Rattle.lp_substitutions.specs.SlackColumnSingleton.{slack_column_singleton_deleted, slack_row_deleted};
ghost use Rattle.undo_records.specs.declared.side.Side.TheVariants.{Lower, Upper};
ghost use Rattle.undo_records.specs.declared.side.RowFate.TheVariants.{Kept, Dropped};
ghost use Rattle.undo_records.specs.declared.undo.Undo.{Undo};
ghost use Rattle.lp_rays.specs.Ray.{StepsBack};
ghost use Rattle.ray_rows.specs.ImpliedBound.{IsImpliedLowerBound, IsImpliedUpperBound};
ghost use Rattle.ray_steps.specs.StepBack.{StepBack, weighed, weighed_in, step_of, lift_ray};
ghost use Rattle.pair_laws.specs.Records.{empty_row, singleton_row, fixed_column, redundant_row, redundant_side, forcing_row, lower_bound_tightening, upper_bound_tightening, dual_fixing, dominated_column, doubleton_equation, free_column_singleton, slack_column_singleton, parallel_rows, parallel_columns, empty_column};

/// K1, K2, K5: rows that were deleted.
pub fn deleted_rows_are_weighed()
    ensures empty { (M : LinearProgram) (i : ℕ) → i < M.rows → StepsBack M (without_row M i) (weighed_in (empty_row i) (without_row M i)) }
    ensures singleton { (M : LinearProgram) (i j : ℕ) → IsSingletonRow M i j → StepsBack M (singleton_row_met M i j) (weighed_in (singleton_row M i j) (singleton_row_met M i j)) }
    ensures redundant { (M : LinearProgram) (i : ℕ) → i < M.rows → StepsBack M (without_row M i) (weighed_in (redundant_row i) (without_row M i)) }
{}

/// K6: sides that were dropped.
pub fn dropped_sides_are_weighed()
    ensures lower { (M : LinearProgram) (i : ℕ) → i < M.rows → StepsBack M (lower_side_dropped M i) (weighed_in (redundant_side i) (lower_side_dropped M i)) }
    ensures upper { (M : LinearProgram) (i : ℕ) → i < M.rows → StepsBack M (upper_side_dropped M i) (weighed_in (redundant_side i) (upper_side_dropped M i)) }
{}

/// K7: forcing rows; the list has the row's entries.
pub fn forcing_rows_are_weighed()
    ensures lower { (M : LinearProgram) (i : ℕ) (ts : List Term) → IsForcedAtLowerSide M i → Ascends 0 M.columns ts → dense ts ≡ M.coefficient i → StepsBack M (forced_at_lower_side M i) (weighed_in (forcing_row i Lower ts) (forced_at_lower_side M i)) }
    ensures upper { (M : LinearProgram) (i : ℕ) (ts : List Term) → IsForcedAtUpperSide M i → Ascends 0 M.columns ts → dense ts ≡ M.coefficient i → StepsBack M (forced_at_upper_side M i) (weighed_in (forcing_row i Upper ts) (forced_at_upper_side M i)) }
{}

/// K8: tightened bounds; the list has the row's entries.
pub fn bound_tightenings_are_weighed()
    ensures lower { (M : LinearProgram) (i j : ℕ) (ts : List Term) → IsImpliedLowerBound M i j → dense ts ≡ M.coefficient i → StepsBack M (lower_bound_tightened M i j) (weighed_in (lower_bound_tightening M i j ts) (lower_bound_tightened M i j)) }
    ensures upper { (M : LinearProgram) (i j : ℕ) (ts : List Term) → IsImpliedUpperBound M i j → dense ts ≡ M.coefficient i → StepsBack M (upper_bound_tightened M i j) (weighed_in (upper_bound_tightening M i j ts) (upper_bound_tightened M i j)) }
{}

/// K15: parallel rows.
pub fn parallel_rows_are_weighed()
    ensures { (M : LinearProgram) (i k : ℕ) (f : Number) (ts : List Term) → AreParallelRows M i k f → StepsBack M (parallel_rows_joined M i k f) (weighed_in (parallel_rows M i k f ts) (parallel_rows_joined M i k f)) }
{}

/// K3: a fixed column; the list has its entries.
pub fn fixed_columns_are_weighed()
    ensures { (M : LinearProgram) (j : ℕ) (v : Number) (ts : List Term) → IsFixedColumn M j v → Ascends 0 M.rows ts → dense ts ≡ (λ i. M.coefficient i j) → StepsBack M (fixed_column_deleted M j v) (weighed_in (fixed_column M j v ts) (fixed_column_deleted M j v)) }
{}

/// K10, K11, K17: columns that were fixed.
pub fn placed_columns_are_weighed()
    ensures cost { (M : LinearProgram) (j : ℕ) (v : Number) → IsDualFixing M j v → StepsBack M (column_dual_fixed M j v) (weighed_in (dual_fixing j) (column_dual_fixed M j v)) }
    ensures dominated { (M : LinearProgram) (i j k : ℕ) (v : Number) → IsDominatedColumn M j k v → StepsBack M (dominated_column_fixed M k v) (weighed_in (dominated_column i j k) (dominated_column_fixed M k v)) }
    ensures empty { (M : LinearProgram) (j : ℕ) (v : Number) → IsEmptyColumn M j v → StepsBack M (empty_column_fixed M j v) (weighed_in (empty_column j) (empty_column_fixed M j v)) }
{}

/// K12: an equation of two columns; the list has the other entries of the one that was deleted.
pub fn doubleton_equations_are_weighed()
    ensures { (M : LinearProgram) (i j k : ℕ) (r : Number) (ts : List Term) → IsDoubletonEquation M i j k r → Ascends 0 M.rows ts → dense ts ≡ put (λ m. M.coefficient m j) i zero_ℚ → StepsBack M (doubleton_equation_substituted M i j k r) (weighed_in (doubleton_equation M i j k r ts) (doubleton_equation_substituted M i j k r)) }
{}

/// K13, K14: columns with one entry.
pub fn column_singletons_are_weighed()
    ensures free { (M : LinearProgram) (j i : ℕ) (s : Number) (ts : List Term) → IsColumnSingleton M j i → StepsBack M (free_column_singleton_deleted M j i) (weighed_in (free_column_singleton M j i s ts) (free_column_singleton_deleted M j i)) }
    ensures kept { (M : LinearProgram) (j i : ℕ) (ts : List Term) → IsColumnSingleton M j i → StepsBack M (slack_column_singleton_deleted M j i) (weighed_in (slack_column_singleton M j i Kept ts) (slack_column_singleton_deleted M j i)) }
    ensures dropped { (M : LinearProgram) (j i : ℕ) (ts : List Term) → IsColumnSingleton M j i → StepsBack M (slack_row_deleted M j i) (weighed_in (slack_column_singleton M j i Dropped ts) (slack_row_deleted M j i)) }
{}

/// K16: parallel columns.
pub fn parallel_columns_are_weighed()
    ensures { (M : LinearProgram) (j k : ℕ) (f : Number) → AreParallelColumns M j k f → StepsBack M (parallel_columns_joined M j k f) (weighed_in (parallel_columns M j k f) (parallel_columns_joined M j k f)) }
{}

/// Lifts join: the undoing of a record with the lift of those after it.
pub fn lifts_of_rays_join()
    ensures none { (M : LinearProgram) → StepsBack M M (lift_ray []) }
    ensures step { (M N R : LinearProgram) (u : Undo) (us : List StepBack) → StepsBack M N (weighed_in u N) → StepsBack N R (lift_ray us) → StepsBack M R (lift_ray (step_of u N ∷ us)) }
    ensures first { (M N R : LinearProgram) (u : StepBack) (us : List StepBack) → StepsBack M N (weighed u.undo u.low u.high) → StepsBack N R (lift_ray us) → StepsBack M R (lift_ray (u ∷ us)) }
{}
