//! Rays and the reductions of rows, on the meaning of a program: K1 and K5 (deleted rows), K2 (singleton row), K6 (redundant side),
//! K7 (forcing row), K8 (bound tightening) and K15 (parallel rows) take rays of the program after them to rays of the one before, and
//! each verdict that says that no point is feasible has a ray.
//!
//! The functions do nothing when they run: each states laws, and its check proves them.
#![tactic(auto)]

ghost use Rattle.std.specs.Prelude.{ℕ, ◌<◌};
ghost use Rattle.fractions.specs.Number.{Number};
ghost use Rattle.lp_model.specs.LinearProgram.{LinearProgram};
ghost use Rattle.lp_model.specs.Edits.{without_row};
ghost use Rattle.lp_rows.specs.SingletonRow.{IsSingletonRow, met_lower, met_upper, singleton_row_met};
ghost use Rattle.lp_rows.specs.BoundTightening.{lower_bound_tightened, upper_bound_tightened};
ghost use Rattle.lp_rows.specs.ForcingRow.{IsForcedAtLowerSide, IsForcedAtUpperSide, forced_at_lower_side, forced_at_upper_side};
ghost use Rattle.lp_rows.specs.ParallelRows.{AreParallelRows, shared_lower, shared_upper, parallel_rows_joined};
ghost use Rattle.lp_rows.specs.RedundantSide.{lower_side_dropped, upper_side_dropped};
ghost use Rattle.lp_rows.specs.CrossedSides.{IsCrossedRow};
ghost use Rattle.lp_rows.specs.InfeasibleRow.{IsAboveUpperSide, IsBelowLowerSide};
ghost use Rattle.lp_columns.specs.CrossedBounds.{IsCrossedColumn};
ghost use Rattle.lp_rays.specs.Ray.{Ray, StepsBack};
ghost use Rattle.lp_rays.specs.Handing.{moved};
ghost use Rattle.lp_rays.specs.Starts.{at_crossed_column, at_crossed_row, at_row_above, at_row_below};
ghost use Rattle.lp_rays.specs.Steps.{ray_singleton_row, ray_lower_bound, ray_upper_bound, ray_forced_at_lower_side, ray_forced_at_upper_side, ray_parallel_rows};
ghost use Rattle.ray_rows.specs.ImpliedBound.{IsImpliedLowerBound, IsImpliedUpperBound};

/// V1 and V2 have a ray.
pub fn verdicts_have_rays()
    ensures column { (M : LinearProgram) (j : ℕ) → IsCrossedColumn M j → Ray M (at_crossed_column j) }
    ensures row { (M : LinearProgram) (i : ℕ) → IsCrossedRow M i → Ray M (at_crossed_row i) }
    ensures above { (M : LinearProgram) (i : ℕ) → IsAboveUpperSide M i → Ray M (at_row_above i (M.coefficient i)) }
    ensures below { (M : LinearProgram) (i : ℕ) → IsBelowLowerSide M i → Ray M (at_row_below i (M.coefficient i)) }
{}

/// K1, K5: a row that was deleted. Why it could be does not matter.
pub fn deleted_rows_step_back()
    ensures { (M : LinearProgram) (i : ℕ) → i < M.rows → StepsBack M (without_row M i) (λ w. w) }
{}

/// K2: a row with one entry.
pub fn singleton_rows_step_back()
    ensures { (M : LinearProgram) (i j : ℕ) → IsSingletonRow M i j → StepsBack M (singleton_row_met M i j) (ray_singleton_row i j (M.coefficient i j) (moved (M.lower_bound j) (met_lower M i j)) (moved (M.upper_bound j) (met_upper M i j))) }
{}

/// K6: a side that was dropped. Why it could be does not matter.
pub fn dropped_sides_step_back()
    ensures lower { (M : LinearProgram) (i : ℕ) → i < M.rows → StepsBack M (lower_side_dropped M i) (λ w. w) }
    ensures upper { (M : LinearProgram) (i : ℕ) → i < M.rows → StepsBack M (upper_side_dropped M i) (λ w. w) }
{}

/// K7: a row that only just reaches a side.
pub fn forcing_rows_step_back()
    ensures lower { (M : LinearProgram) (i : ℕ) → IsForcedAtLowerSide M i → StepsBack M (forced_at_lower_side M i) (ray_forced_at_lower_side M.columns i (M.coefficient i)) }
    ensures upper { (M : LinearProgram) (i : ℕ) → IsForcedAtUpperSide M i → StepsBack M (forced_at_upper_side M i) (ray_forced_at_upper_side M.columns i (M.coefficient i)) }
{}

/// K8: bounds that a row implies. That they are better does not matter.
pub fn bound_tightenings_step_back()
    ensures lower { (M : LinearProgram) (i j : ℕ) → IsImpliedLowerBound M i j → StepsBack M (lower_bound_tightened M i j) (ray_lower_bound i j (M.coefficient i)) }
    ensures upper { (M : LinearProgram) (i j : ℕ) → IsImpliedUpperBound M i j → StepsBack M (upper_bound_tightened M i j) (ray_upper_bound i j (M.coefficient i)) }
{}

/// K15: a row that is a multiple of another one.
pub fn parallel_rows_step_back()
    ensures { (M : LinearProgram) (i k : ℕ) (f : Number) → AreParallelRows M i k f → StepsBack M (parallel_rows_joined M i k f) (ray_parallel_rows i k f (moved (M.lower_side k) (shared_lower M i k f)) (moved (M.upper_side k) (shared_upper M i k f))) }
{}
