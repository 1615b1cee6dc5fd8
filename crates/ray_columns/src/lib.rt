//! Rays and the reductions of columns, on the meaning of a program: K3 (fixed column), K10 (dual fixing), K11 (dominated column), K12
//! (doubleton equation), K13 (free column singleton), K14 (slack column singleton), K16 (parallel columns) and K17 (empty column) take
//! rays of the program after them to rays of the one before.
//!
//! The functions do nothing when they run: each states laws, and its check proves them.
#![tactic(auto)]

ghost use Rattle.std.specs.Prelude.{ℕ, Some};
ghost use Rattle.fractions.specs.Number.{Number, zero_ℚ};
ghost use Rattle.fractions.specs.Total.{put};
ghost use Rattle.fractions.specs.Ends.{same_end};
ghost use Rattle.lp_model.specs.LinearProgram.{LinearProgram};
ghost use Rattle.lp_theory.specs.Elsewhere.{IsColumnSingleton};
ghost use Rattle.lp_columns.specs.FixedColumn.{IsFixedColumn, fixed_column_deleted};
ghost use Rattle.lp_columns.specs.DualFixing.{IsDualFixing, column_dual_fixed};
ghost use Rattle.lp_columns.specs.DominatedColumn.{IsDominatedColumn, dominated_column_fixed};
ghost use Rattle.lp_columns.specs.EmptyColumn.{IsEmptyColumn, empty_column_fixed};
ghost use Rattle.lp_columns.specs.ParallelColumns.{AreParallelColumns, parallel_columns_joined};
ghost use Rattle.lp_substitutions.specs.DoubletonEquation.{IsDoubletonEquation, image_lower, image_upper, doubleton_equation_substituted};
ghost use Rattle.lp_substitutions.specs.FreeColumnSingleton.{free_column_singleton_deleted};
ghost use Rattle.lp_substitutions.specs.SlackColumnSingleton.{slack_column_singleton_deleted, slack_row_deleted};
ghost use Rattle.fractions.specs.Ends.{meet_low, meet_high};
ghost use Rattle.lp_rays.specs.Ray.{StepsBack};
ghost use Rattle.lp_rays.specs.Handing.{moved};
ghost use Rattle.lp_rays.specs.Steps.{ray_fixed, ray_settled, ray_kept_lower, ray_empty_column, ray_parallel_columns, ray_fixed_column, ray_slack_column_singleton, ray_doubleton_equation};

/// K3: a column whose bounds are one number.
pub fn fixed_columns_step_back()
    ensures { (M : LinearProgram) (j : ℕ) (v : Number) → IsFixedColumn M j v → StepsBack M (fixed_column_deleted M j v) (ray_fixed_column j M.rows (λ m. M.coefficient m j)) }
{}

/// K10, K11, K17: a column that was fixed.
pub fn placed_columns_step_back()
    ensures cost { (M : LinearProgram) (j : ℕ) (v : Number) → IsDualFixing M j v → StepsBack M (column_dual_fixed M j v) (ray_fixed (same_end (M.lower_bound j) (Some v)) j) }
    ensures dominated { (M : LinearProgram) (j k : ℕ) (v : Number) → IsDominatedColumn M j k v → StepsBack M (dominated_column_fixed M k v) (ray_kept_lower k) }
    ensures settled { (M : LinearProgram) (j : ℕ) (v : Number) → IsDualFixing M j v → StepsBack M (column_dual_fixed M j v) (ray_settled j) }
    ensures dominated_settled { (M : LinearProgram) (j k : ℕ) (v : Number) → IsDominatedColumn M j k v → StepsBack M (dominated_column_fixed M k v) (ray_settled k) }
    ensures empty { (M : LinearProgram) (j : ℕ) (v : Number) → IsEmptyColumn M j v → StepsBack M (empty_column_fixed M j v) (ray_empty_column j) }
{}

/// K12: an equation of two columns.
pub fn doubleton_equations_step_back()
    ensures { (M : LinearProgram) (i j k : ℕ) (r : Number) → IsDoubletonEquation M i j k r → StepsBack M (doubleton_equation_substituted M i j k r) (ray_doubleton_equation i j k (M.coefficient i j) (M.coefficient i k) M.rows (put (λ m. M.coefficient m j) i zero_ℚ)
        (moved (M.lower_bound k) (meet_low (M.lower_bound k) (image_lower (M.coefficient i j) (M.coefficient i k) r (M.lower_bound j) (M.upper_bound j))))
        (moved (M.upper_bound k) (meet_high (M.upper_bound k) (image_upper (M.coefficient i j) (M.coefficient i k) r (M.lower_bound j) (M.upper_bound j))))) }
{}

/// K13, K14: a column with one entry. Of K13 nothing but the one entry matters, of K14 neither costs nor what is crossed.
pub fn column_singletons_step_back()
    ensures free { (M : LinearProgram) (j i : ℕ) → IsColumnSingleton M j i → StepsBack M (free_column_singleton_deleted M j i) (λ w. w) }
    ensures kept { (M : LinearProgram) (j i : ℕ) → IsColumnSingleton M j i → StepsBack M (slack_column_singleton_deleted M j i) (ray_slack_column_singleton j i (M.coefficient i j)) }
    ensures dropped { (M : LinearProgram) (j i : ℕ) → IsColumnSingleton M j i → StepsBack M (slack_row_deleted M j i) (λ w. w) }
{}

/// K16: a column that is a multiple of another one.
pub fn parallel_columns_step_back()
    ensures { (M : LinearProgram) (j k : ℕ) (f : Number) → AreParallelColumns M j k f → StepsBack M (parallel_columns_joined M j k f) (ray_parallel_columns j k f) }
{}
