//! Each reduction keeps what it has to. The functions do nothing when they run: each states a law, and its check proves it.

ghost use Rattle.std.specs.Prelude.{ℕ};
ghost use Rattle.fractions.specs.Number.{Number, zero_ℚ};
ghost use Rattle.lp_model.specs.declared.program.Sense.{Sense};
ghost use Rattle.lp_model.specs.declared.program.Sense.TheVariants.{Min};
ghost use Rattle.lp_model.specs.LinearProgram.{LinearProgram};
ghost use Rattle.lp_model.specs.Optimality.{Continuous};
ghost use Rattle.lp_model.specs.Reductions.{Reduces, ReducesPairs};
ghost use Rattle.lp_model.specs.Verdicts.{NoPoint, NoPointOrEndless};
ghost use Rattle.lp_columns.specs.FixedColumn.{IsFixedColumn, fixed_column_deleted, fixed_column_offset, undo_fixed_column, undo_fixed_column_pair};
ghost use Rattle.lp_columns.specs.RoundedBounds.{IsWholeColumn, bounds_rounded};
ghost use Rattle.lp_columns.specs.EmptyColumn.{IsEmptyColumn, empty_column_fixed};
ghost use Rattle.lp_columns.specs.BestPlace.{IsBestAt, column_fixed_at};
ghost use Rattle.lp_columns.specs.DualFixing.{IsDualFixing, column_dual_fixed};
ghost use Rattle.lp_columns.specs.DominatedColumn.{IsDominatedColumn, dominated_column_fixed};
ghost use Rattle.lp_columns.specs.ParallelColumns.{AreParallelColumns, parallel_columns_joined, undo_parallel_columns, undo_parallel_columns_pair};
ghost use Rattle.lp_columns.specs.UnboundedColumn.{IsUnboundedColumn};
ghost use Rattle.lp_columns.specs.CrossedBounds.{IsCrossedColumn};

/// K3: deleting a column whose bounds are one number.
pub fn fixed_columns_reduce()
    ensures points { (d : Sense) (M : LinearProgram) (j : ℕ) (v : Number) → IsFixedColumn M j v → Reduces d M (fixed_column_deleted M j v) (undo_fixed_column j v) (fixed_column_offset M j v) }
    ensures pairs { (M : LinearProgram) (j : ℕ) (v : Number) → Continuous M → IsFixedColumn M j v → ReducesPairs Min M (fixed_column_deleted M j v) (undo_fixed_column_pair M j v) }
{}

/// K4: rounding the bounds of a whole column.
pub fn rounded_bounds_reduce()
    ensures { (d : Sense) (M : LinearProgram) (j : ℕ) → IsWholeColumn M j → Reduces d M (bounds_rounded M j) (λ x. x) zero_ℚ }
{}

/// Fixing a column at a place where it costs least and that each row allows: what K10 and K17 do.
pub fn columns_at_their_best_place_reduce()
    ensures points { (M : LinearProgram) (j : ℕ) (v : Number) → IsBestAt M j v → Reduces Min M (column_fixed_at M j v) (λ x. x) zero_ℚ }
    ensures pairs { (M : LinearProgram) (j : ℕ) (v : Number) → IsBestAt M j v → ReducesPairs Min M (column_fixed_at M j v) (λ p. p) }
{}

/// K10: fixing a column that no row locks at the bound where it costs least.
pub fn dual_fixings_reduce()
    ensures points { (M : LinearProgram) (j : ℕ) (v : Number) → IsDualFixing M j v → Reduces Min M (column_dual_fixed M j v) (λ x. x) zero_ℚ }
    ensures pairs { (M : LinearProgram) (j : ℕ) (v : Number) → IsDualFixing M j v → ReducesPairs Min M (column_dual_fixed M j v) (λ p. p) }
{}

/// K11: fixing a column that another one can stand in for at its lower bound.
pub fn dominated_columns_reduce()
    ensures points { (M : LinearProgram) (j k : ℕ) (v : Number) → IsDominatedColumn M j k v → Reduces Min M (dominated_column_fixed M k v) (λ x. x) zero_ℚ }
    ensures pairs { (M : LinearProgram) (j k : ℕ) (v : Number) → IsDominatedColumn M j k v → ReducesPairs Min M (dominated_column_fixed M k v) (λ p. p) }
{}

/// K16: joining a column to one that it is a multiple of.
pub fn parallel_columns_reduce()
    ensures points { (d : Sense) (M : LinearProgram) (j k : ℕ) (s : Number) → AreParallelColumns M j k s → Reduces d M (parallel_columns_joined M j k s) (undo_parallel_columns j k s (M.lower_bound j) (M.upper_bound j) (M.lower_bound k) (M.upper_bound k)) zero_ℚ }
    ensures pairs { (M : LinearProgram) (j k : ℕ) (s : Number) → AreParallelColumns M j k s → ReducesPairs Min M (parallel_columns_joined M j k s) (undo_parallel_columns_pair j k s (M.lower_bound j) (M.upper_bound j) (M.lower_bound k) (M.upper_bound k)) }
{}

/// K17: fixing a column without entries where its cost is least.
pub fn empty_columns_reduce()
    ensures points { (M : LinearProgram) (j : ℕ) (v : Number) → IsEmptyColumn M j v → Reduces Min M (empty_column_fixed M j v) (λ x. x) zero_ℚ }
    ensures pairs { (M : LinearProgram) (j : ℕ) (v : Number) → IsEmptyColumn M j v → ReducesPairs Min M (empty_column_fixed M j v) (λ p. p) }
{}

/// V1: crossed bounds are a proof that no point is feasible.
pub fn crossed_bounds_let_no_point_through()
    ensures { (M : LinearProgram) (j : ℕ) → IsCrossedColumn M j → NoPoint M }
{}

/// V3: a column that can go on for ever, at less and less cost: where a point is feasible, no cost is the least.
pub fn unbounded_columns_leave_no_best_point()
    ensures { (M : LinearProgram) (j : ℕ) → IsUnboundedColumn M j → NoPointOrEndless Min M }
{}
