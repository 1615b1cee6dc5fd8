//! The laws of the reductions of columns, for pairs, with the undoing of their records.

ghost use Rattle.std.specs.Prelude.{◌≡◌, ℕ, List};
ghost use Rattle.fractions.specs.Number.{Number, zero_ℚ};
ghost use Rattle.lp_model.specs.declared.program.Sense.TheVariants.{Min};
ghost use Rattle.lp_model.specs.declared.terms.Term.{Term};
ghost use Rattle.lp_model.specs.LinearProgram.{LinearProgram};
ghost use Rattle.lp_model.specs.Reductions.{ReducesPairs};
ghost use Rattle.lp_model.specs.Sparse.{Ascends, dense};
ghost use Rattle.lp_model.specs.Optimality.{Continuous};
ghost use Rattle.fractions.specs.Total.{put};
ghost use Rattle.lp_columns.specs.FixedColumn.{IsFixedColumn, fixed_column_deleted};
ghost use Rattle.lp_columns.specs.RoundedBounds.{IsWholeColumn, bounds_rounded};
ghost use Rattle.lp_columns.specs.EmptyColumn.{IsEmptyColumn, empty_column_fixed};
ghost use Rattle.lp_columns.specs.DualFixing.{IsDualFixing, column_dual_fixed};
ghost use Rattle.lp_columns.specs.DominatedColumn.{IsDominatedColumn, dominated_column_fixed};
ghost use Rattle.lp_columns.specs.ParallelColumns.{AreParallelColumns, parallel_columns_joined};
ghost use Rattle.lp_substitutions.specs.DoubletonEquation.{IsDoubletonEquation, doubleton_equation_substituted};
ghost use Rattle.lp_substitutions.specs.FreeColumnSingleton.{IsFreeColumnSingleton, free_column_singleton_deleted};
ghost use Rattle.lp_substitutions.specs.SlackColumnSingleton.{IsSlackColumnSingleton, IsRowLeftFree, slack_column_singleton_deleted, slack_row_deleted};
ghost use Rattle.undo_records.specs.declared.side.RowFate.TheVariants.{Kept, Dropped};
ghost use Rattle.undo_pairs.specs.LiftPair.{undone_pair};
ghost use Rattle.pair_laws.specs.Records.{fixed_column, rounded_bounds, dual_fixing, dominated_column, doubleton_equation, free_column_singleton, slack_column_singleton, parallel_columns, empty_column};

/// K3: a fixed column of a program without whole columns; the list has the column's entries.
pub fn fixed_columns_keep_pairs()
    ensures { (M : LinearProgram) (j : ℕ) (v : Number) (ts : List Term) → Continuous M → IsFixedColumn M j v → Ascends 0 M.rows ts → dense ts ≡ (λ i. M.coefficient i j) → ReducesPairs Min M (fixed_column_deleted M j v) (undone_pair (fixed_column M j v ts)) }
{}

/// K4: rounded bounds. Their column has to be whole, so that nothing meets the optimality conditions.
pub fn rounded_bounds_keep_pairs()
    ensures { (M : LinearProgram) (j : ℕ) → IsWholeColumn M j → ReducesPairs Min M (bounds_rounded M j) (undone_pair (rounded_bounds j)) }
{}

/// K10, K11, K17: columns that were put at a bound.
pub fn placed_columns_keep_pairs()
    ensures cost { (M : LinearProgram) (j : ℕ) (v : Number) → IsDualFixing M j v → ReducesPairs Min M (column_dual_fixed M j v) (undone_pair (dual_fixing j)) }
    ensures dominated { (M : LinearProgram) (i j k : ℕ) (v : Number) → IsDominatedColumn M j k v → ReducesPairs Min M (dominated_column_fixed M k v) (undone_pair (dominated_column i j k)) }
    ensures empty { (M : LinearProgram) (j : ℕ) (v : Number) → IsEmptyColumn M j v → ReducesPairs Min M (empty_column_fixed M j v) (undone_pair (empty_column j)) }
{}

/// K12: an equation of two columns; the list has the other entries of the one that was deleted.
pub fn doubleton_equations_keep_pairs()
    ensures { (M : LinearProgram) (i j k : ℕ) (r : Number) (ts : List Term) → IsDoubletonEquation M i j k r → Ascends 0 M.rows ts → dense ts ≡ put (λ m. M.coefficient m j) i zero_ℚ
        → ReducesPairs Min M (doubleton_equation_substituted M i j k r) (undone_pair (doubleton_equation M i j k r ts)) }
{}

/// K13: a column with one entry that was deleted with its row; the list has the row's other entries.
pub fn free_column_singletons_keep_pairs()
    ensures { (M : LinearProgram) (j i : ℕ) (s : Number) (ts : List Term) → IsFreeColumnSingleton M j i s → Ascends 0 M.columns ts → dense ts ≡ put (M.coefficient i) j zero_ℚ
        → ReducesPairs Min M (free_column_singleton_deleted M j i) (undone_pair (free_column_singleton M j i s ts)) }
{}

/// K14: a column with one entry, a slack of its row; the list has the row's other entries.
pub fn slack_column_singletons_keep_pairs()
    ensures kept { (M : LinearProgram) (j i : ℕ) (ts : List Term) → IsSlackColumnSingleton M j i → Ascends 0 M.columns ts → dense ts ≡ put (M.coefficient i) j zero_ℚ
        → ReducesPairs Min M (slack_column_singleton_deleted M j i) (undone_pair (slack_column_singleton M j i Kept ts)) }
    ensures dropped { (M : LinearProgram) (j i : ℕ) (ts : List Term) → IsRowLeftFree M j i → Ascends 0 M.columns ts → dense ts ≡ put (M.coefficient i) j zero_ℚ
        → ReducesPairs Min M (slack_row_deleted M j i) (undone_pair (slack_column_singleton M j i Dropped ts)) }
{}

/// K16: a column that was merged into one that it is a multiple of.
pub fn parallel_columns_keep_pairs()
    ensures { (M : LinearProgram) (j k : ℕ) (s : Number) → AreParallelColumns M j k s → ReducesPairs Min M (parallel_columns_joined M j k s) (undone_pair (parallel_columns M j k s)) }
{}
