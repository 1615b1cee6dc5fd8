//! What single rules say at the ids of a written program: no table of rules stands here. The functions here do nothing when they run: each
//! states a law of the definitions, and its check proves it.
#![tactic(auto)]

ghost use Rattle.std.specs.Prelude.{◌≡◌, ◌↔◌, ℕ, true};
ghost use Rattle.problem_model.specs.Problems.{column_at, row_at};
ghost use Rattle.problem_model.specs.Sparse.{Sparse};
ghost use Rattle.aggregation_laws.specs.DoubletonEquation as doubleton_equation;
ghost use Rattle.column_laws.specs.FreeColumnSingleton as free_column_singleton;
ghost use Rattle.column_laws.specs.SlackColumnSingleton as slack_column_singleton;
ghost use Rattle.parallel_laws.specs.ParallelColumns as parallel_columns;
ghost use Rattle.parallel_laws.specs.ParallelRows as parallel_rows;
ghost use Rattle.written_ids.specs.NewIds.{Ids};
ghost use Rattle.written_ids.specs.Standing.{LinesStand};

/// A column can be substituted by an equation of two columns at their new ids where it can be at their old ones, and the numbers that this
/// computes have room there where they have it here.
pub fn doubleton_equations_stand()
    ensures { (n : Ids) (p q : Sparse) (i j k : ℕ) → LinesStand n p q → (row_at p i).live ≡ true → (column_at p j).live ≡ true → (column_at p k).live ≡ true → (doubleton_equation.enabled q (n.row i) (n.column j) (n.column k) ≡ doubleton_equation.enabled p i j k) × (doubleton_equation.Computes p i j k ↔ doubleton_equation.Computes q (n.row i) (n.column j) (n.column k)) }
{}

/// A column can leave with the row of its one entry at their new ids where it can at their old ones, and the numbers that this computes have
/// room there where they have it here.
pub fn free_column_singletons_stand()
    ensures { (n : Ids) (p q : Sparse) (j i : ℕ) → LinesStand n p q → (row_at p i).live ≡ true → (column_at p j).live ≡ true → (free_column_singleton.enabled q (n.column j) (n.row i) ≡ free_column_singleton.enabled p j i) × (free_column_singleton.Computes p j i ↔ free_column_singleton.Computes q (n.column j) (n.row i)) }
{}

/// A column can leave as a slack of the row of its one entry at their new ids where it can at their old ones, and the numbers that this
/// computes have room there where they have it here.
pub fn slack_column_singletons_stand()
    ensures { (n : Ids) (p q : Sparse) (j i : ℕ) → LinesStand n p q → (row_at p i).live ≡ true → (column_at p j).live ≡ true → (slack_column_singleton.enabled q (n.column j) (n.row i) ≡ slack_column_singleton.enabled p j i) × (slack_column_singleton.Computes p j i ↔ slack_column_singleton.Computes q (n.column j) (n.row i)) }
{}

/// A row can give its sides to another one at their new ids where it can at their old ones, and the numbers that this computes have room
/// there where they have it here.
pub fn parallel_rows_stand()
    ensures { (n : Ids) (p q : Sparse) (i k : ℕ) → LinesStand n p q → (row_at p i).live ≡ true → (row_at p k).live ≡ true → (parallel_rows.enabled q (n.row i) (n.row k) ≡ parallel_rows.enabled p i k) × (parallel_rows.Computes p i k ↔ parallel_rows.Computes q (n.row i) (n.row k)) }
{}

/// A column can join another one at their new ids where it can at their old ones, and the numbers that this computes have room there where
/// they have it here.
pub fn parallel_columns_stand()
    ensures { (n : Ids) (p q : Sparse) (j k : ℕ) → LinesStand n p q → (column_at p j).live ≡ true → (column_at p k).live ≡ true → (parallel_columns.enabled q (n.column j) (n.column k) ≡ parallel_columns.enabled p j k) × (parallel_columns.Computes p j k ↔ parallel_columns.Computes q (n.column j) (n.column k)) }
{}
