//! Laws of the rules that join lines that are multiples of one another: what their edits and records owe, of columns (K16) and of rows (K15).
//! The functions here do nothing when they run: each states the law of a rule, and its check proves it.
#![tactic(auto)]

ghost use Rattle.std.specs.Prelude.{◌≡◌, ℕ, true};
ghost use Rattle.problem_model.specs.Problems.{IsSparse};
ghost use Rattle.problem_model.specs.Sparse.{Sparse};
ghost use Rattle.rule_words.specs.Owed.{Owes};
ghost use Rattle.parallel_laws.specs.ParallelColumns as parallel_columns;
ghost use Rattle.parallel_laws.specs.ParallelRows as parallel_rows;

/// Each column j that is s times another column k, in its entries and in its cost, can be joined to it, where neither has crossed bounds
/// and x_k + s x_j is whole if both have to be.
pub fn parallel_columns_can_be_joined()
    ensures { (p : Sparse) (j k : ℕ) → IsSparse p → parallel_columns.enabled p j k ≡ true → Owes p (parallel_columns.edits p j k) (parallel_columns.record_of p j k) }
{}

/// Each row i that is s times another row k can be joined to it: row k gets the sides of both, and row i goes.
pub fn parallel_rows_can_be_joined()
    ensures { (p : Sparse) (i k : ℕ) → IsSparse p → parallel_rows.enabled p i k ≡ true → Owes p (parallel_rows.edits p i k) (parallel_rows.record_of p i k) }
{}
