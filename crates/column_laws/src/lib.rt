//! Laws of the rules of a continuous column with one entry, which leaves with its row or as a slack of it: what their edits and their
//! records owe. The functions here do nothing when they run: each states the law of a rule, and its check proves it.
#![tactic(auto)]

ghost use Rattle.std.specs.Prelude.{◌≡◌, ℕ, true};
ghost use Rattle.problem_model.specs.Problems.{IsSparse};
ghost use Rattle.problem_model.specs.Sparse.{Sparse};
ghost use Rattle.rule_words.specs.Owed.{Owes};
ghost use Rattle.column_laws.specs.FreeColumnSingleton as free_column_singleton;
ghost use Rattle.column_laws.specs.SlackColumnSingleton as slack_column_singleton;

/// A continuous column with one entry, whose bounds its row implies at the side where it is cheapest, can leave with the row: the row stands
/// at that side.
pub fn free_column_singletons_can_leave_with_their_rows()
    ensures { (p : Sparse) (j i : ℕ) → IsSparse p → free_column_singleton.enabled p j i ≡ true → Owes p (free_column_singleton.edits p j i) (free_column_singleton.record_of p j i) }
{}

/// A continuous column whose one entry is in an equation, or whose cost is 0, can leave as a slack of its row: the row's sides take up its
/// bounds.
pub fn slack_column_singletons_can_be_put_into_sides()
    ensures { (p : Sparse) (j i : ℕ) → IsSparse p → slack_column_singleton.enabled p j i ≡ true → Owes p (slack_column_singleton.edits p j i) (slack_column_singleton.record_of p j i) }
{}
