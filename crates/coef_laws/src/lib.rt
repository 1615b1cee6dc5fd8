//! Laws of the rule that tightens a coefficient of a whole column: what its edits and its record owe. The functions here do nothing when
//! they run: each states the law of a rule, and its check proves it.
#![tactic(auto)]

ghost use Rattle.std.specs.Prelude.{◌≡◌, ℕ, true};
ghost use Rattle.problem_model.specs.Problems.{IsSparse};
ghost use Rattle.problem_model.specs.Sparse.{Sparse};
ghost use Rattle.rule_words.specs.Owed.{Owes};
ghost use Rattle.coef_laws.specs.CoefficientTightening as coefficient_tightening;

mod tightening;

pub use tightening::Tightening;

/// The coefficient of a whole column in a row with one finite side can shrink, and the side with it, by what the greatest rest of the row
/// leaves unused; it comes strictly closer to 0, and doesn't become 0.
pub fn coefficients_can_be_tightened()
    ensures owes { (p : Sparse) (i j : ℕ) → IsSparse p → coefficient_tightening.enabled p i j ≡ true → Owes p (coefficient_tightening.edits p i j) (coefficient_tightening.record_of p i j) }
    ensures shrinks { (p : Sparse) (i j : ℕ) → coefficient_tightening.enabled p i j ≡ true → coefficient_tightening.Shrinks p i j }
{}
