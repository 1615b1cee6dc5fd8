//! Laws of the rules that put a column elsewhere by a row: what the edits and the record of each owe. The functions here do nothing when
//! they run: each states the law of a rule, and its check proves it.
#![tactic(auto)]

ghost use Rattle.std.specs.Prelude.{◌≡◌, ℕ, true};
ghost use Rattle.problem_model.specs.Problems.{IsSparse};
ghost use Rattle.problem_model.specs.Sparse.{Sparse};
ghost use Rattle.rule_words.specs.Owed.{Owes};
ghost use Rattle.aggregation_laws.specs.DoubletonEquation as doubleton_equation;

/// Each column j of an equation a x_j + b x_k = r of two columns, whose bounds aren't crossed, can be substituted by (r - b x_k)/a, where
/// that is whole if x_j has to be.
pub fn doubleton_equations_can_be_substituted()
    ensures { (p : Sparse) (i j k : ℕ) → IsSparse p → doubleton_equation.enabled p i j k ≡ true → Owes p (doubleton_equation.edits p i j k) (doubleton_equation.record_of p i j k) }
{}
