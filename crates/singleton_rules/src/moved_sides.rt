//! The sides of the rows out of which a multiple of a column is taken.

ghost use Rattle.std.specs.Prelude.{◌≡◌, ◌↔◌, ◌++◌, ◌∷◌, [], ⊤, true, map, All, IfOk, IsOk, OnOk, IsErrOf};
ghost use Rattle.problem_model.specs.Problems.{row_at};
ghost use Rattle.problem_model.specs.declared.refusal.Refusal.TheVariants as Refusal;
ghost use Rattle.rule_words.specs.Answers.{Answers};
ghost use Rattle.rule_words.specs.MovedSides.{sides_less, SidesFit};

use fractions::Past;
use fractions::ends::less;
use fractions::frac::Frac;
use lp_model::Term;
use problem_model::{Edit, Refusal};
use sparse_problem::Problem;
use std::alloc::AllocError;

/// The sides of a term's row, less the term times a number. A side that is infinite stays.
fn less_term(problem: &Problem, term: &Term, shift: &Frac) -> Result<Edit, Past>
    requires { (row_at problem.now term.now.id).live ≡ true }
    ensures value { IfOk result (λ e. e ≡ sides_less problem.now shift.now term.now) }
    ensures fits { IsOk result ↔ SidesFit problem.now shift.now term.now }
{
    let sides = problem.sides(term.id);
    let product = term.value.mul(shift)?;
    Ok(Edit::SetSides {
        row: term.id,
        lower: less(&sides.lower, &product)?,
        upper: less(&sides.upper, &product)?,
    })
}

/// Adds the new sides of a term's row at the end.
fn add(all: &mut Vec<Edit>, problem: &Problem, term: &Term, shift: &Frac) -> Result<(), Refusal>
    requires { (row_at problem.now term.now.id).live ≡ true }
    ensures made { OnOk result (all.new.items ≡ all.old.items ++ sides_less problem.now shift.now term.now ∷ []) }
    ensures fits { OnOk result (SidesFit problem.now shift.now term.now) }
    ensures past { IsErrOf result Refusal.Past → SidesFit problem.now shift.now term.now → ⊥ }
    ensures written { IsErrOf result Refusal.NotDecimal → ⊥ }
{
    let sides = less_term(problem, term, shift)?;
    all.push(sides).map_err(AllocError::from)?;
    Ok(())
}

/// Adds the new sides of the rows of terms, each less its term times a number.
///
/// # Errors
/// Past where one of their numbers is.
pub fn add_sides(
    all: &mut Vec<Edit>,
    problem: &Problem,
    terms: &[Term],
    shift: &Frac,
) -> Result<(), Refusal>
    requires { All (λ t. (row_at problem.now t.id).live ≡ true) terms.now }
    ensures { Answers (All (SidesFit problem.now shift.now) terms.now) ⊤ (λ done. all.new.items ≡ all.old.items ++ map (sides_less problem.now shift.now) terms.now) result }
{
    for term in terms {
        if let Err(refusal) = add(all, problem, term, shift) {
            return Err(refusal);
        }
    }
    Ok(())
}
