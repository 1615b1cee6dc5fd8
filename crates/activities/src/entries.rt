//! The entry of a row in a column.

ghost use Rattle.std.specs.Prelude.{◌≡◌, ℕ, true};
ghost use Rattle.lp_model.specs.Sparse.{Ascends, dense};
ghost use Rattle.problem_model.specs.Problems.{row_at};

use fractions::frac::Frac;
use lp_model::Term;
use sparse_problem::Problem;

/// The number at an id among terms whose ids ascend: 0 where none has it. Each step halves what is left of them.
fn number_among(terms: &[Term], id: u32) -> Frac
    ensures { (n : ℕ) → Ascends 0 n terms.now → result ≡ dense terms.now id }
{
    let mut rest = terms;
    while rest.len() > 0 {
        let (before, from) = rest.split_at(rest.len() / 2);
        let [term, after @ ..] = from else {
            return Frac::zero();
        };
        if term.id == id {
            return term.value;
        }
        rest = if term.id < id { after } else { before };
    }
    Frac::zero()
}

/// What a row holds at a column, whether that is live or not: 0 where it has no entry there.
pub fn number_in(problem: &Problem, row: u32, column: u32) -> Frac
    requires { (row_at problem.now row).live ≡ true }
    ensures { result ≡ dense (row_at problem.now row).entries column }
{
    problem.is_sparse();
    number_among(problem.row_line(row).entries.as_slice(), column)
}
