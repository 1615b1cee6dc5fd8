//! What a row is another one times.

ghost use Rattle.std.specs.Prelude.{◌≡◌, true};
ghost use Rattle.problem_model.specs.Problems.{row_at};
ghost use Rattle.parallel_laws.specs.ParallelRows.{enabled, factor as factor_by};
ghost use Rattle.parallel_row_rules.specs.Looks.{factor_if as factor_there};

use fractions::frac::Frac;
use parallel_column_rules::walks::{entries_of, first_over};
use sparse_problem::Problem;

/// The first entry of a row over that of another one, if both have one and that has room.
#[tactic(auto, using(crate::proofs::Looks::none_zero))]
pub fn factor_if(problem: &Problem, row: u32, other: u32) -> Option<Frac>
    requires first { (row_at problem.now row).live ≡ true }
    requires second { (row_at problem.now other).live ≡ true }
    ensures { result ≡ factor_there problem.now row other }
{
    problem.is_sparse();
    let entries = entries_of(&problem.rows(), row);
    let others = entries_of(&problem.rows(), other);
    first_over(&problem.columns(), entries, others)
}

/// What a row that may be joined to another one is that one times.
#[tactic(auto, using(crate::proofs::Looks::first_live, crate::proofs::Looks::second_live))]
pub fn factor_of(problem: &Problem, row: u32, other: u32) -> Frac
    requires { enabled problem.now row other ≡ true }
    ensures { result ≡ factor_by problem.now row other }
{
    match factor_if(problem, row, other) {
        Some(factor) => factor,
        None => unreachable!(),
    }
}
