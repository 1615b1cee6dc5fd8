//! What a column is another one times.

ghost use Rattle.std.specs.Prelude.{◌≡◌, true};
ghost use Rattle.problem_model.specs.Problems.{column_at};
ghost use Rattle.parallel_laws.specs.ParallelColumns.{enabled, factor as factor_by};
ghost use Rattle.parallel_column_rules.specs.Looks.{factor_if as factor_there};

use crate::walks::{entries_of, first_over};
use fractions::frac::Frac;
use sparse_problem::Problem;

/// The first entry of a column over that of another one, if both have one and that has room.
#[tactic(auto, using(crate::proofs::Looks::none_zero))]
pub fn factor_if(problem: &Problem, column: u32, other: u32) -> Option<Frac>
    requires first { (column_at problem.now column).live ≡ true }
    requires second { (column_at problem.now other).live ≡ true }
    ensures { result ≡ factor_there problem.now column other }
{
    problem.is_sparse();
    let entries = entries_of(&problem.columns(), column);
    let others = entries_of(&problem.columns(), other);
    first_over(&problem.rows(), entries, others)
}

/// What a column that may be joined to another one is that one times.
#[tactic(auto, using(crate::proofs::Looks::first_live, crate::proofs::Looks::second_live))]
pub fn factor_of(problem: &Problem, column: u32, other: u32) -> Frac
    requires { enabled problem.now column other ≡ true }
    ensures { result ≡ factor_by problem.now column other }
{
    match factor_if(problem, column, other) {
        Some(factor) => factor,
        None => unreachable!(),
    }
}
