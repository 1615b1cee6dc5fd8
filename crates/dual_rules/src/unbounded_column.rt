//! V3: a column that no row locks in a direction in which it has no bound and costs less.

ghost use Rattle.std.specs.Prelude.{◌≡◌, true};
ghost use Rattle.problem_model.specs.Problems.{bounds_at, column_at, column_entries, cost_at};
ghost use Rattle.dual_laws.specs.Locks.{sides_on};
ghost use Rattle.dual_laws.specs.UnboundedColumn.{enabled, falls as is_falling, rises as is_rising};

use crate::directions::{Direction, entries, rows_take, rows_uncrossed};
use lp_model::ends::in_order;
use sparse_problem::Problem;

/// Whether a column rises for ever: its cost is below 0, it has no upper bound, and each row takes it.
fn rises(problem: &Problem, column: u32) -> bool
    requires { (column_at problem.now column).live ≡ true }
    ensures { result ≡ is_rising (column_entries problem.now column) (cost_at problem.now column) (bounds_at problem.now column).upper (sides_on problem.now column) }
{
    problem.cost(column).is_negative()
        && problem.bounds(column).upper.is_none()
        && rows_take(problem, Direction::Up, entries(problem, column))
}

/// Whether a column falls for ever.
fn falls(problem: &Problem, column: u32) -> bool
    requires { (column_at problem.now column).live ≡ true }
    ensures { result ≡ is_falling (column_entries problem.now column) (cost_at problem.now column) (bounds_at problem.now column).lower (sides_on problem.now column) }
{
    problem.cost(column).is_positive()
        && problem.bounds(column).lower.is_none()
        && rows_take(problem, Direction::Down, entries(problem, column))
}

/// Whether neither the bounds of a column nor the sides of its rows are crossed, and it rises or falls for ever.
#[tactic(auto, using(crate::proofs::Orders::last_first))]
pub fn is_enabled(problem: &Problem, column: u32) -> bool
    ensures { result ≡ enabled problem.now column }
{
    if !problem.is_column_live(column) {
        return false;
    }
    let bounds = problem.bounds(column);
    !bounds.semi
        && in_order(&bounds.lower, &bounds.upper)
        && (rises(problem, column) || falls(problem, column))
        && rows_uncrossed(problem, entries(problem, column))
}
