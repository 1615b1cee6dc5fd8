//! V1 of columns: bounds that are crossed.

ghost use Rattle.std.specs.Prelude.{◌≡◌};
ghost use Rattle.singleton_laws.specs.CrossedBounds.{enabled};

use lp_model::ends::crossed;
use sparse_problem::Problem;

/// Whether a column has crossed bounds.
pub fn is_enabled(problem: &Problem, column: u32) -> bool
    ensures { result ≡ enabled problem.now column }
{
    if !problem.is_column_live(column) {
        return false;
    }
    let bounds = problem.bounds(column);
    !bounds.semi && crossed(&bounds.lower, &bounds.upper)
}
