//! V1 of rows: sides that are crossed.

ghost use Rattle.std.specs.Prelude.{◌≡◌};
ghost use Rattle.singleton_laws.specs.CrossedSides.{enabled};

use lp_model::ends::crossed;
use sparse_problem::Problem;

/// Whether a row has crossed sides.
pub fn is_enabled(problem: &Problem, row: u32) -> bool
    ensures { result ≡ enabled problem.now row }
{
    if !problem.is_row_live(row) {
        return false;
    }
    let sides = problem.sides(row);
    crossed(&sides.lower, &sides.upper)
}
