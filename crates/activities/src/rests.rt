//! A row without one of its columns: its entry there, and the rest of its activity.

ghost use Rattle.std.specs.Prelude.{◌≡◌, ℕ, None, Ok, IsTrue, true};
ghost use Rattle.lp_model.specs.Sparse.{dense};
ghost use Rattle.problem_model.specs.Problems.{row_at, row_entries};
ghost use Rattle.row_spans.specs.RowSums.{rest as rest_without};
ghost use Rattle.row_spans.specs.Spans.{spans_of};

use crate::entries::number_in;
use crate::problem_rows::{greatest, least};
use fractions::Past;
use fractions::ext::Ext;
use fractions::frac::Frac;
use row_spans::Extreme;
use sparse_problem::Problem;

/// The entry of a row in a column: 0 where it has none there.
pub fn entry_of(problem: &Problem, row: u32, column: u32) -> Frac
    requires { (row_at problem.now row).live ≡ true }
    ensures { result ≡ dense (row_entries problem.now row) column }
{
    if !problem.is_column_live(column) {
        return Frac::zero();
    }
    number_in(problem, row, column)
}

/// A row's activity without a column.
///
/// # Errors
/// Past where a step has no room.
pub fn rest_of(problem: &Problem, row: u32, column: u32, extreme: Extreme) -> Result<Ext, Past>
    requires { (row_at problem.now row).live ≡ true }
    ensures { result ≡ rest_without extreme column (spans_of problem.now row) }
{
    match extreme {
        Extreme::Least => least(problem, row, Some(column)),
        Extreme::Greatest => greatest(problem, row, Some(column)),
    }
}

/// Whether each rest of a row is infinite, because two of its terms are. `false` where no sums are kept of it.
pub fn is_each_rest_infinite(problem: &Problem, row: u32, extreme: Extreme) -> bool
    ensures { IsTrue result → (j : ℕ) → rest_without extreme j (spans_of problem.now row) ≡ Ok None }
{
    problem.is_sparse();
    match problem.kept_sums(row) {
        None => false,
        Some(kept) => match extreme {
            Extreme::Least => kept.least.infinite > 1,
            Extreme::Greatest => kept.greatest.infinite > 1,
        },
    }
}
