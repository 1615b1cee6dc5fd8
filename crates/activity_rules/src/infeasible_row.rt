//! V2: a row of which a side is out of reach of its columns' bounds.

ghost use Rattle.std.specs.Prelude.{◌≡◌, ◌||◌, true};
ghost use Rattle.lp_model.specs.EndTests.{is_crossed};
ghost use Rattle.problem_model.specs.Problems.{row_at, sides_at};
ghost use Rattle.row_spans.specs.Spans.{spans_of};
ghost use Rattle.row_spans.specs.declared.span.Extreme.TheVariants.{Greatest, Least};
ghost use Rattle.row_spans.specs.RowSums.{activity};
ghost use Rattle.activity_laws.specs.Rows.{on_activities};
ghost use Rattle.activity_rules.specs.Looks.{on_one};
ghost use Rattle.activity_laws.specs.InfeasibleRow.{enabled};

use activities::rows::is_uncrossed;
use activities::{greatest, least};
use fractions::ext::Ext;
use lp_model::ends::crossed;
use sparse_problem::Problem;

/// Whether a row's least activity has room, and is above an upper side. It is not made where there is no such side.
#[tactic(auto, using(crate::proofs::Looks::none_above))]
fn is_above(problem: &Problem, row: u32, upper: &Ext) -> bool
    requires { (row_at problem.now row).live ≡ true }
    ensures { result ≡ on_one (λ v. is_crossed v upper.now) (activity Least (spans_of problem.now row)) }
{
    if upper.is_none() {
        return false;
    }
    match least(problem, row, None) {
        Ok(value) => crossed(&value, upper),
        Err(_) => false,
    }
}

/// Whether a row's greatest activity has room, and is below a lower side. It is not made where there is no such side.
#[tactic(auto, using(crate::proofs::Looks::none_below))]
fn is_below(problem: &Problem, row: u32, lower: &Ext) -> bool
    requires { (row_at problem.now row).live ≡ true }
    ensures { result ≡ on_one (λ v. is_crossed lower.now v) (activity Greatest (spans_of problem.now row)) }
{
    if lower.is_none() {
        return false;
    }
    match greatest(problem, row, None) {
        Ok(value) => crossed(lower, &value),
        Err(_) => false,
    }
}

/// Whether a row's least activity is above its upper side, or the greatest below its lower side, and neither is past.
#[tactic(auto, using(crate::proofs::Looks::either_first))]
fn misses_side(problem: &Problem, row: u32) -> bool
    requires { (row_at problem.now row).live ≡ true }
    ensures { result ≡ on_activities (λ least greatest. is_crossed least (sides_at problem.now row).upper || is_crossed (sides_at problem.now row).lower greatest) (spans_of problem.now row) }
{
    let sides = problem.sides(row);
    (is_above(problem, row, &sides.upper) && greatest(problem, row, None).is_ok())
        || (is_below(problem, row, &sides.lower) && least(problem, row, None).is_ok())
}

/// Whether nothing of a row is crossed, and one of its sides is out of reach of its columns' bounds. A row may be without entries.
#[tactic(auto, using(crate::proofs::Looks::infeasible_row_is))]
pub fn is_enabled(problem: &Problem, row: u32) -> bool
    ensures { result ≡ enabled problem.now row }
{
    problem.is_row_live(row) && misses_side(problem, row) && is_uncrossed(problem, row)
}
