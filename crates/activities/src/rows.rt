//! The look at a row before its activities are made, and tests of an activity against a side.

ghost use Rattle.std.specs.Prelude.{◌≡◌, true};
ghost use Rattle.lp_model.specs.EndTests.{is_in_order};
ghost use Rattle.problem_model.specs.Problems.{bounds_at, column_at, row_at};
ghost use Rattle.problem_model.specs.Showing.{reach_low, reach_high};
ghost use Rattle.row_spans.specs.Spans.{spans_among, spans_of};
ghost use Rattle.activity_laws.specs.Rows.{all_in_order, has_some, keeps_lower as lower_is_kept, keeps_upper as upper_is_kept};
ghost use Rattle.activities.specs.Rows.{is_uncrossed as nothing_is_crossed};

use fractions::ext::Ext;
use lp_model::Term;
use lp_model::ends::in_order;
use sparse_problem::Problem;

/// Whether the ends that the values of a term's column reach are in order.
#[cold]
fn ends_in_order(problem: &Problem, term: &Term) -> bool
    requires { (column_at problem.now term.now.id).live ≡ true }
    ensures { result ≡ is_in_order (reach_low (bounds_at problem.now term.now.id)) (reach_high (bounds_at problem.now term.now.id)) }
{
    let bounds = problem.bounds(term.id);
    in_order(&bounds.reach_lower(), &bounds.reach_upper())
}

/// The same, of the bounds as they stand where the column isn't semi-continuous.
fn bounds_in_order(problem: &Problem, term: &Term) -> bool
    requires { (column_at problem.now term.now.id).live ≡ true }
    ensures { result ≡ is_in_order (reach_low (bounds_at problem.now term.now.id)) (reach_high (bounds_at problem.now term.now.id)) }
{
    let bounds = problem.bounds(term.id);
    if bounds.semi {
        return ends_in_order(problem, term);
    }
    in_order(&bounds.lower, &bounds.upper)
}

/// Whether the bounds of each live column of these terms are in order.
fn all_bounds_in_order(problem: &Problem, terms: &[Term]) -> bool
    ensures { result ≡ all_in_order (spans_among problem.now terms.now) }
{
    let mut rest = terms;
    while let [term, after @ ..] = rest {
        if problem.is_column_live(term.id) && !bounds_in_order(problem, term) {
            return false;
        }
        rest = after;
    }
    true
}

/// Whether the bounds of each column of a row are in order: as the count of crossed ones that is kept of it says, or by a walk along it.
#[tactic(auto, using(crate::proofs::RowLooks::none_crossed))]
fn columns_in_order(problem: &Problem, row: u32) -> bool
    requires { (row_at problem.now row).live ≡ true }
    ensures { result ≡ all_in_order (spans_of problem.now row) }
{
    match problem.crossed_columns(row) {
        Some(crossed) => crossed == 0,
        None => {
            let line = problem.row_line(row);
            all_bounds_in_order(problem, line.entries.as_slice())
        }
    }
}

/// Whether a row is live, and neither its sides nor the bounds of its columns are crossed.
pub fn is_uncrossed(problem: &Problem, row: u32) -> bool
    ensures { result ≡ nothing_is_crossed problem.now row }
{
    if !problem.is_row_live(row) {
        return false;
    }
    let sides = problem.sides(row);
    in_order(&sides.lower, &sides.upper) && columns_in_order(problem, row)
}

/// Whether a row has an entry.
#[tactic(auto, using(crate::proofs::RowLooks::has_some_is))]
pub fn has_entries(problem: &Problem, row: u32) -> bool
    ensures { result ≡ has_some (spans_of problem.now row) }
{
    problem.live_row_entries(row) != 0
}

/// Whether a least activity keeps a lower side.
pub fn keeps_lower(side: &Ext, least: &Ext) -> bool
    ensures { result ≡ lower_is_kept side.now least.now }
{
    match side.number() {
        None => true,
        Some(lower) => match least.number() {
            None => false,
            Some(value) => lower.le(&value),
        },
    }
}

/// Whether a greatest activity keeps an upper side.
pub fn keeps_upper(side: &Ext, greatest: &Ext) -> bool
    ensures { result ≡ upper_is_kept side.now greatest.now }
{
    match side.number() {
        None => true,
        Some(upper) => match greatest.number() {
            None => false,
            Some(value) => value.le(&upper),
        },
    }
}
