//! K17: a column without entries is fixed where it costs least.

ghost use Rattle.std.specs.Prelude.{◌≡◌, true};
ghost use Rattle.lp_columns.specs.EmptyColumn.{resting_place};
ghost use Rattle.rule_words.specs.Answers.{Changes};
ghost use Rattle.singleton_laws.specs.EmptyColumn.{enabled, edits, record_of, Computes};

use fractions::ext::Ext;
use fractions::frac::Frac;
use lp_model::ends::{apart, place};
use problem_model::{Edit, Refusal};
use rule_words::Change;
use sparse_problem::Problem;
use std::alloc::{AllocError, Global};
use undo_records::{ColumnRecord, Undo};

/// Where a column without entries costs least between its bounds; none if that end is none.
fn cheapest(cost: &Frac, lower: &Ext, upper: &Ext) -> Ext
    ensures { result ≡ resting_place cost.now lower.now upper.now }
{
    if cost.is_positive() {
        return *lower;
    }
    if cost.is_negative() {
        return *upper;
    }
    if !lower.is_none() {
        return *lower;
    }
    if !upper.is_none() {
        return *upper;
    }
    Ext::at(Frac::zero())
}

/// Whether a column has no entries, bounds that are apart, and a number where it costs least, whole if it is.
pub fn is_enabled(problem: &Problem, column: u32) -> bool
    ensures { result ≡ enabled problem.now column }
{
    if !problem.is_column_live(column) || problem.live_column_entries(column) != 0 {
        return false;
    }
    let bounds = problem.bounds(column);
    let cost = problem.cost(column);
    !bounds.semi
        && apart(&bounds.lower, &bounds.upper)
        && place(&cheapest(&cost, &bounds.lower, &bounds.upper), bounds.whole)
}

/// The change.
pub fn change(alloc: Global, problem: &Problem, column: u32) -> Result<Change, Refusal>
    requires { enabled problem.now column ≡ true }
    ensures { Changes (Computes problem.now column) (edits problem.now column) (record_of problem.now column) result }
{
    let bounds = problem.bounds(column);
    let target = cheapest(&problem.cost(column), &bounds.lower, &bounds.upper);
    let mut edits = Vec::with_capacity(alloc, 1)?;
    edits
        .push(Edit::SetBounds {
            column,
            lower: target,
            upper: target,
        })
        .map_err(AllocError::from)?;
    Ok(Change {
        edits,
        undo: Undo::EmptyColumn(ColumnRecord { column }),
    })
}
