//! K10: a column that no row locks in the direction in which it doesn't cost more is fixed at its bound there.

ghost use Rattle.std.specs.Prelude.{◌≡◌, true};
ghost use Rattle.problem_model.specs.Problems.{bounds_at, column_at, column_entries, cost_at};
ghost use Rattle.rule_words.specs.Answers.{Changes};
ghost use Rattle.dual_laws.specs.Locks.{sides_on};
ghost use Rattle.dual_laws.specs.DualFixing.{enabled, edits, goes_down as is_down, goes_up as is_up, place_of, record_of, Computes};

use crate::directions::{Direction, entries, rows_take, rows_uncrossed};
use fractions::ext::Ext;
use lp_model::ends::{apart, place};
use problem_model::{Edit, Refusal};
use rule_words::Change;
use sparse_problem::Problem;
use std::alloc::{AllocError, Global};
use undo_records::{ColumnRecord, Undo};

/// Whether a column goes down to its lower bound: it is finite, whole if the column is, the cost not below 0, and each row takes it.
fn goes_down(problem: &Problem, column: u32) -> bool
    requires { (column_at problem.now column).live ≡ true }
    ensures { result ≡ is_down (column_entries problem.now column) (cost_at problem.now column) (bounds_at problem.now column).lower (bounds_at problem.now column).whole (sides_on problem.now column) }
{
    let bounds = problem.bounds(column);
    place(&bounds.lower, bounds.whole)
        && !problem.cost(column).is_negative()
        && rows_take(problem, Direction::Down, entries(problem, column))
}

/// Whether a column goes up to its upper bound.
fn goes_up(problem: &Problem, column: u32) -> bool
    requires { (column_at problem.now column).live ≡ true }
    ensures { result ≡ is_up (column_entries problem.now column) (cost_at problem.now column) (bounds_at problem.now column).upper (bounds_at problem.now column).whole (sides_on problem.now column) }
{
    let bounds = problem.bounds(column);
    place(&bounds.upper, bounds.whole)
        && !problem.cost(column).is_positive()
        && rows_take(problem, Direction::Up, entries(problem, column))
}

/// Whether a column's bounds are apart, no sides of its rows are crossed, and it goes down or up.
#[tactic(auto, using(crate::proofs::Orders::last_first))]
pub fn is_enabled(problem: &Problem, column: u32) -> bool
    ensures { result ≡ enabled problem.now column }
{
    if !problem.is_column_live(column) {
        return false;
    }
    let bounds = problem.bounds(column);
    !bounds.semi
        && apart(&bounds.lower, &bounds.upper)
        && (goes_down(problem, column) || goes_up(problem, column))
        && rows_uncrossed(problem, entries(problem, column))
}

/// The bound at which a column is fixed: the lower one where it goes down, else the upper one.
fn end_kept(problem: &Problem, column: u32) -> Ext
    requires { (column_at problem.now column).live ≡ true }
    ensures { result ≡ place_of problem.now column }
{
    let bounds = problem.bounds(column);
    if goes_down(problem, column) {
        bounds.lower
    } else {
        bounds.upper
    }
}

/// The change.
pub fn change(alloc: Global, problem: &Problem, column: u32) -> Result<Change, Refusal>
    requires { enabled problem.now column ≡ true }
    ensures { Changes (Computes problem.now column) (edits problem.now column) (record_of problem.now column) result }
{
    let end = end_kept(problem, column);
    let mut edits = Vec::with_capacity(alloc, 1)?;
    edits
        .push(Edit::SetBounds {
            column,
            lower: end,
            upper: end,
        })
        .map_err(AllocError::from)?;
    Ok(Change {
        edits,
        undo: Undo::DualFixing(ColumnRecord { column }),
    })
}
