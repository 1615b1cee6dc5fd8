//! K4: the bounds of a whole column are rounded inwards.

ghost use Rattle.std.specs.Prelude.{◌≡◌, true};
ghost use Rattle.lp_columns.specs.RoundedBounds.{rounded_down, rounded_up};
ghost use Rattle.rule_words.specs.Answers.{Changes};
ghost use Rattle.singleton_laws.specs.RoundedBounds.{enabled, edits, record_of, Computes};

use fractions::ext::Ext;
use lp_model::ends::{broken, in_order};
use problem_model::{Edit, Refusal};
use rule_words::Change;
use sparse_problem::Problem;
use std::alloc::{AllocError, Global};
use undo_records::{ColumnRecord, Undo};

/// Whether a column is whole and a finite bound of it isn't, and the bounds aren't crossed.
pub fn is_enabled(problem: &Problem, column: u32) -> bool
    ensures { result ≡ enabled problem.now column }
{
    if !problem.is_column_live(column) {
        return false;
    }
    let bounds = problem.bounds(column);
    !bounds.semi
        && bounds.whole
        && in_order(&bounds.lower, &bounds.upper)
        && (broken(&bounds.lower) || broken(&bounds.upper))
}

/// A lower bound, rounded up to a whole number.
fn up(end: &Ext) -> Ext
    ensures { result ≡ rounded_up end.now }
{
    match end.number() {
        None => Ext::none(),
        Some(number) => Ext::at(number.ceil()),
    }
}

/// An upper bound, rounded down to a whole number.
fn down(end: &Ext) -> Ext
    ensures { result ≡ rounded_down end.now }
{
    match end.number() {
        None => Ext::none(),
        Some(number) => Ext::at(number.floor()),
    }
}

/// The change.
pub fn change(alloc: Global, problem: &Problem, column: u32) -> Result<Change, Refusal>
    requires { enabled problem.now column ≡ true }
    ensures { Changes (Computes problem.now column) (edits problem.now column) (record_of problem.now column) result }
{
    let bounds = problem.bounds(column);
    let mut edits = Vec::with_capacity(alloc, 1)?;
    edits
        .push(Edit::SetBounds {
            column,
            lower: up(&bounds.lower),
            upper: down(&bounds.upper),
        })
        .map_err(AllocError::from)?;
    Ok(Change {
        edits,
        undo: Undo::RoundedBounds(ColumnRecord { column }),
    })
}
