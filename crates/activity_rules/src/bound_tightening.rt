//! K8: a bound of a column becomes the one that a row implies with the bounds of its other columns, where that is a better one.

ghost use Rattle.std.specs.Prelude.{◌≡◌, true, IfOk};
ghost use Rattle.lp_model.specs.Sparse.{has};
ghost use Rattle.problem_model.specs.Problems.{bounds_at, row_at, row_entries, sides_at};
ghost use Rattle.rule_words.specs.Answers.{Changes};
ghost use Rattle.row_spans.specs.Spans.{spans_of};
ghost use Rattle.activity_laws.specs.BoundTightening.{bound_set, enabled, edits, has_two, new_bound as new_by, record_of, Computes};
ghost use Rattle.activity_rules.specs.Tightened.{gets_better as bound_gets_better, is_looked_at as row_is_looked_at};

use activities::row_bounds::{is_better, left_over, old_bound, source};
use activities::rows::is_uncrossed;
use activities::{entry_of, rest_of};
use fractions::ext::Ext;
use problem_model::{Edit, Refusal};
use rule_words::Change;
use sparse_problem::Problem;
use std::alloc::{AllocError, Global};
use undo_records::{BoundTightening, KeptEnd, SharedTerms, Side, Undo};

/// Whether a row has two entries or more.
#[tactic(auto, using(crate::proofs::Tightened::has_two_is))]
fn has_others(problem: &Problem, row: u32) -> bool
    ensures { result ≡ has_two (spans_of problem.now row) }
{
    problem.live_row_entries(row) > 1
}

/// Whether nothing of a row is crossed, and it has two entries or more.
pub(crate) fn is_looked_at(problem: &Problem, row: u32) -> bool
    ensures { result ≡ row_is_looked_at problem.now row }
{
    is_uncrossed(problem, row) && has_others(problem, row)
}

/// Whether a row has an entry in a column.
fn is_in_row(problem: &Problem, row: u32, column: u32) -> bool
    requires { (row_at problem.now row).live ≡ true }
    ensures { result ≡ has column (row_entries problem.now row) }
{
    problem.is_sparse();
    !entry_of(problem, row, column).is_zero()
}

/// The bound that a row implies for one of its columns.
fn new_bound(problem: &Problem, row: u32, column: u32, side: Side) -> Ext
    requires row { (row_at problem.now row).live ≡ true }
    requires column { has column (row_entries problem.now row) ≡ true }
    ensures { result ≡ new_by problem.now row column side }
{
    problem.is_sparse();
    let entry = entry_of(problem, row, column);
    let (extreme, end) = source(side, &entry, &problem.sides(row));
    left_over(&entry, &end, rest_of(problem, row, column, extreme))
}

/// Whether that bound is better than the column's own, which is not semi-continuous.
#[tactic(auto, using(crate::proofs::Tightened::column_on))]
fn gets_better(problem: &Problem, row: u32, column: u32, side: Side) -> bool
    requires row { (row_at problem.now row).live ≡ true }
    requires column { has column (row_entries problem.now row) ≡ true }
    ensures { result ≡ bound_gets_better problem.now row column side }
{
    let bounds = problem.bounds(column);
    if bounds.semi {
        return false;
    }
    let old = old_bound(side, &bounds.reach_lower(), &bounds.reach_upper());
    is_better(side, &old, &new_bound(problem, row, column, side))
}

/// Whether nothing of a row is crossed, it has two entries or more, and one of them is in a column for which it implies a better bound.
#[tactic(auto, using(crate::proofs::Tightened::bound_tightening_is))]
pub fn is_enabled(problem: &Problem, row: u32, column: u32, side: Side) -> bool
    ensures { result ≡ enabled problem.now row column side }
{
    is_looked_at(problem, row)
        && is_in_row(problem, row, column)
        && gets_better(problem, row, column, side)
}

/// The edit: one bound of a column moves, and the other one stays. Takes no memory.
#[tactic(auto, using(crate::proofs::Tightened::column_on, crate::proofs::Tightened::bound_tightening_is))]
pub fn moved_bound(problem: &Problem, row: u32, column: u32, side: Side) -> Edit
    requires { enabled problem.now row column side ≡ true }
    ensures { result ≡ bound_set side column (bounds_at problem.now column) (new_by problem.now row column side) }
{
    let bounds = problem.bounds(column);
    let bound = new_bound(problem, row, column, side);
    let (lower, upper) = match side {
        Side::Lower => (bound, bounds.upper),
        Side::Upper => (bounds.lower, bound),
    };
    Edit::SetBounds {
        column,
        lower,
        upper,
    }
}

/// The record, with the bound before.
#[tactic(auto, using(crate::proofs::Tightened::column_on))]
fn record_at(
    alloc: Global,
    problem: &Problem,
    row: u32,
    column: u32,
    side: Side,
) -> Result<Undo, AllocError>
    requires { has column (row_entries problem.now row) ≡ true }
    ensures { IfOk result (λ undo. undo ≡ record_of problem.now row column side) }
{
    let bounds = problem.bounds(column);
    let old = old_bound(side, &bounds.lower, &bounds.upper);
    Ok(Undo::BoundTightening(BoundTightening {
        row,
        column,
        side,
        bound: KeptEnd::new(alloc, old)?,
        entries: SharedTerms::new(alloc, problem.row_terms(alloc, row)?)?,
    }))
}

/// The change by its edit: the bound becomes the one that the row implies.
///
/// # Errors
/// Memory ran out.
#[tactic(auto, using(crate::proofs::Tightened::bound_tightening_is))]
pub fn change_by(
    alloc: Global,
    problem: &Problem,
    row: u32,
    column: u32,
    side: Side,
    edit: Edit,
) -> Result<Change, Refusal>
    requires enabled { enabled problem.now row column side ≡ true }
    requires edit { edit ≡ bound_set side column (bounds_at problem.now column) (new_by problem.now row column side) }
    ensures { Changes (Computes problem.now row column side) (edits problem.now row column side) (record_of problem.now row column side) result }
{
    let mut edits = Vec::with_capacity(alloc, 1)?;
    edits.push(edit).map_err(AllocError::from)?;
    Ok(Change {
        edits,
        undo: record_at(alloc, problem, row, column, side)?,
    })
}

/// The change: the bound becomes the one that the row implies.
pub fn change(
    alloc: Global,
    problem: &Problem,
    row: u32,
    column: u32,
    side: Side,
) -> Result<Change, Refusal>
    requires { enabled problem.now row column side ≡ true }
    ensures { Changes (Computes problem.now row column side) (edits problem.now row column side) (record_of problem.now row column side) result }
{
    let edit = moved_bound(problem, row, column, side);
    change_by(alloc, problem, row, column, side, edit)
}
