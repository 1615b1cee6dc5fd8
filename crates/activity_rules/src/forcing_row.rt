//! K7: a row that only just reaches one of its sides, and that only where each of its columns is at one end, is deleted, and the columns
//! are fixed there.

ghost use Rattle.std.specs.Prelude.{◌≡◌, ◌||◌, ◌++◌, ◌∷◌, [], true, map, IfOk, if◌then◌else◌};
ghost use Rattle.problem_model.specs.Problems.{row_at, row_entries, sides_at};
ghost use Rattle.problem_model.specs.declared.edit.Edit.TheVariants as edit;
ghost use Rattle.rule_words.specs.Answers.{Changes};
ghost use Rattle.row_spans.specs.Spans.{spans_among, spans_of};
ghost use Rattle.row_spans.specs.declared.span.Extreme.TheVariants.{Greatest, Least};
ghost use Rattle.row_spans.specs.RowSums.{activity};
ghost use Rattle.activity_laws.specs.Rows.{on_activities};
ghost use Rattle.activity_rules.specs.Looks.{on_one};
ghost use Rattle.activity_laws.specs.ForcingRow.{all_solid, at_lower, enabled, edits, edits_by, end_of as end_with, fixed_at_end as fixed_with, is_reached as side_is_reached, record_by, record_of, Computes};
ghost use Rattle.undo_records.specs.declared.side.Side.TheVariants.{Lower, Upper};
ghost use Rattle.undo_records.specs.declared.undo.Undo.TheVariants as undone;

use activities::rows::{has_entries, is_uncrossed};
use activities::{RowSums, greatest, least};
use fractions::ext::Ext;
use lp_model::Term;
use problem_model::{Edit, Refusal};
use row_spans::{Extreme, Span};
use rule_words::Change;
use sparse_problem::Problem;
use std::alloc::{AllocError, Global};
use undo_records::{ForcingRow, Side, Undo};

/// Whether a side is finite, and is an activity.
fn is_reached(side: &Ext, activity: &Ext) -> bool
    ensures { result ≡ side_is_reached side.now activity.now }
{
    match side.number() {
        None => false,
        Some(end) => match activity.number() {
            None => false,
            Some(value) => end.is_same(&value),
        },
    }
}

/// Whether a row's greatest activity has room, and is a lower side. It is not made where there is no such side.
#[tactic(auto, using(crate::proofs::Looks::none_reached))]
fn greatest_reaches(problem: &Problem, row: u32, lower: &Ext) -> bool
    requires { (row_at problem.now row).live ≡ true }
    ensures { result ≡ on_one (λ v. side_is_reached lower.now v) (activity Greatest (spans_of problem.now row)) }
{
    if lower.is_none() {
        return false;
    }
    match greatest(problem, row, None) {
        Ok(value) => is_reached(lower, &value),
        Err(_) => false,
    }
}

/// Whether a row's least activity has room, and is an upper side. It is not made where there is no such side.
#[tactic(auto, using(crate::proofs::Looks::none_reached))]
fn least_reaches(problem: &Problem, row: u32, upper: &Ext) -> bool
    requires { (row_at problem.now row).live ≡ true }
    ensures { result ≡ on_one (λ v. side_is_reached upper.now v) (activity Least (spans_of problem.now row)) }
{
    if upper.is_none() {
        return false;
    }
    match least(problem, row, None) {
        Ok(value) => is_reached(upper, &value),
        Err(_) => false,
    }
}

/// Whether the greatest activity of a row is its lower side, or the least its upper side, and neither is past.
#[tactic(auto, using(crate::proofs::Looks::either_last))]
fn only_reaches(problem: &Problem, row: u32) -> bool
    requires { (row_at problem.now row).live ≡ true }
    ensures { result ≡ on_activities (λ least greatest. side_is_reached (sides_at problem.now row).lower greatest || side_is_reached (sides_at problem.now row).upper least) (spans_of problem.now row) }
{
    let sides = problem.sides(row);
    (greatest_reaches(problem, row, &sides.lower) && least(problem, row, None).is_ok())
        || (least_reaches(problem, row, &sides.upper) && greatest(problem, row, None).is_ok())
}

/// Whether no live column that terms name is semi-continuous.
fn are_solid(problem: &Problem, terms: &[Term]) -> bool
    ensures { result ≡ all_solid (spans_among problem.now terms.now) }
{
    let mut rest = terms;
    while let [term, after @ ..] = rest {
        if problem.is_column_live(term.id) && problem.bounds(term.id).semi {
            return false;
        }
        rest = after;
    }
    true
}

/// Whether no column of a row is semi-continuous.
fn is_solid(problem: &Problem, row: u32) -> bool
    requires { (row_at problem.now row).live ≡ true }
    ensures { result ≡ all_solid (spans_of problem.now row) }
{
    let line = problem.row_line(row);
    are_solid(problem, line.entries.as_slice())
}

/// Whether a row has an entry, none of its columns is semi-continuous, nothing of it is crossed, and it only just reaches one of its sides.
#[tactic(auto, using(crate::proofs::Looks::forcing_row_is, crate::proofs::Looks::solid_last))]
pub fn is_enabled(problem: &Problem, row: u32) -> bool
    ensures { result ≡ enabled problem.now row }
{
    problem.is_row_live(row)
        && has_entries(problem, row)
        && only_reaches(problem, row)
        && is_solid(problem, row)
        && is_uncrossed(problem, row)
}

/// Whether neither activity of a row is past, and the greatest is its lower side.
fn reaches_lower(problem: &Problem, row: u32) -> bool
    requires { (row_at problem.now row).live ≡ true }
    ensures { result ≡ at_lower problem.now row }
{
    let sides = problem.sides(row);
    let Ok(greatest) = greatest(problem, row, None) else {
        return false;
    };
    least(problem, row, None).is_ok() && is_reached(&sides.lower, &greatest)
}

/// The end at which a column gives the row the least, or the most.
fn end_of(extreme: Extreme, span: &Span) -> Ext
    ensures { result ≡ end_with extreme span.now }
{
    let (below, above) = match extreme {
        Extreme::Least => (span.lower, span.upper),
        Extreme::Greatest => (span.upper, span.lower),
    };
    if span.value.is_positive() {
        below
    } else {
        above
    }
}

/// Fixes a column at that end.
fn fixed_at_end(extreme: Extreme, span: &Span) -> Edit
    ensures { result ≡ fixed_with extreme span.now }
{
    let end = end_of(extreme, span);
    Edit::SetBounds {
        column: span.id,
        lower: end,
        upper: end,
    }
}

/// Fixes the columns of a row, in order.
fn all_fixed(alloc: Global, extreme: Extreme, spans: &[Span]) -> Result<Vec<Edit>, AllocError>
    ensures { IfOk result (λ edits. edits.items ≡ map (fixed_with extreme) spans.now) }
{
    let mut edits = Vec::with_capacity(alloc, spans.len())?;
    let mut rest = spans;
    while let [span, after @ ..] = rest {
        edits.push(fixed_at_end(extreme, span))?;
        rest = after;
    }
    Ok(edits)
}

/// Fixes the columns of a row, and deletes it.
fn fixed_and_deleted(
    alloc: Global,
    problem: &Problem,
    row: u32,
    extreme: Extreme,
) -> Result<Vec<Edit>, AllocError>
    ensures { IfOk result (λ all. all.items ≡ edits_by extreme problem.now row) }
{
    let sums = RowSums::of_row(alloc, problem, row)?;
    let mut edits = all_fixed(alloc, extreme, sums.spans())?;
    edits.push(Edit::DeleteRow { row })?;
    Ok(edits)
}

/// The record of a side.
fn record_at(alloc: Global, problem: &Problem, row: u32, side: Side) -> Result<Undo, AllocError>
    ensures { IfOk result (λ undo. undo ≡ record_by side problem.now row) }
{
    let entries = problem.row_terms(alloc, row)?;
    Ok(Undo::ForcingRow(ForcingRow { row, side, entries }))
}

/// The change: the columns, in the row's order, and then the row.
#[tactic(auto, using(crate::proofs::Looks::forcing_row_is))]
pub fn change(alloc: Global, problem: &Problem, row: u32) -> Result<Change, Refusal>
    requires { enabled problem.now row ≡ true }
    ensures { Changes (Computes problem.now row) (edits problem.now row) (record_of problem.now row) result }
{
    let (side, extreme) = if reaches_lower(problem, row) {
        (Side::Lower, Extreme::Greatest)
    } else {
        (Side::Upper, Extreme::Least)
    };
    let edits = fixed_and_deleted(alloc, problem, row, extreme)?;
    Ok(Change {
        edits,
        undo: record_at(alloc, problem, row, side)?,
    })
}
