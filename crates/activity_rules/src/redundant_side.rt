//! K6: of two finite sides of a row the one that its columns' bounds keep becomes infinite, where they keep one alone.

ghost use Rattle.std.specs.Prelude.{◌≡◌, ◌&&◌, not, true, is_none};
ghost use Rattle.problem_model.specs.Problems.{row_at, sides_at};
ghost use Rattle.rule_words.specs.Answers.{Changes};
ghost use Rattle.row_spans.specs.Spans.{spans_of};
ghost use Rattle.activity_laws.specs.Rows.{keeps_lower as lower_kept, keeps_upper as upper_kept, on_activities};
ghost use Rattle.activity_laws.specs.RedundantSide.{differ, enabled, edits, lower_is_kept, record_of, side_dropped, Computes};

use activities::rows::{has_entries, is_uncrossed, keeps_lower, keeps_upper};
use activities::{greatest, least};
use fractions::ext::Ext;
use problem_model::{Edit, Refusal};
use rule_words::Change;
use sparse_problem::Problem;
use std::alloc::{AllocError, Global};
use undo_records::{RowRecord, Undo};

/// Whether both sides of a row are finite.
fn has_both_sides(problem: &Problem, row: u32) -> bool
    requires { (row_at problem.now row).live ≡ true }
    ensures { result ≡ (not (is_none (sides_at problem.now row).lower) && not (is_none (sides_at problem.now row).upper)) }
{
    let sides = problem.sides(row);
    !sides.lower.is_none() && !sides.upper.is_none()
}

/// Whether a row's activities keep just one of its sides.
fn keeps_one_side(problem: &Problem, row: u32) -> bool
    requires { (row_at problem.now row).live ≡ true }
    ensures { result ≡ on_activities (λ least greatest. differ (lower_kept (sides_at problem.now row).lower least) (upper_kept (sides_at problem.now row).upper greatest)) (spans_of problem.now row) }
{
    let sides = problem.sides(row);
    let Ok(least) = least(problem, row, None) else {
        return false;
    };
    let Ok(greatest) = greatest(problem, row, None) else {
        return false;
    };
    if keeps_lower(&sides.lower, &least) {
        !keeps_upper(&sides.upper, &greatest)
    } else {
        keeps_upper(&sides.upper, &greatest)
    }
}

/// Whether a row has an entry and two finite sides, nothing of it is crossed, and its columns' bounds keep just one of the sides.
#[tactic(auto, using(crate::proofs::Looks::redundant_side_is))]
pub fn is_enabled(problem: &Problem, row: u32) -> bool
    ensures { result ≡ enabled problem.now row }
{
    problem.is_row_live(row)
        && has_entries(problem, row)
        && has_both_sides(problem, row)
        && keeps_one_side(problem, row)
        && is_uncrossed(problem, row)
}

/// Whether neither activity of a row is past, and the least keeps its lower side.
fn drops_lower(problem: &Problem, row: u32) -> bool
    requires { (row_at problem.now row).live ≡ true }
    ensures { result ≡ lower_is_kept (sides_at problem.now row).lower (spans_of problem.now row) }
{
    let sides = problem.sides(row);
    let Ok(least) = least(problem, row, None) else {
        return false;
    };
    greatest(problem, row, None).is_ok() && keeps_lower(&sides.lower, &least)
}

/// The sides of a row without the one that its columns' bounds keep.
fn fewer_sides(problem: &Problem, row: u32) -> Edit
    requires { (row_at problem.now row).live ≡ true }
    ensures { result ≡ side_dropped (lower_is_kept (sides_at problem.now row).lower (spans_of problem.now row)) row (sides_at problem.now row).lower (sides_at problem.now row).upper }
{
    let sides = problem.sides(row);
    if drops_lower(problem, row) {
        Edit::SetSides {
            row,
            lower: Ext::none(),
            upper: sides.upper,
        }
    } else {
        Edit::SetSides {
            row,
            lower: sides.lower,
            upper: Ext::none(),
        }
    }
}

/// The change: the side that is kept goes.
#[tactic(auto, using(crate::proofs::Looks::redundant_side_is))]
pub fn change(alloc: Global, problem: &Problem, row: u32) -> Result<Change, Refusal>
    requires { enabled problem.now row ≡ true }
    ensures { Changes (Computes problem.now row) (edits problem.now row) (record_of problem.now row) result }
{
    let mut edits = Vec::with_capacity(alloc, 1)?;
    edits
        .push(fewer_sides(problem, row))
        .map_err(AllocError::from)?;
    Ok(Change {
        edits,
        undo: Undo::RedundantSide(RowRecord { row }),
    })
}
