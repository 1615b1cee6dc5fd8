//! K5: a row whose sides its columns' bounds keep is deleted.

ghost use Rattle.std.specs.Prelude.{◌≡◌, ◌&&◌, true};
ghost use Rattle.problem_model.specs.Problems.{row_at, sides_at};
ghost use Rattle.rule_words.specs.Answers.{Changes};
ghost use Rattle.row_spans.specs.Spans.{spans_of};
ghost use Rattle.row_spans.specs.declared.span.Extreme.TheVariants.{Greatest, Least};
ghost use Rattle.row_spans.specs.RowSums.{activity};
ghost use Rattle.activity_rules.specs.Looks.{on_one};
ghost use Rattle.activity_laws.specs.Rows.{keeps_lower as lower_is_kept, keeps_upper as upper_is_kept, on_activities};
ghost use Rattle.activity_laws.specs.RedundantRow.{enabled, edits, record_of, Computes};

use activities::rows::{has_entries, is_uncrossed, keeps_lower, keeps_upper};
use activities::{greatest, least};
use fractions::ext::Ext;
use problem_model::{Edit, Refusal};
use rule_words::Change;
use sparse_problem::Problem;
use std::alloc::{AllocError, Global};
use undo_records::{RowRecord, Undo};

/// Whether a row's least activity has room, and keeps a lower side.
fn keeps_below(problem: &Problem, row: u32, lower: &Ext) -> bool
    requires { (row_at problem.now row).live ≡ true }
    ensures { result ≡ on_one (λ v. lower_is_kept lower.now v) (activity Least (spans_of problem.now row)) }
{
    match least(problem, row, None) {
        Ok(value) => keeps_lower(lower, &value),
        Err(_) => false,
    }
}

/// Whether a row's greatest activity has room, and keeps an upper side.
fn keeps_above(problem: &Problem, row: u32, upper: &Ext) -> bool
    requires { (row_at problem.now row).live ≡ true }
    ensures { result ≡ on_one (λ v. upper_is_kept upper.now v) (activity Greatest (spans_of problem.now row)) }
{
    match greatest(problem, row, None) {
        Ok(value) => keeps_upper(upper, &value),
        Err(_) => false,
    }
}

/// Whether a row's activities keep both its sides. The one that can tell that they don't is looked at first.
#[tactic(auto, using(crate::proofs::Looks::both_first))]
fn keeps_sides(problem: &Problem, row: u32) -> bool
    requires { (row_at problem.now row).live ≡ true }
    ensures { result ≡ on_activities (λ least greatest. lower_is_kept (sides_at problem.now row).lower least && upper_is_kept (sides_at problem.now row).upper greatest) (spans_of problem.now row) }
{
    let sides = problem.sides(row);
    if sides.upper.is_none() {
        keeps_below(problem, row, &sides.lower) && keeps_above(problem, row, &sides.upper)
    } else {
        keeps_above(problem, row, &sides.upper) && keeps_below(problem, row, &sides.lower)
    }
}

/// Whether a row has an entry, nothing of it is crossed, and its columns' bounds keep both its sides.
#[tactic(auto, using(crate::proofs::Looks::redundant_row_is))]
pub fn is_enabled(problem: &Problem, row: u32) -> bool
    ensures { result ≡ enabled problem.now row }
{
    problem.is_row_live(row)
        && has_entries(problem, row)
        && keeps_sides(problem, row)
        && is_uncrossed(problem, row)
}

/// The change: the row goes.
pub fn change(alloc: Global, problem: &Problem, row: u32) -> Result<Change, Refusal>
    requires { enabled problem.now row ≡ true }
    ensures { Changes (Computes problem.now row) (edits problem.now row) (record_of problem.now row) result }
{
    let _ = problem;
    let mut edits = Vec::with_capacity(alloc, 1)?;
    edits
        .push(Edit::DeleteRow { row })
        .map_err(AllocError::from)?;
    Ok(Change {
        edits,
        undo: Undo::RedundantRow(RowRecord { row }),
    })
}
