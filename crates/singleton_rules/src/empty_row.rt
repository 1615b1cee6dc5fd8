//! K1: a row without entries is deleted.

ghost use Rattle.std.specs.Prelude.{◌≡◌, true};
ghost use Rattle.rule_words.specs.Answers.{Changes};
ghost use Rattle.singleton_laws.specs.EmptyRow.{enabled, edits, record_of, Computes};

use lp_model::ends::holds_zero;
use problem_model::{Edit, Refusal};
use rule_words::Change;
use sparse_problem::Problem;
use std::alloc::{AllocError, Global};
use undo_records::{RowRecord, Undo};

/// Whether a row has no entries, and sides that hold 0.
pub fn is_enabled(problem: &Problem, row: u32) -> bool
    ensures { result ≡ enabled problem.now row }
{
    if !problem.is_row_live(row) || problem.live_row_entries(row) != 0 {
        return false;
    }
    let sides = problem.sides(row);
    holds_zero(&sides.lower, &sides.upper)
}

/// The change: the row goes.
pub fn change(alloc: Global, problem: &Problem, row: u32) -> Result<Change, Refusal>
    requires { enabled problem.now row ≡ true }
    ensures { Changes (Computes problem.now row) (edits problem.now row) (record_of problem.now row) result }
{
    let _ = problem;
    let mut edits = Vec::with_capacity(alloc, 1)?;
    edits
        .push(Edit::DeleteRow { row })
        .map_err(AllocError::from)?;
    Ok(Change {
        edits,
        undo: Undo::EmptyRow(RowRecord { row }),
    })
}
