//! Commits.

ghost use Rattle.std.specs.Prelude.{◌≡◌, OnErr, OnOk};
ghost use Rattle.problem_model.specs.Allowed.{AreAllowed, EntriesFirst};
ghost use Rattle.problem_model.specs.Noted.{AreNoted};
ghost use Rattle.problem_model.specs.Offsets.{OffsetFits};
ghost use Rattle.problem_model.specs.Raised.{committed};

use crate::entries::apply;
use crate::notes::note_all;
use crate::raises::{raise_all, tell};
use problem_model::{Edit, Part};
use sparse_problem::Problem;
use std::alloc::{AllocError, Global};

/// Makes edits, one after the other, and raises the number of each part that holds something else then by one. These parts are told behind
/// those that were told before. It takes time and memory for what the edits touch, and looks at nothing else.
///
/// # Errors
/// Memory ran out. The problem, and what was told, is as it was.
pub fn commit(
    problem: &mut Problem,
    alloc: Global,
    edits: &[Edit],
    changed: &mut Vec<Part>,
) -> Result<(), AllocError>
    requires allowed { AreAllowed problem.old edits.now }
    requires fits { OffsetFits problem.old.offset edits.now }
    requires first { EntriesFirst edits.now }
    ensures ok { OnOk result (problem.new ≡ committed problem.old edits.now) }
    ensures noted { OnOk result (AreNoted problem.old problem.new changed.old.items changed.new.items) }
    ensures err { OnErr result ((problem.new ≡ problem.old) × (changed.new.items ≡ changed.old.items)) }
{
    problem.is_sparse();
    let notes = note_all(alloc, problem, edits)?;
    changed.reserve(notes.len())?;
    apply(problem, alloc, edits)?;
    raise_all(problem, notes.as_slice());
    tell(problem, notes.as_slice(), changed);
    Ok(())
}
