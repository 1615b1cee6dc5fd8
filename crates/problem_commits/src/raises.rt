//! Numbers of changes that rise.

ghost use Rattle.std.specs.Prelude.{◌≡◌, ◌+◌, ◌<◌, ◌≤◌, ◌++◌, ◌∷◌, [], length, map, vec_capacity};
ghost use Rattle.std.specs.List.{All, filter};
ghost use Rattle.problem_model.specs.Raised.{risen};
ghost use Rattle.problem_data.specs.Renumbered.{IsThere};
ghost use Rattle.problem_commits.specs.Noting.{all_raised, has_changed, raised_note};

use crate::notes::{Held, Note};
use crate::parts::{costs, holds};
use problem_model::Part;
use sparse_problem::Problem;

/// One change more, up to the end of the type.
fn risen(changes: u64) -> u64
    ensures { result ≡ risen changes }
{
    changes.saturating_add(1)
}

/// Whether a part holds something else than it did.
fn has_changed(problem: &Problem, note: &Note) -> bool
    ensures { result ≡ has_changed problem.now note.now }
{
    match &note.held {
        Held::Certain => true,
        Held::Whole(contents) => !holds(problem, note.part, contents),
        Held::Cost(cost) => !costs(problem, note.part, cost),
    }
}

/// Raises the number of a part that holds something else than it did.
fn raise(problem: &mut Problem, note: &Note)
    requires { IsThere problem.old note.now.part }
    ensures { problem.new ≡ raised_note problem.old note.now }
{
    if has_changed(problem, note) {
        problem.set_changes(note.part, risen(note.changes));
    }
}

/// Raises the number of each part that holds something else than it did, once.
pub fn raise_all(problem: &mut Problem, notes: &[Note])
    requires { All (λ n. IsThere problem.old n.part) notes.now }
    ensures { problem.new ≡ all_raised problem.old notes.now }
{
    for note in notes {
        raise(problem, note);
    }
}

/// Tells a part that holds something else than it did behind those that were told before, for which there is room.
fn tell_one(problem: &Problem, note: &Note, told: &mut Vec<Part>)
    requires { length told.old.items < vec_capacity told.old }
    ensures told { told.new.items ≡ told.old.items ++ map (λ n. n.part) (filter (has_changed problem.now) (note.now ∷ [])) }
    ensures room { vec_capacity told.new ≡ vec_capacity told.old }
{
    if has_changed(problem, note) {
        told.push_reserved(note.part);
    }
}

/// Tells the parts that hold something else than they did behind those that were told before, for which there is room.
pub fn tell(problem: &Problem, notes: &[Note], told: &mut Vec<Part>)
    requires { length told.old.items + length notes.now ≤ vec_capacity told.old }
    ensures { told.new.items ≡ told.old.items ++ map (λ n. n.part) (filter (has_changed problem.now) notes.now) }
{
    let mut rest = notes;
    while let [note, after @ ..] = rest {
        tell_one(problem, note, told);
        rest = after;
    }
}
