//! What `solve` says of the same bytes, and what becomes of what it wrote.

ghost use Rattle.proved_runs.specs.Solved.{SolvedComesBack, SolvesAreOne};

use whole_way::laws::{narrow_solutions_are_wide, pairs_are_read_again};

/// A `presolve`, a `solve` of OUT and a `postsolve` of its SOL ended at status 0. Then the duals of RESULT prove its point a best one of IN's
/// program, where IN's names are plain and none is `=obj=`.
pub fn solved_solutions_come_back()
    ensures { SolvedComesBack }
{
    pairs_are_read_again();
    narrow_solutions_are_wide();
}

/// A `solve` of the same IN ends alike, prints the same, and where it wrote leaves the same SOL, where no read failed, no write, and memory did
/// not run out.
pub fn solves_are_one()
    ensures { SolvesAreOne }
{}
