//! What a transaction tells of what was read.

ghost use Rattle.std.specs.Prelude.{◌≡◌, ◌↔◌, IfOk, IsTrue, map};
ghost use Rattle.presolve_model.specs.Transactions.{numbered};
ghost use Rattle.walk_laws.specs.Walk.{IsReadingOf};

use presolve_model::{Instance, Part, Reduction};
use rule_table::parts_read;
use sparse_problem::Problem;
use std::alloc::{AllocError, Global};
use undo_records::PartRead;

/// Whether these parts are told, in order, each with how often it has changed.
fn tell_parts(problem: &Problem, reads: &[PartRead], parts: &[Part]) -> bool
    ensures { IsTrue result ↔ (reads.now ≡ map (numbered problem.now) parts.now) }
{
    let mut rest = reads;
    let mut left = parts;
    while let [read, after @ ..] = rest {
        let [part, more @ ..] = left else {
            return false;
        };
        if read.part != *part || read.changes != problem.changes(*part) {
            return false;
        }
        rest = after;
        left = more;
    }
    left.is_empty()
}

/// Whether the parts told are those that a reduction reads, with the present numbers, or none are told.
///
/// # Errors
/// Memory ran out.
pub fn is_reading_of(
    alloc: Global,
    problem: &Problem,
    reduction: Reduction,
    reads: &[PartRead],
) -> Result<bool, AllocError>
    ensures { IfOk result (λ said. IsTrue said ↔ IsReadingOf problem.now reduction reads.now) }
{
    if reads.is_empty() {
        return Ok(true);
    }
    let parts = parts_read(alloc, problem, Instance::Reduction(reduction))?;
    Ok(tell_parts(problem, reads, parts.as_slice()))
}
