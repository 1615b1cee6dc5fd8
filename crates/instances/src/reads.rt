//! What instances read.

ghost use Rattle.std.specs.Prelude.{◌≡◌, true, map, IfOk, IfSome};
ghost use Rattle.problem_model.specs.Reading.{read_of};
ghost use Rattle.problem_model.specs.Sparse.{Sparse};
ghost use Rattle.presolve_model.specs.Enabled.{reading_of};
ghost use Rattle.presolve_model.specs.Transactions.{numbered, numbers_read};

use crate::reading::Reading;
use presolve_model::{Instance, Reduction};
use problem_commits::read;
use problem_model::{Part, Read};
use rule_table::parts_read;
use sparse_problem::Problem;
use std::alloc::{AllocError, Global};
use undo_records::PartRead;

/// Parts as they stand.
fn read_all(alloc: Global, problem: &Problem, parts: &[Part]) -> Result<Vec<Read>, AllocError>
    ensures { IfOk result (λ reads. reads.items ≡ map (read_of problem.now) parts.now) }
{
    let mut reads = Vec::with_capacity(alloc, parts.len())?;
    for part in parts {
        reads.push(read(alloc, problem, *part)?)?;
    }
    Ok(reads)
}

/// Parts, each with how often it has changed.
fn number_all(alloc: Global, problem: &Problem, parts: &[Part]) -> Result<Vec<PartRead>, AllocError>
    ensures { IfOk result (λ reads. reads.items ≡ map (numbered problem.now) parts.now) }
{
    let mut reads = Vec::with_capacity(alloc, parts.len())?;
    for part in parts {
        reads.push(PartRead {
            part: *part,
            changes: problem.changes(*part),
        })?;
    }
    Ok(reads)
}

/// The parts that an instance reads, in their order, each with how often it has changed.
///
/// # Errors
/// Memory ran out.
pub fn numbers_for(
    alloc: Global,
    problem: &Problem,
    instance: Instance,
) -> Result<Vec<PartRead>, AllocError>
    ensures { IfOk result (λ reads. reads.items ≡ numbers_read problem.now instance) }
{
    let parts = parts_read(alloc, problem, instance)?;
    number_all(alloc, problem, parts.as_slice())
}

/// What an instance reads.
pub fn reading_for(
    alloc: Global,
    problem: &Problem,
    instance: Instance,
) -> Result<Reading, AllocError>
    ensures { IfOk result (λ reading. reading ≡ reading_of problem.now instance) }
{
    let parts = parts_read(alloc, problem, instance)?;
    let reads = read_all(alloc, problem, parts.as_slice())?;
    let reading = Reading::of(alloc, reads)?;
    Ok(reading)
}

/// Whether two instances read the same: they tighten bounds, or entries, of one row.
fn read_alike(one: Instance, other: Instance) -> bool
    ensures { result ≡ true → (p : Sparse) → reading_of p one ≡ reading_of p other }
{
    match (one, other) {
        (
            Instance::Reduction(Reduction::BoundTightening { row, .. }),
            Instance::Reduction(Reduction::BoundTightening { row: beside, .. }),
        ) => row == beside,
        (
            Instance::Reduction(Reduction::CoefficientTightening { row, .. }),
            Instance::Reduction(Reduction::CoefficientTightening { row: beside, .. }),
        ) => row == beside,
        _ => false,
    }
}

/// The reading of the last instance that was read, if another one reads the same.
fn shared_reading(last: &Option<(Instance, Reading)>, instance: Instance) -> Option<Reading>
    ensures { (p : Sparse) → IfSome last.now (λ l. l.1 ≡ reading_of p l.0) → IfSome result (λ reading. reading ≡ reading_of p instance) }
{
    match last {
        Some((other, reading)) if read_alike(*other, instance) => reading.share(),
        _ => None,
    }
}

/// What an instance reads. Where the last one that was read reads the same, the two have one reading.
///
/// # Errors
/// Memory ran out.
pub fn reading_beside(
    alloc: Global,
    problem: &Problem,
    last: &Option<(Instance, Reading)>,
    instance: Instance,
) -> Result<Reading, AllocError>
    requires { IfSome last.now (λ l. l.1 ≡ reading_of problem.now l.0) }
    ensures { IfOk result (λ reading. reading ≡ reading_of problem.now instance) }
{
    match shared_reading(last, instance) {
        Some(reading) => Ok(reading),
        None => reading_for(alloc, problem, instance),
    }
}
