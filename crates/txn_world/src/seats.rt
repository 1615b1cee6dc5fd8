//! Workers in a list, by their numbers.

ghost use Rattle.std.specs.Prelude.{◌≡◌, [], ◌∷◌, ◌++◌, drop, length, Some, IfOk, OnOk, OnErr, MatchOption};
ghost use Rattle.txn_world.specs.Workers.{IsAbsent, IsAt, Replaces, SameWorkers, worker_in};

use crate::worker::Worker;
use instances::{Proposal, Version};
use std::alloc::{AllocError, Global};

/// The place of the first worker with a number.
pub fn place_of(workers: &[Worker], number: u32) -> Option<usize>
    ensures { MatchOption result (IsAbsent workers.now number) (λ place. IsAt workers.now number place) }
{
    for place in 0..workers.len() {
        if workers[place].number() == number {
            return Some(place);
        }
    }
    None
}

/// The place of the worker with a number, who is made if there is none.
fn place_for(workers: &mut Vec<Worker>, alloc: Global, number: u32) -> Result<usize, AllocError>
    ensures same { SameWorkers workers.old.items workers.new.items }
    ensures place { IfOk result (λ place. IsAt workers.new.items number place) }
{
    if let Some(place) = place_of(workers.as_slice(), number) {
        return Ok(place);
    }
    let place = workers.len();
    workers.push(Worker::new(alloc, number))?;
    Ok(place)
}

/// A worker keeps a version in place of the one before.
pub fn keep_version(
    workers: &mut Vec<Worker>,
    alloc: Global,
    number: u32,
    version: Version,
) -> Result<(), AllocError>
    ensures ok { OnOk result (Replaces workers.old.items number (record (worker_in workers.old.items number) { frozen = Some version }) workers.new.items) }
    ensures err { OnErr result (SameWorkers workers.old.items workers.new.items) }
{
    let place = place_for(workers, alloc, number)?;
    let worker = &mut workers[place];
    worker.freeze(version);
    Ok(())
}

/// A worker's proposal is put behind its others.
pub fn add_proposal(
    workers: &mut Vec<Worker>,
    alloc: Global,
    number: u32,
    proposal: Proposal,
) -> Result<(), AllocError>
    ensures ok { OnOk result (Replaces workers.old.items number (record (worker_in workers.old.items number) { pending = (worker_in workers.old.items number).pending ++ proposal ∷ [] }) workers.new.items) }
    ensures err { OnErr result (SameWorkers workers.old.items workers.new.items) }
{
    let place = place_for(workers, alloc, number)?;
    let worker = &mut workers[place];
    worker.propose(proposal)?;
    Ok(())
}

/// The first proposal of the worker at a place is taken away.
pub fn drop_first(workers: &mut Vec<Worker>, number: u32, place: usize)
    requires { IsAt workers.old.items number place }
    ensures { Replaces workers.old.items number (record (worker_in workers.old.items number) { pending = drop 1 (worker_in workers.old.items number).pending }) workers.new.items }
{
    let worker = &mut workers[place];
    worker.take_first();
}
