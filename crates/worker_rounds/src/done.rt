//! Which tasks are done.

ghost use Rattle.std.specs.Prelude.{◌≡◌, ℕ, ◌<◌, true, slice_set, IfOk, length};
ghost use Rattle.worker_rounds.specs.Workers.{IsDone};
ghost use Rattle.worker_rounds.specs.Done.{IsSet, Sets};

use crate::workers::Worker;
use std::alloc::{AllocError, Global};

/// So many flags, none of them set.
fn flags_down(alloc: Global, count: usize) -> Result<Vec<bool>, AllocError>
    ensures long { IfOk result (λ flags. length flags.items ≡ count) }
    ensures down { IfOk result (λ flags. (i : ℕ) → IsSet flags.items i → ⊥) }
{
    let mut flags = Vec::new(alloc);
    for _ in 0..count {
        flags.push(false)?;
    }
    Ok(flags)
}

/// Sets the flag of a task, if there is one.
fn set_flag(flags: &mut [bool], number: u64)
    ensures { flags.new ≡ slice_set flags.old number true }
{
    if (number as usize) < flags.len() {
        flags[number as usize] = true;
    }
}

/// Sets the flags of the tasks that one worker finished.
fn set_done(done: &[u64], flags: &mut [bool])
    ensures { Sets done.now flags.old flags.new }
{
    for number in done {
        set_flag(flags, *number);
    }
}

/// Sets the flags of the tasks that are done.
fn set_all_done(workers: &[Worker], flags: &mut [bool])
    requires { (i : ℕ) → IsSet flags.old i → ⊥ }
    ensures long { length flags.new ≡ length flags.old }
    ensures done { (i : ℕ) → IsSet flags.new i → IsDone workers.now i }
{
    for worker in workers {
        set_done(worker.1.done(), flags);
    }
}

/// Whether all flags are set.
fn is_each_set(flags: &[bool]) -> bool
    ensures { result ≡ true → (i : ℕ) → i < length flags.now → IsSet flags.now i }
{
    for place in 0..flags.len() {
        if !flags[place] {
            return false;
        }
    }
    true
}

/// Whether each of so many tasks was finished by a worker.
///
/// # Errors
/// Memory ran out.
pub fn is_all_done(alloc: Global, count: usize, workers: &[Worker]) -> Result<bool, AllocError>
    ensures { IfOk result (λ all. all ≡ true → (i : ℕ) → i < count → IsDone workers.now i) }
{
    let mut flags = flags_down(alloc, count)?;
    set_all_done(workers, flags.as_mut_slice());
    Ok(is_each_set(flags.as_slice()))
}
