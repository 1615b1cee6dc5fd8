//! Presolve of a program by workers.

ghost use Rattle.std.specs.Prelude.{◌<◌, ◌^◌, length, IfOk};
ghost use Rattle.std.specs.Thread.{IsSync};
ghost use Rattle.lp_model.specs.Writable.{EntriesAscend, Writable};
ghost use Rattle.presolve_model.specs.Workers.{IsInOrder};
ghost use Rattle.threaded_passes.specs.Conclusions.{Concludes};

use crate::run::run_racing;
use lp_model::Program;
use presolve_model::{Options, Workers};
use std::alloc::{AllocError, Global};
use std::sync::Wait;
use std::thread::Threads;
use threaded_passes::presolve as presolve_in_order;
use threaded_passes::presolve_rounds::{Onlooker, Presolved, conclude, opened, source_of};
use worker_gate::Gate;

/// Reduces a program by workers that race.
fn presolve_racing<R: Threads + Wait + Sync, G: Gate, O: Onlooker>(
    rt: &R,
    alloc: Global,
    program: Program,
    options: &Options,
    workers: &Workers,
    gate: &G,
    onlooker: &mut O,
) -> Result<Presolved, AllocError>
    requires able { IsSync R.row }
    requires few_rows { length program.rows < 2 ^ 32 }
    requires few_columns { length program.columns < 2 ^ 32 }
    requires ascends { EntriesAscend program }
    requires writable { Writable options.now.numbers program }
    requires racing { IsInOrder workers.now → ⊥ }
    ensures { IfOk result (λ made. Concludes options.now workers.now program made) }
{
    let book = opened(alloc, &program, options)?;
    let source = source_of(alloc, program);
    let run = run_racing(rt, alloc, book, gate, workers.threads(), onlooker);
    onlooker.after_run();
    let (left, end) = run?;
    conclude(alloc, source, options, workers, left, end)
}

/// Reduces a program by the rules that there are, until it is decided, or no rule is left that could be applied, or the limit is reached. Where
/// there are several workers and no order is asked for, they race: each scans frozen versions and commits under the lock of the book. Else the
/// rounds are gone over in order. The onlooker is told on the way, and behind the last round.
///
/// # Errors
/// For want of memory.
pub fn presolve<R: Threads + Wait + Sync, G: Gate, O: Onlooker>(
    rt: &R,
    alloc: Global,
    program: Program,
    options: &Options,
    workers: &Workers,
    gate: &G,
    onlooker: &mut O,
) -> Result<Presolved, AllocError>
    requires few_rows { length program.rows < 2 ^ 32 }
    requires few_columns { length program.columns < 2 ^ 32 }
    requires ascends { EntriesAscend program }
    requires writable { Writable options.now.numbers program }
    ensures { IfOk result (λ made. Concludes options.now workers.now program made) }
{
    if workers.is_in_order() {
        presolve_in_order(rt, alloc, program, options, workers, onlooker)
    } else {
        presolve_racing(rt, alloc, program, options, workers, gate, onlooker)
    }
}
