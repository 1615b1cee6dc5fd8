//! Presolve of a program by some threads.

ghost use Rattle.std.specs.Prelude.{◌<◌, ◌^◌, length, IfOk};
ghost use Rattle.lp_model.specs.Writable.{EntriesAscend, Writable};
ghost use Rattle.presolve_rounds.specs.Conclusions.{Concludes};

use crate::by_threads::ByThreads;
use lp_model::Program;
use presolve_model::{Options, Workers};
use presolve_rounds::{InTurn, Onlooker, Presolved, presolve_by};
use std::alloc::{AllocError, Global};
use std::thread::Threads;

/// Reduces a program by the rules that there are, until it is decided, or no rule is left that could be applied, or the limit is reached. One
/// worker looks at the instances of a round in their turn; where there are more, their threads test the instances of a round, and one of them
/// goes over what was found. The onlooker is told after each round, and behind the last.
///
/// # Errors
/// For want of memory.
pub fn presolve<R: Threads + Sync, O: Onlooker>(
    rt: &R,
    alloc: Global,
    program: Program,
    options: &Options,
    workers: &Workers,
    onlooker: &mut O,
) -> Result<Presolved, AllocError>
    requires few_rows { length program.rows < 2 ^ 32 }
    requires few_columns { length program.columns < 2 ^ 32 }
    requires ascends { EntriesAscend program }
    requires writable { Writable options.now.numbers program }
    ensures { IfOk result (λ made. Concludes options.now workers.now program made) }
{
    let threads = workers.threads();
    if threads == 1 {
        presolve_by(alloc, &InTurn, program, options, workers, onlooker)
    } else {
        let passes = ByThreads::new(rt, threads);
        presolve_by(alloc, &passes, program, options, workers, onlooker)
    }
}
