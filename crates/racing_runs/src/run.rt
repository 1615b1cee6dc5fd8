//! A run of workers.

ghost use Rattle.std.specs.Prelude.{◌≡◌, ◌<◌, ◌≤◌, ℕ, IfOk, IfSome, None};
ghost use Rattle.std.specs.Thread.{IsSync};
ghost use Rattle.undo_records.specs.declared.side.Side.{Side};
ghost use Rattle.presolve_model.specs.Tallies.{tightenings};
ghost use Rattle.round_laws.specs.Passing.{IsSameBook};
ghost use Rattle.threaded_passes.specs.Running.{EndsWith};

use presolve_model::End;
use std::alloc::{AllocError, Global};
use std::sync::Wait;
use std::thread::Threads;
use threaded_passes::ByThreads;
use threaded_passes::presolve_rounds::txn_book::Book;
use threaded_passes::presolve_rounds::{Onlooker, Swept, run_by, run_from, sweep};
use worker_gate::Gate;
use worker_rounds::{RaceEnd, race};

/// Rounds of workers, until nothing can be applied, a verdict was, or the limit is reached. Where a race has ended, one thread sweeps over
/// everything; if that applies something, workers race again. Once their rounds are small, the run goes on in order where the small one would
/// look. Gives the book that is left, and how the run ended: none where the book is decided.
///
/// # Errors
/// Memory ran out. The book is dropped.
pub fn run_racing<R: Threads + Wait + Sync, G: Gate, O: Onlooker>(
    rt: &R,
    alloc: Global,
    book: Book,
    gate: &G,
    threads: u32,
    onlooker: &mut O,
) -> Result<(Book, Option<End>), AllocError>
    requires able { IsSync R.row }
    requires some { 0 < threads }
    requires undecided { book.verdict ≡ None }
    requires few { (j : ℕ) (side : Side) → tightenings book.records j side ≤ 10 }
    ensures book { IfOk result (λ left. IsSameBook book left.0) }
    ensures end { IfOk result (λ left. EndsWith left.1 left.0) }
    ensures few { IfOk result (λ left. IfSome left.1 (λ _. (j : ℕ) (side : Side) → tightenings left.0.records j side ≤ 10)) }
{
    let passes = ByThreads::new(rt, threads);
    let limit = book.limit();
    let mut present = book;
    for _ in rt.forever() {
        let RaceEnd { book, small } = race(rt, alloc, present, gate, threads)?;
        present = book;
        onlooker.after_round(alloc, &present)?;
        if present.verdict().is_some() {
            return Ok((present, None));
        }
        if let Some(ids) = small {
            let end = run_from(alloc, &passes, &mut present, ids, onlooker)?;
            return Ok((present, end));
        }
        if present.applied() >= limit {
            let end = run_by(alloc, &passes, &mut present, onlooker)?;
            return Ok((present, end));
        }
        match sweep(alloc, &passes, &mut present, onlooker)? {
            Swept::Ended(end) => return Ok((present, end)),
            Swept::Applied => {}
        }
    }
    unreachable!()
}
