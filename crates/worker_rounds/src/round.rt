//! A round of workers.

ghost use Rattle.std.specs.Prelude.{◌≡◌, ◌<◌, true, IfOk, OnOk};
ghost use Rattle.shared_book.specs.History.{HasFrozen};
ghost use Rattle.place_laws.specs.Choosing.{AreSorted, HasEach};
ghost use Rattle.presolve_model.specs.Ledger.{Stands};
ghost use Rattle.presolve_model.specs.Tallies.{open_on};
ghost use Rattle.book_turns.specs.Turns.{IsPass};
ghost use Rattle.worker_rounds.specs.Marking.{AreAllLeft};

use crate::done::is_all_done;
use crate::marks::leave_found;
use crate::workers::{has_failed, is_over, worked};
use instances::Version;
use round_marks::around::Around;
use round_marks::watch::Watch;
use round_tasks::tasks_of;
use shared_book::{Pass, SharedBook};
use std::alloc::{AllocError, Global};
use std::sync::Wait;
use std::thread::Threads;
use txn_book::Book;
use worker_gate::Gate;

/// Whether all tasks were done, none was left out, and the book takes more.
fn is_all(is_done: bool, is_whole: bool, is_over: bool) -> bool
    ensures { result ≡ true → (is_done ≡ true) × (is_whole ≡ true) }
{
    is_done && is_whole && !is_over
}

/// A round: workers do its tasks, on a version that this pass froze, at these rows and columns. A part of each instance that they found is
/// marked. Gives whether these are all that were enabled and open, and the book takes more.
///
/// # Errors
/// Memory ran out.
pub fn round<R: Threads + Wait + Sync, G: Gate>(
    rt: &R,
    alloc: Global,
    book: &SharedBook<Book>,
    main: &mut Pass<Book>,
    gate: &G,
    threads: u32,
    version: &Version,
    ids: &Around,
    watch: &mut Watch,
) -> Result<bool, AllocError>
    requires stands { Stands book.now.start }
    requires some { 0 < threads }
    requires pass { IsPass book.now main.old }
    requires frozen { HasFrozen main.old version.now }
    requires sorted { AreSorted ids.now }
    requires each { HasEach (open_on version.now.tally) version.now.problem ids.now }
    ensures same { main.new ≡ main.old }
    ensures forms { OnOk result (watch.new.forms ≡ watch.old.forms) }
    ensures asleep { OnOk result (watch.new.marks.asleep ≡ watch.old.marks.asleep) }
    ensures left { IfOk result (λ all. all ≡ true → AreAllLeft version.now watch.new.marks) }
{
    let tasks = tasks_of(alloc, version, ids)?;
    let workers = worked(rt, alloc, book, main, gate, threads, version, tasks.tasks())?;
    if has_failed(workers.as_slice()) {
        return Err(AllocError);
    }
    leave_found(watch, workers.as_slice())?;
    let is_done = is_all_done(alloc, tasks.tasks().len(), workers.as_slice())?;
    let is_over = is_over(workers.as_slice());
    Ok(is_all(is_done, tasks.is_whole(), is_over))
}
