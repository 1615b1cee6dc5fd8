//! Workers.

ghost use Rattle.std.specs.Prelude.{◌≡◌, ◌<◌, All, IfOk, length};
ghost use Rattle.shared_book.specs.History.{HasFrozen};
ghost use Rattle.presolve_model.specs.Ledger.{Stands};
ghost use Rattle.book_turns.specs.Turns.{IsPass};
ghost use Rattle.worker_tasks.specs.Tasks.{HoldsChunk};
ghost use Rattle.worker_rounds.specs.Workers.{HasFound, MayBegin};

use instances::Version;
use shared_book::{Pass, SharedBook};
use std::alloc::{AllocError, Global};
use std::sync::Wait;
use std::thread;
use std::thread::Threads;
use txn_book::Book;
use worker_gate::{Gate, Tickets};
use worker_tasks::{Task, Work, do_task};

/// A worker: its pass, and what it has done in the round.
pub type Worker = (Pass<Book>, Work);

/// So many workers, numbered from 0, each with a pass of its own that is cut from this one.
///
/// # Errors
/// Memory ran out.
pub fn hire(
    alloc: Global,
    book: &SharedBook<Book>,
    version: &Version,
    main: &mut Pass<Book>,
    count: u32,
) -> Result<Vec<Worker>, AllocError>
    requires some { 0 < count }
    requires pass { IsPass book.now main.old }
    requires frozen { HasFrozen main.old version.now }
    ensures same { main.new ≡ main.old }
    ensures some { IfOk result (λ workers. 0 < length workers.items) }
    ensures ready { IfOk result (λ workers. All (MayBegin book.now version.now) workers.items) }
{
    let _ = version;
    let mut workers = Vec::new(alloc);
    for number in 0..count {
        let pass = book.split(main, number);
        workers.push((pass, Work::new(alloc)))?;
    }
    Ok(workers)
}

/// A worker does the task of this number, and notes that it is done. Gives how many proposals were answered.
fn do_numbered<R: Wait>(
    rt: &R,
    alloc: Global,
    book: &SharedBook<Book>,
    version: &Version,
    tasks: &[Task],
    number: u64,
    worker: &mut Worker,
) -> Result<u64, AllocError>
    requires stands { Stands book.now.start }
    requires hold { All (HoldsChunk version.now) tasks.now }
    requires inside { number < length tasks.now }
    requires pass { IsPass book.now worker.old.0 }
    requires frozen { HasFrozen worker.old.0 version.now }
    requires found { HasFound version.now tasks.now worker.old.1 }
    ensures pass { IsPass book.now worker.new.0 }
    ensures frozen { HasFrozen worker.new.0 version.now }
    ensures found { HasFound version.now tasks.now worker.new.1 }
{
    let (pass, work) = worker;
    let task = &tasks[number as usize];
    let answered = do_task(rt, alloc, book, pass, version, task, work)?;
    work.finish(number)?;
    Ok(answered)
}

/// A worker draws tasks and does them, until none is left, the book takes no more, or memory runs out.
pub fn do_tasks<R: Wait, G: Gate>(
    rt: &R,
    alloc: Global,
    book: &SharedBook<Book>,
    version: &Version,
    gate: &G,
    tickets: &Tickets,
    tasks: &[Task],
    worker: &mut Worker,
)
    requires stands { Stands book.now.start }
    requires hold { All (HoldsChunk version.now) tasks.now }
    requires pass { IsPass book.now worker.old.0 }
    requires frozen { HasFrozen worker.old.0 version.now }
    requires found { HasFound version.now tasks.now worker.old.1 }
    ensures { HasFound version.now tasks.now worker.new.1 }
{
    let name = worker.0.number();
    for _ in 0..tasks.len() {
        let number = tickets.draw();
        if number >= tasks.len() as u64 {
            return;
        }
        gate.at_task(name, number);
        match do_numbered(rt, alloc, book, version, tasks, number, worker) {
            Ok(answered) => gate.at_answer(name, number, answered),
            Err(AllocError) => {
                worker.1.fail();
                tickets.end();
                return;
            }
        }
        if worker.1.is_over() {
            tickets.end();
        }
    }
}

/// Lets workers do the tasks of a round, each in a thread of its own.
fn let_work<R: Threads + Wait + Sync, G: Gate>(
    rt: &R,
    alloc: Global,
    book: &SharedBook<Book>,
    version: &Version,
    gate: &G,
    tasks: &[Task],
    workers: &mut [Worker],
)
    requires stands { Stands book.now.start }
    requires hold { All (HoldsChunk version.now) tasks.now }
    requires some { 0 < length workers.old }
    requires ready { All (MayBegin book.now version.now) workers.old }
    ensures long { length workers.new ≡ length workers.old }
    ensures found { All (λ worker. HasFound version.now tasks.now worker.1) workers.new }
{
    let tickets = Tickets::new();
    let threads = workers.len();
    thread::for_each_mut(
        rt,
        workers,
        threads,
        &|_, worker: &mut Worker|
            requires stands { Stands book.now.start }
            requires hold { All (HoldsChunk version.now) tasks.now }
            requires pass { IsPass book.now worker.old.0 }
            requires frozen { HasFrozen worker.old.0 version.now }
            requires found { HasFound version.now tasks.now worker.old.1 }
            ensures { HasFound version.entry.now tasks.entry.now worker.new.1 }
        { do_tasks(rt, alloc, book, version, gate, &tickets, tasks, worker) },
    );
}

/// So many workers, with passes that are cut from this one, after they have done the tasks of a round on a version that it froze.
///
/// # Errors
/// Memory ran out.
pub fn worked<R: Threads + Wait + Sync, G: Gate>(
    rt: &R,
    alloc: Global,
    book: &SharedBook<Book>,
    main: &mut Pass<Book>,
    gate: &G,
    count: u32,
    version: &Version,
    tasks: &[Task],
) -> Result<Vec<Worker>, AllocError>
    requires stands { Stands book.now.start }
    requires hold { All (HoldsChunk version.now) tasks.now }
    requires some { 0 < count }
    requires pass { IsPass book.now main.old }
    requires frozen { HasFrozen main.old version.now }
    ensures same { main.new ≡ main.old }
    ensures found { IfOk result (λ workers. All (λ worker. HasFound version.now tasks.now worker.1) workers.items) }
{
    let mut workers = hire(alloc, book, version, main, count)?;
    let_work(
        rt,
        alloc,
        book,
        version,
        gate,
        tasks,
        workers.as_mut_slice(),
    );
    Ok(workers)
}

/// Whether memory ran out for one of them.
pub fn has_failed(workers: &[Worker]) -> bool {
    for worker in workers {
        if worker.1.has_failed() {
            return true;
        }
    }
    false
}

/// Whether the book took no more from one of them.
pub fn is_over(workers: &[Worker]) -> bool {
    for worker in workers {
        if worker.1.is_over() {
            return true;
        }
    }
    false
}
