//! Sums of rows that a round needs, made by threads.

ghost use Rattle.std.specs.Prelude.{◌≡◌, ◌<◌, IfOk, IfSome};
ghost use Rattle.std.specs.List.{All};
ghost use Rattle.threaded_passes.specs.Sums.{AreSumsIn, AreSumsOrLost};

use crate::pieces::LEAST_COST;
use crate::shares::firsts_of;
use kept_sums::KeptSums;
use presolve_rounds::txn_book::Book;
use sparse_problem::Problem;
use std::alloc::{AllocError, Global};
use std::thread::Threads;
use thread_maps::map_in_threads;

/// Rows that are gone over at a time, by all threads. Their sums are held until they are put in place.
const ROWS: usize = 4096;

/// Sums of a row.
#[derive(Clone, Copy)]
pub struct RowSums {
    row: u32,
    sums: KeptSums,
}

/// The sums of a row of which none are kept, if its numbers have room.
fn missing(problem: &Problem, row: u32) -> Option<RowSums>
    ensures { IfSome result (AreSumsIn problem.now) }
{
    let sums = problem.missing_sums(row)?;
    Some(RowSums { row, sums })
}

/// The same of each row of a share: each so many-th, from the first one on.
fn missing_in(
    alloc: Global,
    problem: &Problem,
    rows: &[u32],
    first: u32,
    step: u32,
) -> Result<Vec<RowSums>, AllocError>
    requires { 0 < step }
    ensures { AreSumsOrLost problem.now result }
{
    let mut made = Vec::new(alloc);
    let mut place = first as usize;
    while place < rows.len() {
        if let Some(row) = missing(problem, rows[place]) {
            made.push(row)?;
        }
        place += step as usize;
    }
    Ok(made)
}

/// The same of each share, each in a thread of its own.
fn missing_by_threads<R: Threads + Sync>(
    rt: &R,
    alloc: Global,
    problem: &Problem,
    rows: &[u32],
    firsts: &[u32],
    step: u32,
) -> Result<Vec<Result<Vec<RowSums>, AllocError>>, AllocError>
    requires { 0 < step }
    ensures { IfOk result (λ lists. All (AreSumsOrLost problem.now) lists.items) }
{
    map_in_threads(
        rt,
        alloc,
        firsts,
        |first: &u32| -> Result<Vec<RowSums>, AllocError>
            requires { 0 < step }
            ensures { AreSumsOrLost problem.entry.now result }
        { missing_in(alloc, problem, rows, *first, step) },
    )
}

/// Keeps sums of rows of the present problem.
fn keep_each(book: &mut Book, made: &[RowSums])
    requires { All (AreSumsIn book.old.problem) made.now }
    ensures { book.new ≡ book.old }
{
    let mut rest = made;
    while let [one, after @ ..] = rest {
        book.keep(one.row, one.sums);
        rest = after;
    }
}

/// Keeps all of them, up to where memory ran out.
fn keep_all(book: &mut Book, lists: &[Result<Vec<RowSums>, AllocError>]) -> Result<(), AllocError>
    requires { All (AreSumsOrLost book.old.problem) lists.now }
    ensures { book.new ≡ book.old }
{
    let mut rest = lists;
    while let [list, after @ ..] = rest {
        match list {
            Ok(made) => keep_each(book, made.as_slice()),
            Err(_) => return Err(AllocError),
        }
        rest = after;
    }
    Ok(())
}

/// What it costs, about, to make the sums of these rows of which none are kept.
fn cost_of_missing(problem: &Problem, rows: &[u32]) -> u64 {
    let mut sum: u64 = 0;
    for row in rows {
        if problem.kept_sums(*row).is_none() {
            sum = sum.saturating_add(problem.live_row_entries(*row) as u64);
        }
    }
    sum
}

/// Makes the sums of rows of the present problem, where none are kept, by at most so many threads. The book stays the same.
///
/// # Errors
/// Memory ran out. Some rows' sums may be kept then.
pub fn keep_sums_by_threads<R: Threads + Sync>(
    rt: &R,
    alloc: Global,
    threads: u32,
    book: &mut Book,
    rows: &[u32],
) -> Result<(), AllocError>
    ensures { book.new ≡ book.old }
{
    if threads < 2 || cost_of_missing(book.problem(), rows) < LEAST_COST {
        book.keep_sums(rows);
        return Ok(());
    }
    let firsts = firsts_of(alloc, threads)?;
    let mut rest = rows;
    while rest.len() > 0 {
        let (front, after) = rest.split_at(rest.len().min(ROWS));
        let lists = missing_by_threads(
            rt,
            alloc,
            book.problem(),
            front,
            firsts.as_slice(),
            threads,
        )?;
        keep_all(book, lists.as_slice())?;
        rest = after;
    }
    Ok(())
}
