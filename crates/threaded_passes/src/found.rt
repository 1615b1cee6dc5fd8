//! The instances that are enabled as a round begins, found by threads.

ghost use Rattle.std.specs.Prelude.{◌≡◌, ◌<◌, length, IfOk, IfSome};
ghost use Rattle.std.specs.List.{AllZip, filter};
ghost use Rattle.line_groups.specs.Groups.{AreGroupsOf};
ghost use Rattle.presolve_model.specs.Enabled.{enabled_on};
ghost use Rattle.presolve_model.specs.Tallies.{open_on};
ghost use Rattle.place_laws.specs.Choosing.{instances_of};
ghost use Rattle.threaded_passes.specs.Pieces.{enabled_in};
ghost use Rattle.threaded_passes.specs.Shares.{AreInTurn, IsListAt, IsShare, IsShareOrLost};

use crate::pieces::{Piece, pieces_of};
use crate::shares::firsts_of;
use line_groups::Parallels;
use presolve_model::{Instance, Rule};
use presolve_rounds::instances::{Tally, add_enabled};
use presolve_rounds::round_marks::around::Around;
use presolve_rounds::round_marks::found::enabled_of;
use sparse_problem::Problem;
use std::alloc::{AllocError, Global};
use std::thread::Threads;
use thread_maps::map_in_threads;

/// Pieces for each thread. The more there are, the more evenly they cost.
const PIECES: u64 = 16;

/// The enabled instances of a piece that are open.
fn found_in(
    alloc: Global,
    problem: &Problem,
    groups: &Parallels,
    tally: &Tally,
    piece: &Piece,
) -> Result<Vec<Instance>, AllocError>
    requires { AreGroupsOf groups.now problem.now }
    ensures { IfOk result (λ found. found.items ≡ enabled_in (open_on tally.now) problem.now piece.now) }
{
    let mut found = Vec::new(alloc);
    let mut rest = piece.ids();
    while let [id, after @ ..] = rest {
        add_enabled(alloc, problem, groups, tally, piece.rule(), *id, &mut found)?;
        rest = after;
    }
    Ok(found)
}

/// What is found in the pieces of a share: each so many-th, from the first one on.
fn found_in_share(
    alloc: Global,
    problem: &Problem,
    groups: &Parallels,
    tally: &Tally,
    pieces: &[Piece],
    first: u32,
    step: u32,
) -> Result<Vec<Vec<Instance>>, AllocError>
    requires groups { AreGroupsOf groups.now problem.now }
    requires step { 0 < step }
    ensures { IfOk result (λ lists. IsShare (open_on tally.now) problem.now pieces.now step first lists.items) }
{
    let mut lists = Vec::new(alloc);
    let mut place = first as usize;
    while place < pieces.len() {
        lists.push(found_in(alloc, problem, groups, tally, &pieces[place])?)?;
        place += step as usize;
    }
    Ok(lists)
}

/// What is found in each share, each in a thread of its own.
fn lists_of<R: Threads + Sync>(
    rt: &R,
    alloc: Global,
    problem: &Problem,
    groups: &Parallels,
    tally: &Tally,
    pieces: &[Piece],
    firsts: &[u32],
    step: u32,
) -> Result<Vec<Result<Vec<Vec<Instance>>, AllocError>>, AllocError>
    requires groups { AreGroupsOf groups.now problem.now }
    requires step { 0 < step }
    ensures { IfOk result (λ lists. AllZip (IsShareOrLost (open_on tally.now) problem.now pieces.now step) firsts.now lists.items) }
{
    map_in_threads(
        rt,
        alloc,
        firsts,
        |first: &u32| -> Result<Vec<Vec<Instance>>, AllocError>
            requires groups { AreGroupsOf groups.now problem.now }
            requires step { 0 < step }
            ensures { IsShareOrLost (open_on tally.entry.now) problem.entry.now pieces.entry.now step first.now result }
        { found_in_share(alloc, problem, groups, tally, pieces, *first, step) },
    )
}

/// What was found in the piece at a place. `None` where memory ran out.
fn list_at(lists: &[Result<Vec<Vec<Instance>>, AllocError>], place: usize) -> Option<&[Instance]>
    requires { 0 < length lists.now }
    ensures { IfSome result (λ list. IsListAt lists.now place list.now) }
{
    let found = match &lists[place % lists.len()] {
        Ok(found) => found.as_slice(),
        Err(_) => return None,
    };
    let turn = place / lists.len();
    if turn < found.len() {
        Some(found[turn].as_slice())
    } else {
        None
    }
}

/// What was found in so many pieces, one list behind the other.
fn join_all(
    alloc: Global,
    count: usize,
    lists: &[Result<Vec<Vec<Instance>>, AllocError>],
) -> Result<Vec<Instance>, AllocError>
    requires { 0 < length lists.now }
    ensures { IfOk result (λ all. AreInTurn lists.now count all.items) }
{
    let mut all = Vec::new(alloc);
    for place in 0..count {
        match list_at(lists, place) {
            Some(list) => all.extend_from_slice(list)?,
            None => return Err(AllocError),
        }
    }
    Ok(all)
}

/// The enabled instances of rules at these rows and columns that are open, each rule's in turn, found by at most so many threads, which share what
/// that costs, about.
///
/// # Errors
/// Memory ran out.
pub fn enabled_by_threads<R: Threads + Sync>(
    rt: &R,
    alloc: Global,
    threads: u32,
    problem: &Problem,
    groups: &Parallels,
    tally: &Tally,
    ids: &Around,
    rules: &[Rule],
    cost: u64,
) -> Result<Vec<Instance>, AllocError>
    requires { AreGroupsOf groups.now problem.now }
    ensures { IfOk result (λ found. found.items ≡ filter (enabled_on problem.now) (instances_of (open_on tally.now) problem.now ids.now rules.now)) }
{
    if threads < 2 {
        return enabled_of(alloc, problem, groups, tally, ids, rules);
    }
    let most = cost / (threads as u64 * PIECES);
    let pieces = pieces_of(alloc, problem, ids, rules, most)?;
    let firsts = firsts_of(alloc, threads)?;
    let lists = lists_of(
        rt,
        alloc,
        problem,
        groups,
        tally,
        pieces.as_slice(),
        firsts.as_slice(),
        threads,
    )?;
    join_all(alloc, pieces.as_slice().len(), lists.as_slice())
}
