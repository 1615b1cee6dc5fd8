//! Tasks.

ghost use Rattle.std.specs.Prelude.{◌≡◌, ◌+◌, ◌++◌, All, IfOk, length, OnOk};
ghost use Rattle.std.specs.List.{Contains};
ghost use Rattle.shared_book.specs.History.{HasFrozen, StartsWith};
ghost use Rattle.presolve_model.specs.declared.instance.Instance.{Instance as AnInstance};
ghost use Rattle.presolve_model.specs.Ledger.{Stands};
ghost use Rattle.presolve_model.specs.Scans.{found_at};
ghost use Rattle.presolve_model.specs.Tallies.{open_on};
ghost use Rattle.book_turns.specs.Sharing.{IsFrom};
ghost use Rattle.book_turns.specs.Turns.{IsPass, left_of};
ghost use Rattle.worker_tasks.specs.Tasks.{AreCommitted, found_of, HoldsChunk};
ghost use Rattle.worker_tasks.specs.Work.{instances_in};

use crate::work::Work;
use book_turns::txn_book::Book;
use book_turns::txn_book::instances::{Chunk, Proposal, Version, scan_at};
use presolve_model::{Outcome, Rule};
use shared_book::{Pass, SharedBook};
use std::alloc::{AllocError, Global};
use std::marker::Model;
use std::sync::Wait;

/// Some first ids of a rule, all of them in one chunk.
#[derive(Drop)]
pub struct Task {
    rule: Rule,
    chunk: Chunk,
    ids: Vec<u32>,
}

impl Model for Task {
    ghost use Rattle.worker_tasks.specs.Tasks.{TaskData};

    ghost Value = { TaskData };

    ghost view = { λ t. record { rule = t.rule; chunk = t.chunk; ids = t.ids.items } };
}

impl Task {
    /// These ids of a chunk, for a rule.
    pub fn new(rule: Rule, chunk: Chunk, ids: Vec<u32>) -> Task
        ensures { result ≡ record { rule = rule; chunk = chunk; ids = ids.items } }
    {
        Task { rule, chunk, ids }
    }

    /// The rule.
    pub fn rule(&self) -> Rule
        ensures { result ≡ self.now.rule }
    {
        self.rule
    }

    /// The chunk.
    pub fn chunk(&self) -> Chunk
        ensures { result ≡ self.now.chunk }
    {
        self.chunk
    }

    /// The ids, in ascending order.
    pub fn ids(&self) -> &[u32]
        ensures { result.now ≡ self.now.ids }
    {
        self.ids.as_slice()
    }
}

/// Whether an answer says that the book takes no more.
fn takes_no_more(outcome: Outcome) -> bool {
    matches!(outcome, Outcome::Closed { .. } | Outcome::Full)
}

/// Commits proposals in their order, until memory runs out. Gives whether the book takes no more.
fn commit_all<R: Wait>(
    rt: &R,
    alloc: Global,
    book: &SharedBook<Book>,
    pass: &mut Pass<Book>,
    proposals: &[Proposal],
) -> Result<bool, AllocError>
    requires pass { IsPass book.now pass.old }
    requires taken { All (IsFrom (left_of book.now.start pass.old.seen)) proposals.now }
    ensures pass { IsPass book.now pass.new }
    ensures number { pass.new.number ≡ pass.old.number }
    ensures seen { StartsWith pass.new.seen pass.old.seen }
    ensures committed { OnOk result (AreCommitted book.now pass.old proposals.now pass.new) }
    ensures turns { OnOk result (length pass.new.mine ≡ length pass.old.mine + length proposals.now) }
{
    let mut rest = proposals;
    let mut is_over = false;
    while let [proposal, after @ ..] = rest {
        let outcome = book.commit(rt, alloc, pass, proposal);
        if matches!(outcome, Outcome::NoMemory) {
            return Err(AllocError);
        }
        is_over |= takes_no_more(outcome);
        rest = after;
    }
    Ok(is_over)
}

/// Commits the enabled and open instances of a rule at one id, in instance order, a turn each. They are found then. Gives their number.
fn do_at<R: Wait>(
    rt: &R,
    alloc: Global,
    book: &SharedBook<Book>,
    pass: &mut Pass<Book>,
    version: &Version,
    rule: Rule,
    ids: &[u32],
    work: &mut Work,
) -> Result<u64, AllocError>
    requires stands { Stands book.now.start }
    requires pass { IsPass book.now pass.old }
    requires frozen { HasFrozen pass.old version.now }
    ensures pass { IsPass book.now pass.new }
    ensures number { pass.new.number ≡ pass.old.number }
    ensures seen { StartsWith pass.new.seen pass.old.seen }
    ensures count { IfOk result (λ count. count ≡ length (found_at (open_on version.now.tally) version.now.problem version.now.applied rule ids.now)) }
    ensures turns { IfOk result (λ count. length pass.new.mine ≡ length pass.old.mine + count) }
    ensures committed { OnOk result (AreCommitted book.now pass.old (found_at (open_on version.now.tally) version.now.problem version.now.applied rule ids.now) pass.new) }
    ensures done { work.new.done ≡ work.old.done }
    ensures kept { (e : AnInstance) → Contains work.old.found e → Contains work.new.found e }
    ensures found { OnOk result (work.new.found ≡ work.old.found ++ instances_in (found_at (open_on version.now.tally) version.now.problem version.now.applied rule ids.now)) }
{
    let found = scan_at(alloc, version, rule, ids)?;
    let proposals = found.as_slice();
    work.find(proposals)?;
    if commit_all(rt, alloc, book, pass, proposals)? {
        work.end();
    }
    Ok(proposals.len() as u64)
}

/// The sum of two numbers of proposals. Where it has no room, memory would not have had either.
fn added(one: u64, other: u64) -> Result<u64, AllocError>
    ensures { IfOk result (λ sum. sum ≡ one + other) }
{
    match one.checked_add(other) {
        Some(sum) => Ok(sum),
        None => Err(AllocError),
    }
}

/// A worker's task on a version that its pass froze: each enabled and open instance of the task's rule and chunk is committed, in instance
/// order, a turn each. They are found then. Gives their number. The proposals of one id at a time are held.
///
/// # Errors
/// Memory ran out. The first of them may have been committed then.
pub fn do_task<R: Wait>(
    rt: &R,
    alloc: Global,
    book: &SharedBook<Book>,
    pass: &mut Pass<Book>,
    version: &Version,
    task: &Task,
    work: &mut Work,
) -> Result<u64, AllocError>
    requires stands { Stands book.now.start }
    requires pass { IsPass book.now pass.old }
    requires frozen { HasFrozen pass.old version.now }
    requires holds { HoldsChunk version.now task.now }
    ensures pass { IsPass book.now pass.new }
    ensures number { pass.new.number ≡ pass.old.number }
    ensures seen { StartsWith pass.new.seen pass.old.seen }
    ensures count { IfOk result (λ count. count ≡ length (found_of version.now task.now)) }
    ensures turns { IfOk result (λ count. length pass.new.mine ≡ length pass.old.mine + count) }
    ensures committed { OnOk result (AreCommitted book.now pass.old (found_of version.now task.now) pass.new) }
    ensures done { work.new.done ≡ work.old.done }
    ensures kept { (e : AnInstance) → Contains work.old.found e → Contains work.new.found e }
    ensures found { OnOk result (work.new.found ≡ work.old.found ++ instances_in (found_of version.now task.now)) }
{
    let mut answered: u64 = 0;
    let mut rest = task.ids();
    while rest.len() > 0 {
        let (ids, after) = rest.split_at(1);
        let count = do_at(rt, alloc, book, pass, version, task.rule(), ids, work)?;
        answered = added(answered, count)?;
        rest = after;
    }
    Ok(answered)
}
