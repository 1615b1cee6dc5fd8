//! Rounds of workers, one after the other.

ghost use Rattle.std.specs.Prelude.{◌≡◌, ℕ, ◌<◌, ◌≤◌, ◌^◌, true, [], IfOk, IfSome, OnOk};
ghost use Rattle.shared_book.specs.History.{HasFrozen};
ghost use Rattle.problem_model.specs.Problems.{IsSparse};
ghost use Rattle.place_laws.specs.Choosing.{AreSorted, HasEach};
ghost use Rattle.presolve_model.specs.Ledger.{Stands};
ghost use Rattle.undo_records.specs.declared.side.Side.{Side};
ghost use Rattle.presolve_model.specs.Tallies.{open_on, tightenings};
ghost use Rattle.presolve_model.specs.Worlds.{version_of};
ghost use Rattle.book_turns.specs.Turns.{GoesOn, IsPass};
ghost use Rattle.round_marks.specs.Stamping.{stamps_of};
ghost use Rattle.round_tasks.specs.Changes.{IsAsLong};
ghost use Rattle.worker_rounds.specs.Looks.{HasAllOf, IsLooking};
ghost use Rattle.worker_rounds.specs.Marking.{HasLeft, IsLater, LooksAt};

use crate::marks::ids_after;
use crate::round::round;
use instances::Version;
use round_marks::around::Around;
use round_marks::rule_table::{reduction_rules, verdict_rules};
use round_marks::stamps::Stamps;
use round_marks::watch::Watch;
use round_tasks::changed_parts;
use shared_book::{Pass, SharedBook};
use std::alloc::{AllocError, Global};
use std::sync::Wait;
use std::thread::Threads;
use txn_book::Book;
use worker_gate::Gate;

/// A round that looks at less than one in so many of all ids is left to one thread: to freeze the book costs more than it brings.
const SMALL: u64 = 1;

/// At how many ids a round looks, of all rules.
fn looks(ids: &Around) -> u64 {
    let mut sum: u64 = 0;
    for rule in verdict_rules() {
        sum = sum.saturating_add(ids.of(rule).len() as u64);
    }
    for rule in reduction_rules() {
        sum = sum.saturating_add(ids.of(rule).len() as u64);
    }
    sum
}

/// What is kept of a version when its round has ended: how often its parts had changed, and how many instances had been applied.
fn kept(alloc: Global, version: Version) -> Result<(Stamps, u64), AllocError>
    ensures stamps { IfOk result (λ kept. kept.0 ≡ stamps_of version.problem) }
    ensures sparse { IsSparse version.problem }
{
    version.problem().is_sparse();
    let stamps = Stamps::of(alloc, version.problem())?;
    Ok((stamps, version.applied()))
}

/// Whether a round found all, and something was applied.
fn is_worth_another(is_all: bool, before: u64, after: u64) -> bool
    ensures { result ≡ true → is_all ≡ true }
{
    is_all && before != after
}

/// A round, and the freeze behind it. Gives the version of this freeze, how often parts had changed before the round, and whether it found all
/// and applied something.
fn round_and_freeze<R: Threads + Wait + Sync, G: Gate>(
    rt: &R,
    alloc: Global,
    book: &SharedBook<Book>,
    main: &mut Pass<Book>,
    gate: &G,
    threads: u32,
    version: Version,
    ids: &Around,
    watch: &mut Watch,
) -> Result<(Version, Stamps, bool), AllocError>
    requires stands { Stands book.now.start }
    requires short { book.now.start.limit < 2 ^ 64 }
    requires some { 0 < threads }
    requires pass { IsPass book.now main.old }
    requires frozen { HasFrozen main.old version }
    requires sorted { AreSorted ids.now }
    requires looks { LooksAt version watch.old ids.now }
    requires awake { watch.old.marks.asleep ≡ [] }
    ensures pass { OnOk result (IsPass book.now main.new) }
    ensures frozen { IfOk result (λ left. HasFrozen main.new left.0) }
    ensures awake { OnOk result (watch.new.marks.asleep ≡ []) }
    ensures long { IfOk result (λ left. IsAsLong left.1 left.0.problem) }
    ensures left { IfOk result (λ left. left.2 ≡ true → HasLeft version left.1 watch.new left.0) }
{
    watch.begin_round();
    let is_all = round(rt, alloc, book, main, gate, threads, &version, ids, watch)?;
    let (before, applied) = kept(alloc, version)?;
    let next = book.freeze(rt, alloc, main)?;
    let goes_on = is_worth_another(is_all, applied, next.applied());
    Ok((next, before, goes_on))
}

/// A version that a pass froze, where the next round looks, and what is kept for the round behind that.
#[derive(Drop)]
struct Looking {
    version: Version,
    ids: Around,
    watch: Watch,
}

/// Freezes the book. The first round looks at everything.
fn first_look<R: Wait>(
    rt: &R,
    alloc: Global,
    book: &SharedBook<Book>,
    main: &mut Pass<Book>,
) -> Result<Looking, AllocError>
    requires pass { IsPass book.now main.old }
    ensures pass { OnOk result (IsPass book.now main.new) }
    ensures looking { IfOk result (IsLooking main.new) }
{
    let version = book.freeze(rt, alloc, main)?;
    let ids = Around::all_of(alloc, version.problem())?;
    let watch = Watch::of(alloc, version.problem())?;
    Ok(Looking {
        version,
        ids,
        watch,
    })
}

/// A round, and where the next one looks: none where it applied nothing, or did not find all.
fn next_look<R: Threads + Wait + Sync, G: Gate>(
    rt: &R,
    alloc: Global,
    book: &SharedBook<Book>,
    main: &mut Pass<Book>,
    gate: &G,
    threads: u32,
    looking: Looking,
) -> Result<Option<Looking>, AllocError>
    requires stands { Stands book.now.start }
    requires short { book.now.start.limit < 2 ^ 64 }
    requires some { 0 < threads }
    requires pass { IsPass book.now main.old }
    requires looking { IsLooking main.old looking }
    ensures pass { OnOk result (IsPass book.now main.new) }
    ensures looking { IfOk result (λ next. IfSome next (IsLooking main.new)) }
{
    let Looking {
        version,
        ids,
        mut watch,
    } = looking;
    let (next, before, goes_on) = round_and_freeze(
        rt, alloc, book, main, gate, threads, version, &ids, &mut watch,
    )?;
    if !goes_on {
        return Ok(None);
    }
    let ids = ids_after(alloc, &before, &next, &mut watch)?;
    Ok(Some(Looking {
        version: next,
        ids,
        watch,
    }))
}

/// Rounds on a shared book, until one applies nothing, does not find all, or is small. Gives where the small one would look.
fn race_on<R: Threads + Wait + Sync, G: Gate>(
    rt: &R,
    alloc: Global,
    book: &SharedBook<Book>,
    main: &mut Pass<Book>,
    gate: &G,
    threads: u32,
) -> Result<Option<Looking>, AllocError>
    requires stands { Stands book.now.start }
    requires short { book.now.start.limit < 2 ^ 64 }
    requires some { 0 < threads }
    requires pass { IsPass book.now main.old }
    ensures pass { OnOk result (IsPass book.now main.new) }
    ensures looking { IfOk result (λ small. IfSome small (IsLooking main.new)) }
{
    let mut looking = first_look(rt, alloc, book, main)?;
    let all = looks(&looking.ids);
    for _ in rt.forever() {
        match next_look(rt, alloc, book, main, gate, threads, looking)? {
            None => return Ok(None),
            Some(next) => looking = next,
        }
        if looks(&looking.ids) < all / SMALL {
            return Ok(Some(looking));
        }
    }
    unreachable!()
}

/// The ids at which all is that is enabled and open on a book, where a version was looked at that it comes after: those of the version, if nothing
/// has changed since.
fn ids_on(alloc: Global, looking: Looking, book: &Book) -> Result<Around, AllocError>
    requires later { IsLater looking.version (version_of book.now) }
    requires sorted { AreSorted looking.ids }
    requires looks { LooksAt looking.version looking.watch looking.ids }
    ensures sorted { IfOk result AreSorted }
    ensures each { IfOk result (HasEach (open_on book.now.tally) book.now.problem) }
{
    let Looking { version, ids, .. } = looking;
    let (before, _) = kept(alloc, version)?;
    let changed = changed_parts(alloc, &before, book.problem())?;
    if changed.is_empty() {
        return Ok(ids);
    }
    let all = Around::all_of(alloc, book.problem())?;
    Ok(all)
}

/// A book after a race.
#[derive(Drop)]
pub struct RaceEnd {
    pub book: Book,
    /// Where the rounds became small: ids at which all is that is enabled and open on the book.
    pub small: Option<Around>,
}

/// Rounds of so many workers over a book, until one of them applies nothing, a verdict is applied, or the limit is reached; or until they become
/// small. Gives the book that they leave, and where the small one would look.
///
/// # Errors
/// Memory ran out. The book is dropped.
pub fn race<R: Threads + Wait + Sync, G: Gate>(
    rt: &R,
    alloc: Global,
    book: Book,
    gate: &G,
    threads: u32,
) -> Result<RaceEnd, AllocError>
    requires some { 0 < threads }
    requires few { (j : ℕ) (side : Side) → tightenings book.records j side ≤ 10 }
    ensures goes { IfOk result (λ raced. GoesOn book raced.book) }
    ensures few { IfOk result (λ raced. (j : ℕ) (side : Side) → tightenings raced.book.records j side ≤ 10) }
    ensures small { IfOk result (λ raced. IfSome raced.small (HasAllOf raced.book)) }
{
    book.stands();
    let _limit = book.limit();
    let (shared, first) = SharedBook::new(alloc, book)?;
    let mut main = first;
    let looking = race_on(rt, alloc, &shared, &mut main, gate, threads)?;
    let mut passes: Vec<Pass<Book>> = Vec::new(alloc);
    passes.push(main)?;
    let book = shared.close(rt, passes);
    let small = match looking {
        None => None,
        Some(looking) => Some(ids_on(alloc, looking, &book)?),
    };
    Ok(RaceEnd { book, small })
}
