//! Rounds in order.
//!
//! A round lists, by its meaning, the enabled instances of the present problem in instance order: each rule's in turn, by ids. It then
//! commits them in that order. A pass does the same, at those rows and columns alone at which an instance can be enabled: near each part that
//! has changed in the round before, and near a part of what was refused. An instance whose refusal rests on what it reads sleeps until that
//! changes: it is looked at once more where the rounds end, to be counted.

ghost use Rattle.std.specs.Prelude.{◌≡◌, ◌≢◌, ◌<◌, ◌≤◌, length, Some, None, IfOk, OnOk};
ghost use Rattle.problem_model.specs.declared.part.Part.{Part};
ghost use Rattle.line_groups.specs.Groups.{AreGroupsOf};
ghost use Rattle.presolve_model.specs.Ordered.{Committed, Ordered, enabled_verdicts, round_list};
ghost use Rattle.presolve_model.specs.Stuck.{skipped_on, Stuck};
ghost use Rattle.presolve_model.specs.Tallies.{open_on};
ghost use Rattle.place_laws.specs.Choosing.{AreSorted, HasEach};
ghost use Rattle.round_laws.specs.Passing.{IsSameBook};
ghost use Rattle.round_marks.specs.Forming.{forms_of};
ghost use Rattle.round_marks.specs.Marking.{AreReached};
ghost use Rattle.presolve_rounds.specs.Readiness.{AreMarked, IsReady};
ghost use Rattle.presolve_rounds.specs.Running.{EndsWith, IsFirst, SweepsFrom};

use crate::onlooker::Onlooker;
use crate::pass::Walk;
use crate::passes::{InTurn, Passes};
use instances::Tally;
use line_groups::Parallels;
use presolve_model::{End, Instance, Outcome, Part};
use round_marks::around::Around;
use round_marks::found::enabled_of;
use round_marks::rule_table::{reduction_rules, verdict_rules};
use round_marks::stamps::Stamps;
use round_marks::txn_book::Book;
use round_marks::watch::Watch;
use sparse_problem::Problem;
use std::alloc::{AllocError, Global};
use std::snapshot::Snapshot;

/// One round. Gives the rows and columns of the next, with what is marked.
fn round<P: Passes>(
    alloc: Global,
    passes: &P,
    book: &mut Book,
    stamps: &mut Stamps,
    groups: &mut Parallels,
    ids: &mut Around,
    watch: &mut Watch,
) -> Result<(), AllocError>
    requires able { P.ready passes.now }
    requires ready { IsReady book.old stamps.old ids.old watch.old }
    requires groups { AreGroupsOf groups.old book.old.problem }
    ensures book { OnOk result (IsSameBook book.old book.new) }
    ensures groups { OnOk result (AreGroupsOf groups.new book.new.problem) }
    ensures committed { OnOk result (Committed book.old (round_list book.old) book.new) }
    ensures marked { OnOk result (book.new.verdict ≡ None → length book.new.history < book.new.limit → AreMarked book.new watch.new.marks) }
    ensures ready { OnOk result (book.new.verdict ≡ None → length book.new.history < book.new.limit → IsReady book.new stamps.new ids.new watch.new) }
{
    let frozen = Snapshot::of(book);
    let version = book.instance_count();
    watch.begin_round();
    let walk = Walk {
        frozen: &frozen,
        version,
        stamps,
        groups,
    };
    passes.pass(alloc, book, &walk, ids, watch)?;
    stamps.refresh(book.problem(), watch.noted());
    groups.refresh(alloc, book.problem(), watch.noted())?;
    *ids = watch.around(alloc, book.problem(), groups)?;
    Ok(())
}

/// How many instances these are.
fn count(instances: &[Instance]) -> u64
    ensures { result ≡ length instances.now }
{
    instances.len() as u64
}

/// How many open reductions are enabled, each of which reads one of these parts.
fn skipped(
    alloc: Global,
    problem: &Problem,
    groups: &Parallels,
    tally: &Tally,
    parts: &[Part],
) -> Result<u64, AllocError>
    requires groups { AreGroupsOf groups.now problem.now }
    requires reached { AreReached (open_on tally.now) problem.now parts.now }
    ensures { IfOk result (λ skipped. skipped ≡ skipped_on (open_on tally.now) problem.now) }
{
    problem.is_sparse();
    let ids = Around::of_parts(alloc, problem, groups, parts, parts, parts)?;
    let found = enabled_of(alloc, problem, groups, tally, &ids, &reduction_rules())?;
    Ok(count(found.as_slice()))
}

/// The same of a book, after a round that marked what is enabled.
fn skipped_after(
    alloc: Global,
    book: &Book,
    groups: &Parallels,
    watch: &Watch,
) -> Result<u64, AllocError>
    requires groups { AreGroupsOf groups.now book.now.problem }
    requires marked { AreMarked book.now watch.now.marks }
    ensures { IfOk result (λ skipped. skipped ≡ skipped_on (open_on book.now.tally) book.now.problem) }
{
    let parts = watch.all(alloc)?;
    skipped(
        alloc,
        book.problem(),
        groups,
        book.tally(),
        parts.as_slice(),
    )
}

/// The first of some instances.
fn first_of(instances: &[Instance]) -> Option<Instance>
    ensures { IsFirst instances.now result }
{
    match instances {
        [first, ..] => Some(*first),
        [] => None,
    }
}

/// The first verdict that is enabled, in instance order.
fn first_verdict(
    alloc: Global,
    problem: &Problem,
    groups: &Parallels,
    tally: &Tally,
) -> Result<Option<Instance>, AllocError>
    requires { AreGroupsOf groups.now problem.now }
    ensures { IfOk result (IsFirst (enabled_verdicts (open_on tally.now) problem.now)) }
{
    let all = Around::all_of(alloc, problem)?;
    let found = enabled_of(alloc, problem, groups, tally, &all, &verdict_rules())?;
    Ok(first_of(found.as_slice()))
}

/// Applies the first verdict that is enabled to a book that is full.
fn decide(alloc: Global, book: &mut Book, verdict: Instance) -> Result<(), AllocError>
    requires undecided { book.old.verdict ≡ None }
    requires full { book.old.limit ≤ length book.old.history }
    requires first { IsFirst (enabled_verdicts (open_on book.old.tally) book.old.problem) (Some verdict) }
    ensures book { OnOk result (IsSameBook book.old book.new) }
    ensures ordered { OnOk result (Ordered book.old None book.new) }
    ensures decided { OnOk result (book.new.verdict ≢ None) }
{
    let version = book.instance_count();
    match book.apply(alloc, version, verdict, &mut Vec::new(alloc)) {
        Outcome::NoMemory => Err(AllocError),
        _ => Ok(()),
    }
}

/// The end of a book that is full: the first verdict that is enabled, if there is one, is applied. None where the book is decided.
fn end_at_limit(
    alloc: Global,
    book: &mut Book,
    groups: &Parallels,
) -> Result<Option<End>, AllocError>
    requires groups { AreGroupsOf groups.now book.old.problem }
    requires undecided { book.old.verdict ≡ None }
    requires full { book.old.limit ≤ length book.old.history }
    ensures book { OnOk result (IsSameBook book.old book.new) }
    ensures ordered { IfOk result (λ end. Ordered book.old end book.new) }
    ensures end { IfOk result (λ end. EndsWith end book.new) }
{
    book.stands();
    match first_verdict(alloc, book.problem(), groups, book.tally())? {
        None => Ok(Some(End::LimitReached)),
        Some(verdict) => {
            decide(alloc, book, verdict)?;
            Ok(None)
        }
    }
}

/// Rounds until nothing can be applied, a verdict was, or the limit is reached, with the groups of the book's problem. The first one looks at
/// these ids. None where the book is decided.
fn run_with<P: Passes, O: Onlooker>(
    alloc: Global,
    passes: &P,
    book: &mut Book,
    groups: &mut Parallels,
    mut ids: Around,
    onlooker: &mut O,
) -> Result<Option<End>, AllocError>
    requires able { P.ready passes.now }
    requires groups { AreGroupsOf groups.old book.old.problem }
    requires undecided { book.old.verdict ≡ None }
    requires sorted { AreSorted ids }
    requires each { HasEach (open_on book.old.tally) book.old.problem ids }
    ensures book { OnOk result (IsSameBook book.old book.new) }
    ensures ordered { IfOk result (λ end. Ordered book.old end book.new) }
    ensures end { IfOk result (λ end. EndsWith end book.new) }
{
    book.stands();
    let limit = book.limit();
    let mut stamps = Stamps::of(alloc, book.problem())?;
    let mut watch = Watch::of(alloc, book.problem())?;
    while book.applied() < limit {
        let applied = book.applied();
        round(
            alloc,
            passes,
            book,
            &mut stamps,
            groups,
            &mut ids,
            &mut watch,
        )?;
        onlooker.after_round(alloc, book)?;
        if book.verdict().is_some() {
            return Ok(None);
        }
        if book.applied() == applied {
            let skipped = skipped_after(alloc, book, groups, &watch)?;
            return Ok(Some(End::Fixpoint { skipped }));
        }
    }
    end_at_limit(alloc, book, groups)
}

/// What became of a round over everything.
#[derive(Clone, Copy)]
pub enum Swept {
    /// The run ends with it.
    Ended(Option<End>),
    /// It applied something, and no verdict.
    Applied,
}

/// One round over all instances of a book that has room.
fn round_over_all<P: Passes>(
    alloc: Global,
    passes: &P,
    book: &mut Book,
    groups: &mut Parallels,
    watch: &mut Watch,
) -> Result<(), AllocError>
    requires able { P.ready passes.now }
    requires groups { AreGroupsOf groups.old book.old.problem }
    requires forms { watch.old.forms ≡ forms_of book.old.problem }
    ensures book { OnOk result (IsSameBook book.old book.new) }
    ensures groups { OnOk result (AreGroupsOf groups.new book.new.problem) }
    ensures committed { OnOk result (Committed book.old (round_list book.old) book.new) }
    ensures marked { OnOk result (book.new.verdict ≡ None → length book.new.history < book.new.limit → AreMarked book.new watch.new.marks) }
{
    book.stands();
    let _limit = book.limit();
    let mut stamps = Stamps::of(alloc, book.problem())?;
    let mut ids = Around::all_of(alloc, book.problem())?;
    round(alloc, passes, book, &mut stamps, groups, &mut ids, watch)?;
    Ok(())
}

/// What became of a round in which the book came to this, which had so many reductions before it.
fn swept_to(
    alloc: Global,
    book: &Book,
    applied: u64,
    groups: &Parallels,
    watch: &Watch,
) -> Result<Swept, AllocError>
    requires groups { AreGroupsOf groups.now book.now.problem }
    requires marked { book.now.verdict ≡ None → length book.now.history < book.now.limit → AreMarked book.now watch.now.marks }
    requires room { applied < book.now.limit }
    requires grown { applied ≤ length book.now.history }
    requires stuck { book.now.verdict ≡ None → length book.now.history ≡ applied → Stuck book.now.numbers (open_on book.now.tally) book.now.problem }
    ensures { IfOk result (λ swept. SweepsFrom swept applied book.now) }
{
    if book.verdict().is_some() {
        return Ok(Swept::Ended(None));
    }
    if book.applied() > applied {
        return Ok(Swept::Applied);
    }
    let skipped = skipped_after(alloc, book, groups, watch)?;
    Ok(Swept::Ended(Some(End::Fixpoint { skipped })))
}

/// One round over all instances, in this way. The onlooker is told after it.
///
/// # Errors
/// Memory ran out.
pub fn sweep<P: Passes, O: Onlooker>(
    alloc: Global,
    passes: &P,
    book: &mut Book,
    onlooker: &mut O,
) -> Result<Swept, AllocError>
    requires able { P.ready passes.now }
    requires undecided { book.old.verdict ≡ None }
    requires room { length book.old.history < book.old.limit }
    ensures book { OnOk result (IsSameBook book.old book.new) }
    ensures committed { OnOk result (Committed book.old (round_list book.old) book.new) }
    ensures swept { IfOk result (λ swept. SweepsFrom swept (length book.old.history) book.new) }
{
    let applied = book.applied();
    let mut groups = Parallels::of(alloc, book.problem())?;
    let mut watch = Watch::of(alloc, book.problem())?;
    round_over_all(alloc, passes, book, &mut groups, &mut watch)?;
    onlooker.after_round(alloc, book)?;
    let swept = swept_to(alloc, book, applied, &groups, &watch)?;
    Ok(swept)
}

/// Rounds until nothing can be applied, a verdict was, or the limit is reached, each gone over in this way. The first one looks at these ids, at
/// which all is that is enabled and open. None where the book is decided. The onlooker is told after each round, and behind the last.
///
/// # Errors
/// Memory ran out.
pub fn run_from<P: Passes, O: Onlooker>(
    alloc: Global,
    passes: &P,
    book: &mut Book,
    ids: Around,
    onlooker: &mut O,
) -> Result<Option<End>, AllocError>
    requires able { P.ready passes.now }
    requires undecided { book.old.verdict ≡ None }
    requires sorted { AreSorted ids }
    requires each { HasEach (open_on book.old.tally) book.old.problem ids }
    ensures book { OnOk result (IsSameBook book.old book.new) }
    ensures ordered { IfOk result (λ end. Ordered book.old end book.new) }
    ensures end { IfOk result (λ end. EndsWith end book.new) }
{
    let mut groups = Parallels::of(alloc, book.problem())?;
    let end = run_with(alloc, passes, book, &mut groups, ids, onlooker);
    onlooker.after_run();
    end
}

/// The same, where the first round looks at everything.
///
/// # Errors
/// Memory ran out.
pub fn run_by<P: Passes, O: Onlooker>(
    alloc: Global,
    passes: &P,
    book: &mut Book,
    onlooker: &mut O,
) -> Result<Option<End>, AllocError>
    requires able { P.ready passes.now }
    requires undecided { book.old.verdict ≡ None }
    ensures book { OnOk result (IsSameBook book.old book.new) }
    ensures ordered { IfOk result (λ end. Ordered book.old end book.new) }
    ensures end { IfOk result (λ end. EndsWith end book.new) }
{
    let ids = Around::all_of(alloc, book.problem())?;
    run_from(alloc, passes, book, ids, onlooker)
}

/// The same on one thread, each instance looked at in its turn.
///
/// # Errors
/// Memory ran out.
pub fn run<O: Onlooker>(
    alloc: Global,
    book: &mut Book,
    onlooker: &mut O,
) -> Result<Option<End>, AllocError>
    requires undecided { book.old.verdict ≡ None }
    ensures book { OnOk result (IsSameBook book.old book.new) }
    ensures ordered { IfOk result (λ end. Ordered book.old end book.new) }
    ensures end { IfOk result (λ end. EndsWith end book.new) }
{
    run_by(alloc, &InTurn, book, onlooker)
}
