//! A pass: instances in order, each looked at on the present problem when its turn comes.
//!
//! What a round lists is never held. An instance whose parts have not changed since the round began is enabled on the present problem
//! exactly where it was when the round began, and is then applied at once. One that reads a part which has changed would be stale, and is
//! left to the next round. Where the instances of a rule with a first id share their reading, its parts are looked at once for all of them, and
//! the first one that is applied leaves the others stale. So the bounds that a row tightens are looked for one after the other. Lines that are multiples of one another are those of one group as the round began: a
//! line that has changed since is noted, and so is looked at in the next round.

ghost use Rattle.std.specs.Prelude.{◌≡◌, true, false, ◌∷◌, [], map, IfOk, OnOk};
ghost use Rattle.presolve_model.specs.declared.instance.Rule.TheVariants as rule_of;
ghost use Rattle.presolve_model.specs.Enabled.{enabled_on};
ghost use Rattle.presolve_model.specs.Instances.{beside_at, instances_from};
ghost use Rattle.presolve_model.specs.Order.{reduction_order, verdict_order};
ghost use Rattle.presolve_model.specs.Scans.{instances_at};
ghost use Rattle.presolve_model.specs.Tallies.{open_on};
ghost use Rattle.place_laws.specs.Choosing.{ids_of, instances_of, visited};
ghost use Rattle.place_laws.specs.Standing.{IsFresh};
ghost use Rattle.round_laws.specs.Passing.{Follows};
ghost use Rattle.presolve_rounds.specs.Lines.{has_line};
ghost use Rattle.presolve_rounds.specs.Walking.{any_bound, AreAlike, AreFresh, begun, is_applied as applies, IsGoing, IsMet, IsPassed, IsWalk, open_bounds};

use crate::dominated::visit_dominated;
use instances::{add_enabled, instance_beside, lines_beside, only_instance};
use line_groups::Parallels;
use presolve_model::{Instance, Outcome, Reduction, Rule};
use round_marks::around::Around;
use round_marks::rule_table::activity_rules::tightened_bounds::{
    TightenedBounds, may_be_tightened,
};
use round_marks::rule_table::{
    goes_by_groups, head, is_enabled, parts_read, reduction_rules, shares_reading, verdict_rules,
};
use round_marks::stamps::Stamps;
use round_marks::txn_book::Book;
use round_marks::watch::Watch;
use sparse_problem::Problem;
use std::alloc::{AllocError, Global};
use std::snapshot::Snapshot;

/// What a pass looks at beside the book: how the round began, and so the book, how many instances had been applied to it, how often each part
/// had changed, and the groups of lines.
#[derive(Drop)]
pub struct Walk<'a> {
    pub frozen: &'a Snapshot<Book>,
    pub version: u64,
    pub stamps: &'a Stamps,
    pub groups: &'a Parallels,
}

/// Whether an answer says that something was applied.
fn is_applied(outcome: Outcome) -> bool
    ensures { result ≡ applies outcome }
{
    match outcome {
        Outcome::Applied { .. } => true,
        Outcome::Closed { .. }
        | Outcome::Full
        | Outcome::Stale { .. }
        | Outcome::Past
        | Outcome::NotDecimal
        | Outcome::NoMemory => false,
    }
}

/// Applies an instance that is enabled, its parts as they stood when the round began, and notes what changes. Marks a part that it reads.
/// Returns whether it was applied.
pub fn meet(
    alloc: Global,
    book: &mut Book,
    walk: &Walk<'_>,
    instance: Instance,
    watch: &mut Watch,
) -> Result<bool, AllocError>
    requires going { IsGoing (begun walk.now) watch.old book.old }
    requires walk { IsWalk walk.now }
    requires enabled { enabled_on book.old.problem instance ≡ true }
    requires fresh { IsFresh (begun walk.now).problem book.old.problem instance }
    ensures passed { OnOk result (IsPassed (begun walk.now) (instance ∷ []) watch.old book.old watch.new book.new) }
    ensures met { IfOk result (λ applied. IsMet (begun walk.now) instance watch.new book.old book.new applied) }
{
    let outcome = watch.apply(alloc, book, walk.version, instance)?;
    watch.mark(instance, outcome, head(instance))?;
    Ok(is_applied(outcome))
}

/// Whether the parts that an instance reads stand as they stood when the round began.
pub fn is_fresh(
    alloc: Global,
    book: &Book,
    walk: &Walk<'_>,
    instance: Instance,
) -> Result<bool, AllocError>
    requires follows { Follows (open_on (begun walk.now).tally) (begun walk.now).problem book.now }
    requires walk { IsWalk walk.now }
    ensures fresh { IfOk result (λ fresh. fresh ≡ true → IsFresh (begun walk.now).problem book.now.problem instance) }
    ensures stale { IfOk result (λ fresh. fresh ≡ false → IsFresh (begun walk.now).problem book.now.problem instance → ⊥) }
{
    let _ = walk;
    let parts = parts_read(alloc, book.problem(), instance)?;
    Ok(walk.stamps.stand_for(book.problem(), parts.as_slice()))
}

/// An instance at its turn. Where it is stale a part of it is marked: it is left to the next round. Returns whether it was applied.
pub fn visit(
    alloc: Global,
    book: &mut Book,
    walk: &Walk<'_>,
    instance: Instance,
    watch: &mut Watch,
) -> Result<bool, AllocError>
    requires going { IsGoing (begun walk.now) watch.old book.old }
    requires walk { IsWalk walk.now }
    ensures passed { OnOk result (IsPassed (begun walk.now) (instance ∷ []) watch.old book.old watch.new book.new) }
    ensures still { IfOk result (λ applied. applied ≡ false → book.new ≡ book.old) }
{
    if !is_enabled(book.problem(), instance) {
        return Ok(false);
    }
    if !is_fresh(alloc, book, walk, instance)? {
        watch.leave(instance, head(instance))?;
        return Ok(false);
    }
    meet(alloc, book, walk, instance, watch)
}

/// Instances in turn.
fn visit_found(
    alloc: Global,
    book: &mut Book,
    walk: &Walk<'_>,
    found: &[Instance],
    watch: &mut Watch,
) -> Result<(), AllocError>
    requires going { IsGoing (begun walk.now) watch.old book.old }
    requires walk { IsWalk walk.now }
    ensures { OnOk result (IsPassed (begun walk.now) found.now watch.old book.old watch.new book.new) }
{
    for instance in found {
        visit(alloc, book, walk, *instance, watch)?;
    }
    Ok(())
}

/// Instances in turn that share their reading, its parts as they stood when the round began: up to the first one that is applied, which leaves
/// the others stale.
pub fn meet_alike(
    alloc: Global,
    book: &mut Book,
    walk: &Walk<'_>,
    found: &[Instance],
    watch: &mut Watch,
) -> Result<(), AllocError>
    requires going { IsGoing (begun walk.now) watch.old book.old }
    requires walk { IsWalk walk.now }
    requires alike { AreAlike book.old found.now }
    requires fresh { AreFresh (begun walk.now) book.old found.now }
    ensures { OnOk result (IsPassed (begun walk.now) found.now watch.old book.old watch.new book.new) }
{
    let mut rest = found;
    while let [instance, after @ ..] = rest {
        if meet(alloc, book, walk, *instance, watch)? {
            return Ok(());
        }
        rest = after;
    }
    Ok(())
}

/// Instances that share their reading, whose parts are looked at once.
fn visit_alike(
    alloc: Global,
    book: &mut Book,
    walk: &Walk<'_>,
    found: &[Instance],
    watch: &mut Watch,
) -> Result<(), AllocError>
    requires going { IsGoing (begun walk.now) watch.old book.old }
    requires walk { IsWalk walk.now }
    requires alike { AreAlike book.old found.now }
    ensures { OnOk result (IsPassed (begun walk.now) found.now watch.old book.old watch.new book.new) }
{
    let [first, ..] = found else {
        return Ok(());
    };
    if !is_fresh(alloc, book, walk, *first)? {
        watch.leave(*first, head(*first))?;
        return Ok(());
    }
    meet_alike(alloc, book, walk, found, watch)
}

/// Whether what each instance reads that tightens a bound by a row stands as it stood when the round began: the row, its sides, and the bounds of
/// its columns.
fn is_row_fresh(book: &Book, walk: &Walk<'_>, row: u32) -> bool
    requires follows { Follows (open_on (begun walk.now).tally) (begun walk.now).problem book.now }
    requires walk { IsWalk walk.now }
    ensures fresh { result ≡ true → IsFresh (begun walk.now).problem book.now.problem (any_bound row) }
    ensures stale { result ≡ false → IsFresh (begun walk.now).problem book.now.problem (any_bound row) → ⊥ }
{
    let _ = walk;
    walk.stamps.row_stands(book.problem(), row)
}

/// The bounds that a row tightens, those that are open in turn, its parts as they stood when the round began: up to the first one that is
/// applied, which leaves the others stale.
fn meet_bounds(
    alloc: Global,
    book: &mut Book,
    walk: &Walk<'_>,
    row: u32,
    mut bounds: TightenedBounds,
    watch: &mut Watch,
) -> Result<(), AllocError>
    requires going { IsGoing (begun walk.now) watch.old book.old }
    requires walk { IsWalk walk.now }
    requires alike { AreAlike book.old (open_bounds (open_on book.old.tally) row bounds) }
    requires fresh { AreFresh (begun walk.now) book.old (open_bounds (open_on book.old.tally) row bounds) }
    ensures { OnOk result (IsPassed (begun walk.now) (open_bounds (open_on book.old.tally) row bounds) watch.old book.old watch.new book.new) }
{
    while let Some((column, side)) = bounds.next() {
        if book.tally().is_open(column, side) {
            let instance = Instance::Reduction(Reduction::BoundTightening { row, column, side });
            if meet(alloc, book, walk, instance, watch)? {
                return Ok(());
            }
        }
    }
    Ok(())
}

/// The instances that tighten bounds by a row, each looked for when its turn comes. Where a part that they read has changed since the round
/// began they are stale, and none is looked for: that part is noted.
fn visit_bounds(
    alloc: Global,
    book: &mut Book,
    walk: &Walk<'_>,
    row: u32,
    watch: &mut Watch,
) -> Result<(), AllocError>
    requires going { IsGoing (begun walk.now) watch.old book.old }
    requires walk { IsWalk walk.now }
    ensures { OnOk result (IsPassed (begun walk.now) (instances_from (open_on (begun walk.now).tally) (begun walk.now).problem rule_of.BoundTightening row) watch.old book.old watch.new book.new) }
{
    if !may_be_tightened(book.problem(), row) {
        return Ok(());
    }
    if !is_row_fresh(book, walk, row) {
        return Ok(());
    }
    let bounds = TightenedBounds::of_row(alloc, book.problem(), row)?;
    meet_bounds(alloc, book, walk, row, bounds, watch)?;
    Ok(())
}

/// Whether the line is live with which the instances of a rule of lines that are multiples of one another begin.
fn is_line_live(problem: &Problem, rule: Rule, id: u32) -> bool
    ensures { result ≡ has_line problem.now rule id }
{
    match rule {
        Rule::ParallelRows => problem.is_row_live(id),
        _ => problem.is_column_live(id),
    }
}

/// The instances of such a rule at a line and others, in turn, as long as the line is there.
fn visit_beside(
    alloc: Global,
    book: &mut Book,
    walk: &Walk<'_>,
    rule: Rule,
    id: u32,
    others: &[u32],
    watch: &mut Watch,
) -> Result<(), AllocError>
    requires going { IsGoing (begun walk.now) watch.old book.old }
    requires walk { IsWalk walk.now }
    ensures { OnOk result (IsPassed (begun walk.now) (map (beside_at rule id) others.now) watch.old book.old watch.new book.new) }
{
    let mut rest = others;
    while let [other, after @ ..] = rest {
        if !is_line_live(book.problem(), rule, id) {
            return Ok(());
        }
        let instance = instance_beside(rule, id, *other);
        visit(alloc, book, walk, instance, watch)?;
        rest = after;
    }
    Ok(())
}

/// The instances of a rule with a first id: those that are enabled and open now, or those of lines in one group.
fn visit_at(
    alloc: Global,
    book: &mut Book,
    walk: &Walk<'_>,
    rule: Rule,
    id: u32,
    watch: &mut Watch,
) -> Result<(), AllocError>
    requires going { IsGoing (begun walk.now) watch.old book.old }
    requires walk { IsWalk walk.now }
    ensures { OnOk result (IsPassed (begun walk.now) (instances_from (open_on (begun walk.now).tally) (begun walk.now).problem rule id) watch.old book.old watch.new book.new) }
{
    if let Some(instance) = only_instance(rule, id) {
        visit(alloc, book, walk, instance, watch)?;
        return Ok(());
    }
    if goes_by_groups(rule) {
        let others = lines_beside(walk.groups, rule, id);
        visit_beside(alloc, book, walk, rule, id, others, watch)?;
        return Ok(());
    }
    if matches!(rule, Rule::BoundTightening) {
        visit_bounds(alloc, book, walk, id, watch)?;
        return Ok(());
    }
    let mut found = Vec::new(alloc);
    add_enabled(
        alloc,
        book.problem(),
        walk.groups,
        book.tally(),
        rule,
        id,
        &mut found,
    )?;
    if shares_reading(rule) {
        visit_alike(alloc, book, walk, found.as_slice(), watch)?;
        return Ok(());
    }
    visit_found(alloc, book, walk, found.as_slice(), watch)?;
    Ok(())
}

/// The instances of a rule at these ids.
fn visit_each(
    alloc: Global,
    book: &mut Book,
    walk: &Walk<'_>,
    rule: Rule,
    ids: &[u32],
    watch: &mut Watch,
) -> Result<(), AllocError>
    requires going { IsGoing (begun walk.now) watch.old book.old }
    requires walk { IsWalk walk.now }
    ensures { OnOk result (IsPassed (begun walk.now) (instances_at (open_on (begun walk.now).tally) (begun walk.now).problem rule ids.now) watch.old book.old watch.new book.new) }
{
    for id in ids {
        visit_at(alloc, book, walk, rule, *id, watch)?;
    }
    Ok(())
}

/// The instances of a rule at these rows and columns.
fn visit_rule(
    alloc: Global,
    book: &mut Book,
    walk: &Walk<'_>,
    rule: Rule,
    ids: &Around,
    watch: &mut Watch,
) -> Result<(), AllocError>
    requires going { IsGoing (begun walk.now) watch.old book.old }
    requires walk { IsWalk walk.now }
    ensures { OnOk result (IsPassed (begun walk.now) (instances_at (open_on (begun walk.now).tally) (begun walk.now).problem rule (ids_of ids.now rule)) watch.old book.old watch.new book.new) }
{
    let chosen = ids.of(rule);
    match rule {
        Rule::DominatedColumn => visit_dominated(alloc, book, walk, chosen, watch),
        _ => visit_each(alloc, book, walk, rule, chosen, watch),
    }
}

/// The instances of rules at these rows and columns, each rule's in turn.
pub fn visit_rules(
    alloc: Global,
    book: &mut Book,
    walk: &Walk<'_>,
    rules: &[Rule],
    ids: &Around,
    watch: &mut Watch,
) -> Result<(), AllocError>
    requires going { IsGoing (begun walk.now) watch.old book.old }
    requires walk { IsWalk walk.now }
    ensures { OnOk result (IsPassed (begun walk.now) (instances_of (open_on (begun walk.now).tally) (begun walk.now).problem ids.now rules.now) watch.old book.old watch.new book.new) }
{
    for rule in rules {
        visit_rule(alloc, book, walk, *rule, ids, watch)?;
    }
    Ok(())
}

/// All instances at these rows and columns, in instance order.
fn visit_all(
    alloc: Global,
    book: &mut Book,
    walk: &Walk<'_>,
    ids: &Around,
    watch: &mut Watch,
) -> Result<(), AllocError>
    requires going { IsGoing (begun walk.now) watch.old book.old }
    requires walk { IsWalk walk.now }
    ensures { OnOk result (IsPassed (begun walk.now) (visited (open_on (begun walk.now).tally) (begun walk.now).problem ids.now) watch.old book.old watch.new book.new) }
{
    visit_rules(alloc, book, walk, &verdict_rules(), ids, watch)?;
    visit_rules(alloc, book, walk, &reduction_rules(), ids, watch)?;
    Ok(())
}

/// All instances at these rows and columns, in instance order. Notes what changes, and a part of what was left over, or marks it as asleep.
/// First the sums of the rows are made where none are kept.
pub fn pass(
    alloc: Global,
    book: &mut Book,
    walk: &Walk<'_>,
    ids: &Around,
    watch: &mut Watch,
) -> Result<(), AllocError>
    requires going { IsGoing (begun walk.now) watch.old book.old }
    requires walk { IsWalk walk.now }
    ensures { OnOk result (IsPassed (begun walk.now) (visited (open_on (begun walk.now).tally) (begun walk.now).problem ids.now) watch.old book.old watch.new book.new) }
{
    book.keep_sums(ids.of(Rule::BoundTightening));
    visit_all(alloc, book, walk, ids, watch)
}
