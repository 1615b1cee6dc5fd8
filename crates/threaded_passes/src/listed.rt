//! A pass over instances that were found as the round began.

ghost use Rattle.std.specs.Prelude.{◌≡◌, ◌≤◌, ◌∷◌, [], IsTrue, length, take, OnOk};
ghost use Rattle.std.specs.List.{Contains};
ghost use Rattle.presolve_model.specs.declared.instance.Instance.{Instance as InstanceValue};
ghost use Rattle.presolve_rounds.specs.Walking.{begun, IsGoing, IsPassed, IsWalk};
ghost use Rattle.threaded_passes.specs.Listing.{AreListed, IsListed, SharesRow};

use presolve_model::{Instance, Reduction};
use presolve_rounds::pass::{Walk, is_fresh, meet, meet_alike};
use presolve_rounds::round_marks::watch::Watch;
use presolve_rounds::rule_table::head;
use presolve_rounds::txn_book::Book;
use std::alloc::{AllocError, Global};

/// Whether two instances are of one rule and one row whose instances share their reading.
fn shares_row(first: Instance, other: Instance) -> bool
    ensures { IsTrue result → SharesRow first other }
{
    match first {
        Instance::Reduction(Reduction::BoundTightening { row, .. }) => match other {
            Instance::Reduction(Reduction::BoundTightening { row: another, .. }) => row == another,
            _ => false,
        },
        Instance::Reduction(Reduction::CoefficientTightening { row, .. }) => match other {
            Instance::Reduction(Reduction::CoefficientTightening { row: another, .. }) => {
                row == another
            }
            _ => false,
        },
        _ => false,
    }
}

/// How many of the first instances share their reading with this one.
fn run_length(first: Instance, instances: &[Instance]) -> usize
    ensures within { result ≤ length instances.now }
    ensures sharing { (x : InstanceValue) → Contains (take result instances.now) x → SharesRow first x }
{
    for place in 0..instances.len() {
        if !shares_row(first, instances[place]) {
            return place;
        }
    }
    instances.len()
}

/// An instance at its turn. Where it is stale a part of it is marked: it is left to the next round.
fn visit_one(
    alloc: Global,
    book: &mut Book,
    walk: &Walk<'_>,
    instance: Instance,
    watch: &mut Watch,
) -> Result<(), AllocError>
    requires going { IsGoing (begun walk.now) watch.old book.old }
    requires walk { IsWalk walk.now }
    requires listed { IsListed (begun walk.now) instance }
    ensures { OnOk result (IsPassed (begun walk.now) (instance ∷ []) watch.old book.old watch.new book.new) }
{
    if !is_fresh(alloc, book, walk, instance)? {
        watch.leave(instance, head(instance))?;
        return Ok(());
    }
    meet(alloc, book, walk, instance, watch)?;
    Ok(())
}

/// Instances that share their reading with the first of them, whose parts are looked at once.
fn visit_row(
    alloc: Global,
    book: &mut Book,
    walk: &Walk<'_>,
    first: Instance,
    row: &[Instance],
    watch: &mut Watch,
) -> Result<(), AllocError>
    requires going { IsGoing (begun walk.now) watch.old book.old }
    requires walk { IsWalk walk.now }
    requires listed { AreListed (begun walk.now) row.now }
    requires there { Contains row.now first }
    requires sharing { (x : InstanceValue) → Contains row.now x → SharesRow first x }
    ensures { OnOk result (IsPassed (begun walk.now) row.now watch.old book.old watch.new book.new) }
{
    if !is_fresh(alloc, book, walk, first)? {
        watch.leave(first, head(first))?;
        return Ok(());
    }
    meet_alike(alloc, book, walk, row, watch)
}

/// Instances that were enabled as the round began, in turn.
///
/// # Errors
/// Memory ran out.
pub fn visit_listed(
    alloc: Global,
    book: &mut Book,
    walk: &Walk<'_>,
    found: &[Instance],
    watch: &mut Watch,
) -> Result<(), AllocError>
    requires going { IsGoing (begun walk.now) watch.old book.old }
    requires walk { IsWalk walk.now }
    requires listed { AreListed (begun walk.now) found.now }
    ensures { OnOk result (IsPassed (begun walk.now) found.now watch.old book.old watch.new book.new) }
{
    let mut rest = found;
    while let [first, ..] = rest {
        let count = run_length(*first, rest);
        if count > 0 {
            let (row, after) = rest.split_at(count);
            visit_row(alloc, book, walk, *first, row, watch)?;
            rest = after;
        } else {
            visit_one(alloc, book, walk, *first, watch)?;
            let (_, after) = rest.split_at(1);
            rest = after;
        }
    }
    Ok(())
}
