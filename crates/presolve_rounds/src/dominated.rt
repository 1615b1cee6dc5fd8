//! A pass over the columns that others dominate. What a column asks of those beside it, its footprint, is made where it is first looked at,
//! and kept until something is applied.

ghost use Rattle.std.specs.Prelude.{◌∷◌, [], OnOk};
ghost use Rattle.dual_rules.specs.Footprints.{AreFootprints};
ghost use Rattle.presolve_model.specs.declared.instance.Rule.TheVariants as rule_of;
ghost use Rattle.presolve_model.specs.Instances.{instances_from};
ghost use Rattle.presolve_model.specs.Scans.{instances_at};
ghost use Rattle.presolve_model.specs.Tallies.{open_on};
ghost use Rattle.presolve_rounds.specs.Walking.{begun, IsGoing, IsPassed, IsWalk};

use crate::pass::{Walk, visit};
use instances::add_dominated;
use presolve_model::Instance;
use round_marks::rule_table::dual_rules::footprints::Footprints;
use round_marks::txn_book::Book;
use round_marks::watch::Watch;
use std::alloc::{AllocError, Global};

/// For how many columns there is room, where so many rows are looked at: for each, or where the rows are few for none, since the room is made
/// anew in each pass.
fn room(columns: usize, rows: usize) -> usize {
    if rows < columns / 16 { 0 } else { columns }
}

/// An instance at its turn. The footprints are forgotten where it is applied.
fn visit_pair(
    alloc: Global,
    book: &mut Book,
    walk: &Walk<'_>,
    instance: Instance,
    footprints: &mut Footprints,
    watch: &mut Watch,
) -> Result<(), AllocError>
    requires going { IsGoing (begun walk.now) watch.old book.old }
    requires walk { IsWalk walk.now }
    requires kept { AreFootprints book.old.problem footprints.old }
    ensures passed { OnOk result (IsPassed (begun walk.now) (instance ∷ []) watch.old book.old watch.new book.new) }
    ensures kept { OnOk result (AreFootprints book.new.problem footprints.new) }
{
    if !visit(alloc, book, walk, instance, watch)? {
        return Ok(());
    }
    footprints.forget();
    Ok(())
}

/// Instances in turn.
fn visit_pairs(
    alloc: Global,
    book: &mut Book,
    walk: &Walk<'_>,
    found: &[Instance],
    footprints: &mut Footprints,
    watch: &mut Watch,
) -> Result<(), AllocError>
    requires going { IsGoing (begun walk.now) watch.old book.old }
    requires walk { IsWalk walk.now }
    requires kept { AreFootprints book.old.problem footprints.old }
    ensures passed { OnOk result (IsPassed (begun walk.now) found.now watch.old book.old watch.new book.new) }
    ensures kept { OnOk result (AreFootprints book.new.problem footprints.new) }
{
    for instance in found {
        visit_pair(alloc, book, walk, *instance, footprints, watch)?;
    }
    Ok(())
}

/// The columns that others of a row dominate, in turn.
fn visit_row(
    alloc: Global,
    book: &mut Book,
    walk: &Walk<'_>,
    row: u32,
    footprints: &mut Footprints,
    watch: &mut Watch,
) -> Result<(), AllocError>
    requires going { IsGoing (begun walk.now) watch.old book.old }
    requires walk { IsWalk walk.now }
    requires kept { AreFootprints book.old.problem footprints.old }
    ensures passed { OnOk result (IsPassed (begun walk.now) (instances_from (open_on (begun walk.now).tally) (begun walk.now).problem rule_of.DominatedColumn row) watch.old book.old watch.new book.new) }
    ensures kept { OnOk result (AreFootprints book.new.problem footprints.new) }
{
    let mut found = Vec::new(alloc);
    add_dominated(alloc, book.problem(), row, footprints, &mut found)?;
    visit_pairs(alloc, book, walk, found.as_slice(), footprints, watch)?;
    Ok(())
}

/// The columns that others of these rows dominate, in turn.
pub fn visit_dominated(
    alloc: Global,
    book: &mut Book,
    walk: &Walk<'_>,
    rows: &[u32],
    watch: &mut Watch,
) -> Result<(), AllocError>
    requires going { IsGoing (begun walk.now) watch.old book.old }
    requires walk { IsWalk walk.now }
    ensures { OnOk result (IsPassed (begun walk.now) (instances_at (open_on (begun walk.now).tally) (begun walk.now).problem rule_of.DominatedColumn rows.now) watch.old book.old watch.new book.new) }
{
    let columns = room(book.problem().column_count(), rows.len());
    let mut footprints = Footprints::new(alloc, columns)?;
    for row in rows {
        visit_row(alloc, book, walk, *row, &mut footprints, watch)?;
    }
    Ok(())
}
