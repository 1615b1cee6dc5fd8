//! Records followed from a problem on.

ghost use Rattle.std.specs.Prelude.{◌≡◌, ◌↔◌, true, IfOk, IsTrue};
ghost use Rattle.presolve_model.specs.declared.instance.Instance.TheVariants as at;
ghost use Rattle.presolve_model.specs.Enabled.{enabled_on};
ghost use Rattle.walk_laws.specs.Walk.{reduction_of};
ghost use Rattle.record_verify.specs.Stepping.{Follows, FollowsAll, Makes};

use crate::readings::is_reading_of;
use applying::after;
use fractions::Numbers;
use presolve_model::{Instance, Reduction, Refusal};
use rule_table::is_enabled;
use same_data::same_record;
use sparse_problem::Problem;
use std::alloc::{AllocError, Global};
use undo_records::{PartRead, Records, Undo};
use walk_laws::{Flaw, StepFlaw};

/// The reduction that a record names.
fn reduction_of(undo: &Undo) -> Reduction
    ensures { result ≡ reduction_of undo.now }
{
    match undo {
        Undo::EmptyRow(it) => Reduction::EmptyRow { row: it.row },
        Undo::SingletonRow(it) => Reduction::SingletonRow { row: it.row },
        Undo::FixedColumn(it) => Reduction::FixedColumn { column: it.column },
        Undo::RoundedBounds(it) => Reduction::RoundedBounds { column: it.column },
        Undo::RedundantRow(it) => Reduction::RedundantRow { row: it.row },
        Undo::RedundantSide(it) => Reduction::RedundantSide { row: it.row },
        Undo::ForcingRow(it) => Reduction::ForcingRow { row: it.row },
        Undo::BoundTightening(it) => Reduction::BoundTightening {
            row: it.row,
            column: it.column,
            side: it.side,
        },
        Undo::CoefficientTightening(it) => Reduction::CoefficientTightening {
            row: it.row,
            column: it.column,
        },
        Undo::DualFixing(it) => Reduction::DualFixing { column: it.column },
        Undo::DominatedColumn(it) => Reduction::DominatedColumn {
            row: it.row,
            better: it.better,
            column: it.column,
        },
        Undo::DoubletonEquation(it) => Reduction::DoubletonEquation {
            row: it.row,
            column: it.column,
            other: it.kept,
        },
        Undo::FreeColumnSingleton(it) => Reduction::FreeColumnSingleton {
            column: it.column,
            row: it.row,
        },
        Undo::SlackColumnSingleton(it) => Reduction::SlackColumnSingleton {
            column: it.column,
            row: it.row,
        },
        Undo::ParallelRows(it) => Reduction::ParallelRows {
            row: it.row,
            other: it.kept,
        },
        Undo::ParallelColumns(it) => Reduction::ParallelColumns {
            column: it.column,
            other: it.kept,
        },
        Undo::EmptyColumn(it) => Reduction::EmptyColumn { column: it.column },
    }
}

/// The record of an enabled reduction that is applied, none where a number of its change has no room.
///
/// # Errors
/// Memory ran out.
fn made(
    alloc: Global,
    problem: &mut Problem,
    reduction: Reduction,
) -> Result<Option<Undo>, AllocError>
    requires { enabled_on problem.old (at.Reduction reduction) ≡ true }
    ensures { IfOk result (λ undo. Makes problem.old reduction undo problem.new) }
{
    let mut changed = Vec::new(alloc);
    match after(problem, alloc, reduction, Numbers::Fractions, &mut changed) {
        Ok(undo) => Ok(Some(undo)),
        Err(Refusal::NoMemory) => Err(AllocError),
        Err(Refusal::Past | Refusal::NotDecimal) => Ok(None),
    }
}

/// Whether the record of a reduction, which is then let go, is this one.
fn is_record(made: Undo, undo: &Undo) -> bool
    ensures { IsTrue result ↔ (made ≡ undo.now) }
{
    same_record(&made, undo)
}

/// Applies what a record names, if it is a step; else the first part of a step that it fails by.
///
/// # Errors
/// Memory ran out.
fn follow(
    alloc: Global,
    problem: &mut Problem,
    undo: &Undo,
    reads: &[PartRead],
) -> Result<Option<StepFlaw>, AllocError>
    ensures { IfOk result (λ found. Follows problem.old undo.now reads.now found problem.new) }
{
    let reduction = reduction_of(undo);
    if !is_enabled(problem, Instance::Reduction(reduction)) {
        return Ok(Some(StepFlaw::NotEnabled));
    }
    if !is_reading_of(alloc, problem, reduction, reads)? {
        return Ok(Some(StepFlaw::Reading));
    }
    let Some(made) = made(alloc, problem, reduction)? else {
        return Ok(Some(StepFlaw::Past));
    };
    if !is_record(made, undo) {
        return Ok(Some(StepFlaw::Fields));
    }
    Ok(None)
}

/// Applies what the records name, as far as they are steps. The first that is none ends it.
///
/// # Errors
/// Memory ran out.
#[tactic(auto, using(crate::proofs::Following::leads_first, crate::proofs::Following::leads_to_end, crate::proofs::Following::leads_to_stop, crate::proofs::Following::transaction_left))]
pub fn follow_all(
    alloc: Global,
    problem: &mut Problem,
    records: &Records,
) -> Result<Option<Flaw>, AllocError>
    ensures { IfOk result (λ found. FollowsAll problem.old records.now found problem.new) }
{
    records.is_told();
    let transactions = records.transactions();
    let mut rest = records.undos();
    let mut place = 0;
    while let [undo, later @ ..] = rest {
        let Some(transaction) = transactions.get(place) else {
            unreachable!()
        };
        place += 1;
        if let Some(why) = follow(alloc, problem, undo, transaction.reads())? {
            return Ok(Some(Flaw::Step {
                number: place as u64,
                why,
            }));
        }
        rest = later;
    }
    Ok(None)
}
