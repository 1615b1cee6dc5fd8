//! A reduction applied: its change is prepared, which changes nothing, and then committed.

ghost use Rattle.std.specs.Prelude.{◌≡◌, true, OnErr, OnOk};
ghost use Rattle.fractions.specs.declared.Numbers.{Numbers as NumbersValue};
ghost use Rattle.problem_model.specs.Noted.{AreNoted};
ghost use Rattle.problem_model.specs.Writing.{IsWritable};
ghost use Rattle.presolve_model.specs.After.{AfterAllows};
ghost use Rattle.presolve_model.specs.Enabled.{enabled_on};
ghost use Rattle.presolve_model.specs.declared.instance.Instance.TheVariants as at;
ghost use Rattle.presolve_model.specs.declared.instance.Reduction.{Reduction as ReductionValue};
ghost use Rattle.presolve_model.specs.declared.instance.Reduction.TheVariants.{BoundTightening};
ghost use Rattle.applying.specs.Prepared.{IsPrepared, IsReady};

use crate::admit::{admit, admit_edit};
use fractions::Numbers;
use presolve_model::{Reduction, Side};
use problem_commits::commit;
use problem_model::{Part, Refusal};
use rule_table::activity_rules::bound_tightening::moved_bound;
use rule_table::{change, tightening_by};
use rule_words::Change;
use sparse_problem::Problem;
use std::alloc::Global;
use undo_records::Undo;

/// The change of a tightened bound. Its number is asked before the record is made, which names all entries of the row.
///
/// # Errors
/// Those of [`after`].
fn tightened(
    alloc: Global,
    problem: &Problem,
    row: u32,
    column: u32,
    side: Side,
    numbers: Numbers,
) -> Result<Change, Refusal>
    requires { enabled_on problem.now (at.Reduction (BoundTightening row column side)) ≡ true }
    ensures { IsPrepared numbers (BoundTightening row column side) problem.now result }
{
    let edit = moved_bound(problem, row, column, side);
    match admit_edit(numbers, &edit) {
        Ok(()) => tightening_by(alloc, problem, row, column, side, edit),
        Err(refusal) => Err(refusal),
    }
}

/// The change of a reduction, of which the numbers are asked once it is made.
///
/// # Errors
/// Those of [`after`].
fn admitted(
    alloc: Global,
    problem: &Problem,
    reduction: Reduction,
    numbers: Numbers,
) -> Result<Change, Refusal>
    requires { enabled_on problem.now (at.Reduction reduction) ≡ true }
    ensures { IsPrepared numbers reduction problem.now result }
{
    let change = match change(alloc, problem, reduction) {
        Ok(change) => change,
        Err(refusal) => return Err(refusal),
    };
    match admit(problem, change.edits.as_slice(), numbers) {
        Ok(()) => Ok(change),
        Err(refusal) => Err(refusal),
    }
}

/// The change of an enabled reduction, of which all numbers may stand. Nothing is changed yet: [`commit_prepared`] does that.
///
/// # Errors
/// Those of [`after`].
pub fn prepared(
    alloc: Global,
    problem: &Problem,
    reduction: Reduction,
    numbers: Numbers,
) -> Result<Change, Refusal>
    requires { enabled_on problem.now (at.Reduction reduction) ≡ true }
    ensures { IsPrepared numbers reduction problem.now result }
{
    match reduction {
        Reduction::BoundTightening { row, column, side } => {
            tightened(alloc, problem, row, column, side, numbers)
        }
        _ => admitted(alloc, problem, reduction, numbers),
    }
}

/// Commits a change that [`prepared`] made of this problem, gives its record, and tells the parts that it touches behind those that were told
/// before. All that can fail is computed before anything is changed. A problem whose numbers can be written stays one.
///
/// # Errors
/// `NoMemory`. The problem, and what was told, is then as it was.
pub fn commit_prepared(
    problem: &mut Problem,
    alloc: Global,
    change: Change,
    changed: &mut Vec<Part>,
) -> Result<Undo, Refusal>
    requires { (numbers : NumbersValue) × (r : ReductionValue) × IsReady numbers r problem.old change }
    ensures answer { (numbers : NumbersValue) (r : ReductionValue) → IsReady numbers r problem.old change → AfterAllows numbers r problem.old result problem.new }
    ensures writable { (numbers : NumbersValue) (r : ReductionValue) → IsReady numbers r problem.old change → IsWritable numbers problem.old → IsWritable numbers problem.new }
    ensures noted { OnOk result (AreNoted problem.old problem.new changed.old.items changed.new.items) }
    ensures untold { OnErr result (changed.new.items ≡ changed.old.items) }
{
    problem.is_sparse();
    match commit(problem, alloc, change.edits.as_slice(), changed) {
        Ok(()) => Ok(change.undo),
        Err(_) => Err(Refusal::NoMemory),
    }
}

/// Applies an enabled reduction, gives its record, and tells the parts that it touches behind those that were told before. All that can fail
/// is computed before anything is changed. A problem whose numbers can be written stays one.
///
/// # Errors
/// `Past` where a number that the change computes, kept or not, is past the range or a new finite bound is 10^20 or more in magnitude; else
/// `NotDecimal` where, without fractions, a new side, bound or width is no decimal number; and `NoMemory`. The problem, and what was told, is
/// then as it was.
pub fn after(
    problem: &mut Problem,
    alloc: Global,
    reduction: Reduction,
    numbers: Numbers,
    changed: &mut Vec<Part>,
) -> Result<Undo, Refusal>
    requires { enabled_on problem.old (at.Reduction reduction) ≡ true }
    ensures answer { AfterAllows numbers reduction problem.old result problem.new }
    ensures writable { IsWritable numbers problem.old → IsWritable numbers problem.new }
    ensures noted { OnOk result (AreNoted problem.old problem.new changed.old.items changed.new.items) }
    ensures untold { OnErr result (changed.new.items ≡ changed.old.items) }
{
    let change = prepared(alloc, problem, reduction, numbers)?;
    commit_prepared(problem, alloc, change, changed)
}
