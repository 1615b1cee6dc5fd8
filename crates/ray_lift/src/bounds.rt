//! Undoings of bounds that a row implied.

ghost use Rattle.std.specs.Prelude.{◌≡◌, ◌≢◌, ℕ, ◌<◌, length, Some, IsOk, OnOk, ◌↔◌};
ghost use Rattle.fractions.specs.Number.{zero_ℚ};
ghost use Rattle.fractions.specs.FracWords.{SumFits};
ghost use Rattle.lp_model.specs.Vectors.{vector_of};
ghost use Rattle.lp_model.specs.Sparse.{Ascends, dense};
ghost use Rattle.undo_records.specs.Sound.{IsSound};
ghost use Rattle.undo_records.specs.declared.side.Side.TheVariants.{Lower, Upper};
ghost use Rattle.undo_records.specs.declared.undo.Undo.TheVariants as kind;
ghost use Rattle.lp_rays.specs.RayData.{IsSized, weights_of};
ghost use Rattle.lp_rays.specs.Steps.{pull_row as pull_row_of, push_row as push_row_of, ray_lower_bound, ray_upper_bound};
ghost use Rattle.ray_steps.specs.declared.shift.Shift.TheVariants.{Pull, Push};
ghost use Rattle.ray_steps.specs.Shifts.{ShiftsFit};
ghost use Rattle.ray_steps.specs.StepBack.{hand_bound};
ghost use Rattle.ray_steps.specs.RayRoom.{BoundFits};

use crate::shares::EndWeights;
use crate::shifting::shift_columns;
use fractions::Past;
use fractions::frac::Frac;
use lp_model::{Term, number_at};
use lp_rays::Ray;
use ray_steps::Shift;
use undo_records::{BoundTightening, Side};

/// A row takes weight at its lower side from its columns but one, which gets weights of its own.
///
/// # Errors
/// [`Past`] exactly where a number on the way is.
fn push_row(
    row: u32,
    column: u32,
    entries: &[Term],
    taken: &Frac,
    own: EndWeights,
    ray: &mut Ray,
) -> Result<(), Past>
    requires row { row < length ray.old.lower_sides }
    requires column { column < length ray.old.lower_bounds }
    requires entries { Ascends 0 (length ray.old.lower_bounds) entries.now }
    requires columns { length ray.old.upper_bounds ≡ length ray.old.lower_bounds }
    ensures sized { (m n : ℕ) → IsSized m n ray.old → IsSized m n ray.new }
    ensures lifted { OnOk result (weights_of ray.new ≡ push_row_of row column (dense entries.now) taken.now own.lower own.upper (weights_of ray.old)) }
    ensures fits { IsOk result ↔ (SumFits (vector_of ray.old.lower_sides row) taken.now × ShiftsFit Push (Some column) entries.now taken.now (weights_of ray.old)) }
{
    let side = ray.lower_side(row).add(taken)?;
    shift_columns(Shift::Push, Some(column), entries, taken, ray)?;
    ray.set_bounds(column, own.lower, own.upper);
    ray.set_lower_side(row, side);
    Ok(())
}

/// A row takes weight at its upper side.
///
/// # Errors
/// [`Past`] exactly where a number on the way is.
fn pull_row(
    row: u32,
    column: u32,
    entries: &[Term],
    taken: &Frac,
    own: EndWeights,
    ray: &mut Ray,
) -> Result<(), Past>
    requires row { row < length ray.old.upper_sides }
    requires column { column < length ray.old.lower_bounds }
    requires entries { Ascends 0 (length ray.old.lower_bounds) entries.now }
    requires columns { length ray.old.upper_bounds ≡ length ray.old.lower_bounds }
    ensures sized { (m n : ℕ) → IsSized m n ray.old → IsSized m n ray.new }
    ensures lifted { OnOk result (weights_of ray.new ≡ pull_row_of row column (dense entries.now) taken.now own.lower own.upper (weights_of ray.old)) }
    ensures fits { IsOk result ↔ (SumFits (vector_of ray.old.upper_sides row) taken.now × ShiftsFit Pull (Some column) entries.now taken.now (weights_of ray.old)) }
{
    let side = ray.upper_side(row).add(taken)?;
    shift_columns(Shift::Pull, Some(column), entries, taken, ray)?;
    ray.set_bounds(column, own.lower, own.upper);
    ray.set_upper_side(row, side);
    Ok(())
}

/// K8, a lower bound: its weight goes back to the row and to what bounded its rest.
///
/// # Errors
/// [`Past`] exactly where a number on the way is.
#[tactic(auto, using(crate::proofs::Factors::negative_not))]
fn weigh_lower_bound(
    row: u32,
    column: u32,
    entries: &[Term],
    entry: &Frac,
    ray: &mut Ray,
) -> Result<(), Past>
    requires entry { entry.now ≡ dense entries.now column }
    requires number { entry.now ≢ zero_ℚ }
    requires row { row < length ray.old.lower_sides }
    requires column { column < length ray.old.lower_bounds }
    requires entries { Ascends 0 (length ray.old.lower_bounds) entries.now }
    requires rows { length ray.old.upper_sides ≡ length ray.old.lower_sides }
    requires columns { length ray.old.upper_bounds ≡ length ray.old.lower_bounds }
    ensures sized { (m n : ℕ) → IsSized m n ray.old → IsSized m n ray.new }
    ensures lifted { OnOk result (weights_of ray.new ≡ ray_lower_bound row column (dense entries.now) (weights_of ray.old)) }
    ensures fits { IsOk result ↔ BoundFits Lower row column entries.now (weights_of ray.old) }
{
    let weight = ray.lower_bound(column);
    let own = EndWeights {
        lower: Frac::zero(),
        upper: ray.upper_bound(column),
    };
    if entry.is_positive() {
        let taken = weight.div(entry)?;
        push_row(row, column, entries, &taken, own, ray)
    } else {
        let taken = weight.div(&entry.neg())?;
        pull_row(row, column, entries, &taken, own, ray)
    }
}

/// K8, an upper bound.
///
/// # Errors
/// [`Past`] exactly where a number on the way is.
#[tactic(auto, using(crate::proofs::Factors::negative_not))]
fn weigh_upper_bound(
    row: u32,
    column: u32,
    entries: &[Term],
    entry: &Frac,
    ray: &mut Ray,
) -> Result<(), Past>
    requires entry { entry.now ≡ dense entries.now column }
    requires number { entry.now ≢ zero_ℚ }
    requires row { row < length ray.old.lower_sides }
    requires column { column < length ray.old.lower_bounds }
    requires entries { Ascends 0 (length ray.old.lower_bounds) entries.now }
    requires rows { length ray.old.upper_sides ≡ length ray.old.lower_sides }
    requires columns { length ray.old.upper_bounds ≡ length ray.old.lower_bounds }
    ensures sized { (m n : ℕ) → IsSized m n ray.old → IsSized m n ray.new }
    ensures lifted { OnOk result (weights_of ray.new ≡ ray_upper_bound row column (dense entries.now) (weights_of ray.old)) }
    ensures fits { IsOk result ↔ BoundFits Upper row column entries.now (weights_of ray.old) }
{
    let weight = ray.upper_bound(column);
    let own = EndWeights {
        lower: ray.lower_bound(column),
        upper: Frac::zero(),
    };
    if entry.is_positive() {
        let taken = weight.div(entry)?;
        pull_row(row, column, entries, &taken, own, ray)
    } else {
        let taken = weight.div(&entry.neg())?;
        push_row(row, column, entries, &taken, own, ray)
    }
}

/// K8: the weight of the bound goes back to the row that implied it and to what bounded the rest of the row.
///
/// # Errors
/// [`Past`] exactly where a number on the way is.
#[tactic(auto, using(crate::proofs::Factors::number_there))]
pub fn weigh_bound_tightening(undo: &BoundTightening, ray: &mut Ray) -> Result<(), Past>
    requires sound { IsSound (length ray.old.lower_sides) (length ray.old.lower_bounds) (kind.BoundTightening undo.now) }
    requires rows { length ray.old.upper_sides ≡ length ray.old.lower_sides }
    requires columns { length ray.old.upper_bounds ≡ length ray.old.lower_bounds }
    ensures sized { (m n : ℕ) → IsSized m n ray.old → IsSized m n ray.new }
    ensures lifted { OnOk result (weights_of ray.new ≡ hand_bound undo.now.side undo.now.row undo.now.column undo.now.entries (weights_of ray.old)) }
    ensures fits { IsOk result ↔ BoundFits undo.now.side undo.now.row undo.now.column undo.now.entries (weights_of ray.old) }
{
    let entries = undo.entries.as_slice();
    let entry = number_at(entries, undo.column as usize);
    match undo.side {
        Side::Lower => weigh_lower_bound(undo.row, undo.column, entries, &entry, ray),
        Side::Upper => weigh_upper_bound(undo.row, undo.column, entries, &entry, ray),
    }
}
