//! Undoings that give a dual to a row of inequalities.

ghost use Rattle.std.specs.Prelude.{◌≡◌, ◌≢◌, ℕ, ◌<◌, length, true, IfOk, IfErr, IsOk, OnOk};
ghost use Rattle.fractions.specs.Number.{zero_ℚ};
ghost use Rattle.lp_model.specs.Vectors.{vector_of};
ghost use Rattle.lp_model.specs.Sparse.{Ascends, dense, has, sparse_total};
ghost use Rattle.lp_theory.specs.MetEnds.{is_from_row as is_from_row_of};
ghost use Rattle.lp_rows.specs.EmptyRow.{undo_empty_row as empty_row_of};
ghost use Rattle.lp_rows.specs.ForcingRow.{set_for_row};
ghost use Rattle.lp_rows.specs.BoundTightening.{handed_to_row};
ghost use Rattle.undo_records.specs.Fitting.{TermsFit};
ghost use Rattle.undo_records.specs.Sound.{IsSound};
ghost use Rattle.undo_records.specs.declared.undo.Undo.TheVariants as kind;
ghost use Rattle.undo_pairs.specs.Numbers.{IsSized, priced_of};
ghost use Rattle.undo_pairs.specs.LiftPair.{duals_undone, furthest};
ghost use Rattle.postsolve_dual.specs.PairRoom.{DualsFit, HandedFits, RatiosFit, TakenFits};

use crate::numbers::{is_from_row, is_off_bound};
use crate::pair::PairBuf;
use crate::terms::furthest_ratio;
use exact_numbers::{Exact, Numbers};
use fractions::frac::Frac;
use lp_model::{Term, number_at};
use postsolve_primal::{Range, sum_of_terms};
use std::alloc::Global;
use undo_records::{BoundTightening, ParallelRows, Side, SingletonRow};

/// K1, K5: a row that asks nothing has the dual 0.
pub fn undo_empty_row<T: Exact>(pair: &mut PairBuf<T>, row: u32)
    requires { row < length pair.old.duals }
    ensures sized { (m n : ℕ) → IsSized m n pair.old → IsSized m n pair.new }
    ensures lifted { priced_of pair.new ≡ empty_row_of row (priced_of pair.old) }
{
    pair.set_dual(row, T::zero());
}

/// K2: the row takes the reduced cost over where the column holds it at an end that the row made.
///
/// # Errors
/// Where the row takes it over, and the quotient has no room, or there is no memory for it.
pub fn undo_singleton_row<T: Exact>(
    alloc: Global,
    undo: &SingletonRow,
    pair: &mut PairBuf<T>,
) -> Result<(), T::Refusal>
    requires sound { IsSound (length pair.old.duals) (length pair.old.point) (kind.SingletonRow undo.now) }
    requires costs { length pair.old.reduced_costs ≡ length pair.old.point }
    ensures sized { (m n : ℕ) → IsSized m n pair.old → IsSized m n pair.new }
    ensures lifted { OnOk result (priced_of pair.new ≡ duals_undone (kind.SingletonRow undo.now) (priced_of pair.old)) }
    ensures fits { IsOk result → DualsFit T.room (kind.SingletonRow undo.now) (priced_of pair.old) }
    ensures past { IfErr result (λ why. T.is_past why → DualsFit T.room (kind.SingletonRow undo.now) (priced_of pair.old) → ⊥) }
{
    let bounds = Range::between(&undo.lower.get(), &undo.upper.get());
    let multiplier = pair.reduced_cost(undo.column);
    if is_from_row(bounds, pair.value(undo.column), multiplier) {
        let dual = multiplier.over(alloc, &undo.value.get())?;
        pair.set_dual(undo.row, dual);
        pair.set_reduced_cost(undo.column, T::zero());
    } else {
        pair.set_dual(undo.row, T::zero());
    }
    Ok(())
}

/// K7: the row takes as much of the reduced costs that no column is left with one of the wrong sign.
///
/// # Errors
/// Where a quotient, a product or a difference has no room, or there is no memory for it.
pub fn undo_forcing_row<T: Exact>(
    alloc: Global,
    pair: &mut PairBuf<T>,
    row: u32,
    side: Side,
    entries: &[Term],
) -> Result<(), T::Refusal>
    requires row { row < length pair.old.duals }
    requires entries { Ascends 0 (length pair.old.reduced_costs) entries.now }
    ensures sized { (m n : ℕ) → IsSized m n pair.old → IsSized m n pair.new }
    ensures lifted { OnOk result (priced_of pair.new ≡ set_for_row row (dense entries.now) (furthest side zero_ℚ entries.now (vector_of pair.old.reduced_costs)) (priced_of pair.old)) }
    ensures fits { IsOk result → (RatiosFit T.room entries.now (vector_of pair.old.reduced_costs) × TakenFits T.room entries.now (furthest side zero_ℚ entries.now (vector_of pair.old.reduced_costs)) (vector_of pair.old.reduced_costs)) }
    ensures past { IfErr result (λ why. T.is_past why → (RatiosFit T.room entries.now (vector_of pair.old.reduced_costs) × TakenFits T.room entries.now (furthest side zero_ℚ entries.now (vector_of pair.old.reduced_costs)) (vector_of pair.old.reduced_costs)) → ⊥) }
{
    let dual = furthest_ratio(alloc, side, entries, pair.reduced_costs())?;
    pair.take_row(alloc, entries, &dual)?;
    pair.set_dual(row, dual);
    Ok(())
}

/// A column's reduced cost goes to the row that made its bound, and the row's other columns pay for it.
///
/// # Errors
/// Where a number on the way has no room, or there is no memory for it.
#[tactic(auto, using(crate::proofs::Ids::number_there))]
fn hand_to_row<T: Exact>(
    alloc: Global,
    pair: &mut PairBuf<T>,
    row: u32,
    column: u32,
    entries: &[Term],
) -> Result<(), T::Refusal>
    requires row { row < length pair.old.duals }
    requires column { column < length pair.old.reduced_costs }
    requires entries { Ascends 0 (length pair.old.reduced_costs) entries.now }
    requires own { has column entries.now ≡ true }
    ensures sized { (m n : ℕ) → IsSized m n pair.old → IsSized m n pair.new }
    ensures lifted { OnOk result (priced_of pair.new ≡ handed_to_row row column (dense entries.now) (priced_of pair.old)) }
    ensures fits { IsOk result → HandedFits T.room column entries.now (vector_of pair.old.duals row) (vector_of pair.old.reduced_costs) }
    ensures past { IfErr result (λ why. T.is_past why → HandedFits T.room column entries.now (vector_of pair.old.duals row) (vector_of pair.old.reduced_costs) → ⊥) }
{
    let entry = number_at(entries, column as usize);
    let change = pair.reduced_cost(column).over(alloc, &entry)?;
    let dual = pair.dual(row).plus(alloc, &change)?;
    pair.take_row(alloc, entries, &change)?;
    pair.set_dual(row, dual);
    Ok(())
}

/// K8: the row takes the reduced cost over where the column isn't at its old bound.
///
/// # Errors
/// Where the row takes it over, and a number on the way has no room, or there is no memory for it.
pub fn undo_bound_tightening<T: Exact>(
    alloc: Global,
    undo: &BoundTightening,
    pair: &mut PairBuf<T>,
) -> Result<(), T::Refusal>
    requires sound { IsSound (length pair.old.duals) (length pair.old.point) (kind.BoundTightening undo.now) }
    requires costs { length pair.old.reduced_costs ≡ length pair.old.point }
    ensures sized { (m n : ℕ) → IsSized m n pair.old → IsSized m n pair.new }
    ensures lifted { OnOk result (priced_of pair.new ≡ duals_undone (kind.BoundTightening undo.now) (priced_of pair.old)) }
    ensures fits { IsOk result → DualsFit T.room (kind.BoundTightening undo.now) (priced_of pair.old) }
    ensures past { IfErr result (λ why. T.is_past why → DualsFit T.room (kind.BoundTightening undo.now) (priced_of pair.old) → ⊥) }
{
    let multiplier = pair.reduced_cost(undo.column);
    let value = pair.value(undo.column);
    if is_off_bound(undo.side, &undo.bound.get(), value, multiplier) {
        hand_to_row(alloc, pair, undo.row, undo.column, undo.entries.as_slice())
    } else {
        Ok(())
    }
}

/// Whether the side at which the kept row holds its dual came from its multiple. Where the dual is 0 no value is summed.
///
/// # Errors
/// Where the dual isn't 0, and a product or a sum on the way has no room, or there is no memory for it.
#[tactic(auto, using(crate::proofs::Ids::ids_below))]
fn is_from_multiple<T: Exact>(
    alloc: Global,
    sides: Range,
    entries: &[Term],
    point: &Numbers<T>,
    dual: &T,
) -> Result<bool, T::Refusal>
    requires { Ascends 0 (length point.now) entries.now }
    ensures value { IfOk result (λ b. b ≡ is_from_row_of sides.lower sides.upper (sparse_total entries.now (vector_of point.now)) (T.number dual.now)) }
    ensures fits { IsOk result → (T.number dual.now ≢ zero_ℚ → TermsFit T.room zero_ℚ entries.now (vector_of point.now)) }
    ensures past { IfErr result (λ why. T.is_past why → (T.number dual.now ≢ zero_ℚ → TermsFit T.room zero_ℚ entries.now (vector_of point.now)) → ⊥) }
{
    if dual.is_fraction(&Frac::zero()) {
        return Ok(false);
    }
    let value = sum_of_terms(alloc, entries, point)?;
    Ok(is_from_row(sides, &value, dual))
}

/// K15: the deleted row takes the dual of the kept one over where that is held at a side of the deleted one.
///
/// # Errors
/// Where a number on the way has no room, or there is no memory for it.
pub fn undo_parallel_rows<T: Exact>(
    alloc: Global,
    undo: &ParallelRows,
    pair: &mut PairBuf<T>,
) -> Result<(), T::Refusal>
    requires sound { IsSound (length pair.old.duals) (length pair.old.point) (kind.ParallelRows undo.now) }
    requires costs { length pair.old.reduced_costs ≡ length pair.old.point }
    ensures sized { (m n : ℕ) → IsSized m n pair.old → IsSized m n pair.new }
    ensures lifted { OnOk result (priced_of pair.new ≡ duals_undone (kind.ParallelRows undo.now) (priced_of pair.old)) }
    ensures fits { IsOk result → DualsFit T.room (kind.ParallelRows undo.now) (priced_of pair.old) }
    ensures past { IfErr result (λ why. T.is_past why → DualsFit T.room (kind.ParallelRows undo.now) (priced_of pair.old) → ⊥) }
{
    let sides = Range::between(&undo.lower.get(), &undo.upper.get());
    let dual = pair.dual(undo.kept);
    if is_from_multiple(alloc, sides, undo.entries.as_slice(), pair.point(), dual)? {
        let taken = dual.over(alloc, &undo.factor.get())?;
        pair.set_dual(undo.kept, T::zero());
        pair.set_dual(undo.row, taken);
    } else {
        pair.set_dual(undo.row, T::zero());
    }
    Ok(())
}
