//! Undoings that give a reduced cost to a deleted column.

ghost use Rattle.std.specs.Prelude.{◌≡◌, ℕ, ◌<◌, length, IfErr, IsOk, OnOk};
ghost use Rattle.undo_records.specs.Sound.{IsSound};
ghost use Rattle.undo_records.specs.declared.undo.Undo.TheVariants as kind;
ghost use Rattle.undo_pairs.specs.Numbers.{IsSized, priced_of};
ghost use Rattle.undo_pairs.specs.LiftPair.{duals_undone, with_price};
ghost use Rattle.postsolve_dual.specs.PairRoom.{DualsFit};

use crate::pair::PairBuf;
use crate::terms::cost_left;
use exact_numbers::Exact;
use fractions::frac::Frac;
use std::alloc::Global;
use undo_records::{FixedColumn, ParallelColumns, RowFate, SlackColumnSingleton};

/// K3: the column has what the duals leave of its cost.
///
/// # Errors
/// Where a number on the way has no room, or there is no memory for it.
pub fn undo_fixed_column<T: Exact>(
    alloc: Global,
    undo: &FixedColumn,
    pair: &mut PairBuf<T>,
) -> Result<(), T::Refusal>
    requires sound { IsSound (length pair.old.duals) (length pair.old.point) (kind.FixedColumn undo.now) }
    requires costs { length pair.old.reduced_costs ≡ length pair.old.point }
    ensures sized { (m n : ℕ) → IsSized m n pair.old → IsSized m n pair.new }
    ensures lifted { OnOk result (priced_of pair.new ≡ duals_undone (kind.FixedColumn undo.now) (priced_of pair.old)) }
    ensures fits { IsOk result → DualsFit T.room (kind.FixedColumn undo.now) (priced_of pair.old) }
    ensures past { IfErr result (λ why. T.is_past why → DualsFit T.room (kind.FixedColumn undo.now) (priced_of pair.old) → ⊥) }
{
    let left = cost_left(
        alloc,
        &undo.cost.get(),
        undo.entries.as_slice(),
        pair.duals(),
    )?;
    pair.set_reduced_cost(undo.column, left);
    Ok(())
}

/// K13, and K14 where the row was deleted: the row's dual is the column's price, and nothing is left of the column's cost.
pub fn undo_priced_column<T: Exact>(pair: &mut PairBuf<T>, column: u32, row: u32, price: &Frac)
    requires column { column < length pair.old.reduced_costs }
    requires row { row < length pair.old.duals }
    ensures sized { (m n : ℕ) → IsSized m n pair.old → IsSized m n pair.new }
    ensures lifted { priced_of pair.new ≡ with_price row column price.now (priced_of pair.old) }
{
    pair.set_dual(row, T::of(price));
    pair.set_reduced_cost(column, T::zero());
}

/// K14 where the row was kept: the column has what the row's dual leaves of the cost 0, and then the dual grows by the price. Where it
/// was deleted the dual is the price.
///
/// # Errors
/// Where the row was kept, and the product or the sum has no room, or there is no memory for it.
pub fn undo_slack_column_singleton<T: Exact>(
    alloc: Global,
    undo: &SlackColumnSingleton,
    pair: &mut PairBuf<T>,
) -> Result<(), T::Refusal>
    requires sound { IsSound (length pair.old.duals) (length pair.old.point) (kind.SlackColumnSingleton undo.now) }
    requires costs { length pair.old.reduced_costs ≡ length pair.old.point }
    ensures sized { (m n : ℕ) → IsSized m n pair.old → IsSized m n pair.new }
    ensures lifted { OnOk result (priced_of pair.new ≡ duals_undone (kind.SlackColumnSingleton undo.now) (priced_of pair.old)) }
    ensures fits { IsOk result → DualsFit T.room (kind.SlackColumnSingleton undo.now) (priced_of pair.old) }
    ensures past { IfErr result (λ why. T.is_past why → DualsFit T.room (kind.SlackColumnSingleton undo.now) (priced_of pair.old) → ⊥) }
{
    match undo.fate {
        RowFate::Kept => {
            let before = pair.dual(undo.row);
            let mut left = before.scaled(alloc, &undo.value.get())?;
            let dual = before.plus(alloc, &T::of(&undo.price.get()))?;
            left.negate();
            pair.set_reduced_cost(undo.column, left);
            pair.set_dual(undo.row, dual);
        }
        RowFate::Dropped => undo_priced_column(pair, undo.column, undo.row, &undo.price.get()),
    }
    Ok(())
}

/// K16: the deleted column has the factor times the reduced cost of the kept one.
///
/// # Errors
/// Where the product has no room, or there is no memory for it.
pub fn undo_parallel_columns<T: Exact>(
    alloc: Global,
    undo: &ParallelColumns,
    pair: &mut PairBuf<T>,
) -> Result<(), T::Refusal>
    requires sound { IsSound (length pair.old.duals) (length pair.old.point) (kind.ParallelColumns undo.now) }
    requires costs { length pair.old.reduced_costs ≡ length pair.old.point }
    ensures sized { (m n : ℕ) → IsSized m n pair.old → IsSized m n pair.new }
    ensures lifted { OnOk result (priced_of pair.new ≡ duals_undone (kind.ParallelColumns undo.now) (priced_of pair.old)) }
    ensures fits { IsOk result → DualsFit T.room (kind.ParallelColumns undo.now) (priced_of pair.old) }
    ensures past { IfErr result (λ why. T.is_past why → DualsFit T.room (kind.ParallelColumns undo.now) (priced_of pair.old) → ⊥) }
{
    let product = pair
        .reduced_cost(undo.kept)
        .scaled(alloc, &undo.factor.get())?;
    pair.set_reduced_cost(undo.column, product);
    Ok(())
}
