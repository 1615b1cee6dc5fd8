//! The undoing of one record.

ghost use Rattle.std.specs.Prelude.{◌≡◌, ℕ, length, IfErr, IsOk, OnOk};
ghost use Rattle.undo_records.specs.Sound.{IsSound};
ghost use Rattle.undo_pairs.specs.Numbers.{IsSized, priced_of};
ghost use Rattle.undo_pairs.specs.LiftPair.{duals_undone, undone_pair};
ghost use Rattle.postsolve_dual.specs.PairRoom.{DualsFit, PairFits};

use crate::columns::{
    undo_fixed_column, undo_parallel_columns, undo_priced_column, undo_slack_column_singleton,
};
use crate::equations::undo_doubleton_equation;
use crate::pair::PairBuf;
use crate::rows::{
    undo_bound_tightening, undo_empty_row, undo_forcing_row, undo_parallel_rows, undo_singleton_row,
};
use exact_numbers::Exact;
use std::alloc::Global;
use undo_records::Undo;

/// Undoes a record on duals and reduced costs, after the point.
fn undo_duals<T: Exact>(alloc: Global, undo: &Undo, pair: &mut PairBuf<T>) -> Result<(), T::Refusal>
    requires sound { IsSound (length pair.old.duals) (length pair.old.point) undo.now }
    requires costs { length pair.old.reduced_costs ≡ length pair.old.point }
    ensures sized { (m n : ℕ) → IsSized m n pair.old → IsSized m n pair.new }
    ensures lifted { OnOk result (priced_of pair.new ≡ duals_undone undo.now (priced_of pair.old)) }
    ensures fits { IsOk result → DualsFit T.room undo.now (priced_of pair.old) }
    ensures past { IfErr result (λ why. T.is_past why → DualsFit T.room undo.now (priced_of pair.old) → ⊥) }
{
    match undo {
        Undo::EmptyRow(record) => {
            undo_empty_row(pair, record.row);
            Ok(())
        }
        Undo::RedundantRow(record) => {
            undo_empty_row(pair, record.row);
            Ok(())
        }
        Undo::SingletonRow(record) => undo_singleton_row(alloc, record, pair),
        Undo::FixedColumn(record) => undo_fixed_column(alloc, record, pair),
        Undo::ForcingRow(record) => {
            undo_forcing_row(
                alloc,
                pair,
                record.row,
                record.side,
                record.entries.as_slice(),
            )
        }
        Undo::BoundTightening(record) => undo_bound_tightening(alloc, record, pair),
        Undo::DoubletonEquation(record) => undo_doubleton_equation(alloc, record, pair),
        Undo::FreeColumnSingleton(record) => {
            undo_priced_column(pair, record.column, record.row, &record.price.get());
            Ok(())
        }
        Undo::SlackColumnSingleton(record) => undo_slack_column_singleton(alloc, record, pair),
        Undo::ParallelRows(record) => undo_parallel_rows(alloc, record, pair),
        Undo::ParallelColumns(record) => undo_parallel_columns(alloc, record, pair),
        _ => Ok(()),
    }
}

/// Undoes one record, on the point first. After an error the pair is spent.
///
/// # Errors
/// Where a number that the undoing computes has no room, or there is no memory for it.
#[tactic(auto, using(undo_records::proofs::SoundRecords::sound_can))]
pub fn undo_pair<T: Exact>(
    alloc: Global,
    undo: &Undo,
    pair: &mut PairBuf<T>,
) -> Result<(), T::Refusal>
    requires sound { IsSound (length pair.old.duals) (length pair.old.point) undo.now }
    requires costs { length pair.old.reduced_costs ≡ length pair.old.point }
    ensures sized { (m n : ℕ) → IsSized m n pair.old → IsSized m n pair.new }
    ensures lifted { OnOk result (priced_of pair.new ≡ undone_pair undo.now (priced_of pair.old)) }
    ensures fits { IsOk result → PairFits T.room undo.now (priced_of pair.old) }
    ensures past { IfErr result (λ why. T.is_past why → PairFits T.room undo.now (priced_of pair.old) → ⊥) }
{
    pair.undo_point(alloc, undo)?;
    undo_duals(alloc, undo, pair)
}
