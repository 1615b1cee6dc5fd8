//! The undoing of one record.

ghost use Rattle.std.specs.Prelude.{◌≡◌, ℕ, length, IsOk, OnOk, ◌↔◌};
ghost use Rattle.undo_records.specs.Sound.{IsSound};
ghost use Rattle.lp_rays.specs.RayData.{IsSized, weights_of};
ghost use Rattle.ray_steps.specs.StepBack.{weighed};
ghost use Rattle.ray_steps.specs.RayRoom.{WeighedFits};

use crate::bounds::weigh_bound_tightening;
use crate::columns::{
    clear, settle, weigh_fixed_column, weigh_parallel_columns, weigh_slack_column_singleton,
};
use crate::equations::weigh_doubleton_equation;
use crate::forcing::weigh_forcing_row;
use crate::rows::{weigh_parallel_rows, weigh_singleton_row};
use fractions::Past;
use lp_rays::Ray;
use undo_records::Undo;

/// Undoes a record on the weights of a ray. `low` and `high` say whether the lower and the upper end that its reduction met with others
/// moved. After [`Past`] the ray is spent.
///
/// # Errors
/// [`Past`] exactly where a number that the undoing computes is.
pub fn weigh(undo: &Undo, low: bool, high: bool, ray: &mut Ray) -> Result<(), Past>
    requires sound { IsSound (length ray.old.lower_sides) (length ray.old.lower_bounds) undo.now }
    requires rows { length ray.old.upper_sides ≡ length ray.old.lower_sides }
    requires columns { length ray.old.upper_bounds ≡ length ray.old.lower_bounds }
    ensures sized { (m n : ℕ) → IsSized m n ray.old → IsSized m n ray.new }
    ensures lifted { OnOk result (weights_of ray.new ≡ weighed undo.now low high (weights_of ray.old)) }
    ensures fits { IsOk result ↔ WeighedFits undo.now low high (weights_of ray.old) }
{
    match undo {
        Undo::SingletonRow(record) => weigh_singleton_row(record, low, high, ray),
        Undo::FixedColumn(record) => weigh_fixed_column(record, ray),
        Undo::ForcingRow(record) => weigh_forcing_row(record, ray),
        Undo::BoundTightening(record) => weigh_bound_tightening(record, ray),
        Undo::DualFixing(record) => settle(record.column, ray),
        Undo::DominatedColumn(record) => settle(record.column, ray),
        Undo::DoubletonEquation(record) => weigh_doubleton_equation(record, low, high, ray),
        Undo::SlackColumnSingleton(record) => weigh_slack_column_singleton(record, ray),
        Undo::ParallelRows(record) => weigh_parallel_rows(record, low, high, ray),
        Undo::ParallelColumns(record) => weigh_parallel_columns(record, ray),
        Undo::EmptyColumn(record) => {
            clear(record.column, ray);
            Ok(())
        }
        _ => Ok(()),
    }
}
