//! Undoings that give weights to a column.

ghost use Rattle.std.specs.Prelude.{◌≡◌, ℕ, ◌<◌, length, IsOk, OnOk, ◌↔◌};
ghost use Rattle.fractions.specs.Number.{zero_ℚ, neg_ℚ};
ghost use Rattle.fractions.specs.FracWords.{SumFits};
ghost use Rattle.lp_model.specs.Vectors.{vector_of};
ghost use Rattle.undo_records.specs.Sound.{IsSound};
ghost use Rattle.undo_records.specs.declared.undo.Undo.TheVariants as kind;
ghost use Rattle.lp_rays.specs.Handing.{lower_part, upper_part};
ghost use Rattle.lp_rays.specs.Nets.{NetFits, net_of};
ghost use Rattle.lp_rays.specs.RayData.{IsSized, weights_of};
ghost use Rattle.lp_rays.specs.Steps.{ray_empty_column, ray_parallel_columns, ray_settled};
ghost use Rattle.ray_steps.specs.StepBack.{take_net, take_sides};
ghost use Rattle.ray_steps.specs.RayRoom.{BothFit, SidesFit};

use crate::shares::{EndWeights, parts};
use fractions::Past;
use fractions::frac::Frac;
use lp_rays::{Ray, net};
use undo_records::{FixedColumn, ParallelColumns, RowFate, SlackColumnSingleton};

/// K10, K11: what is left of the column's weights goes to the bound that its sign says.
///
/// # Errors
/// [`Past`] exactly where the difference is.
pub fn settle(column: u32, ray: &mut Ray) -> Result<(), Past>
    requires lower { column < length ray.old.lower_bounds }
    requires upper { column < length ray.old.upper_bounds }
    ensures sized { (m n : ℕ) → IsSized m n ray.old → IsSized m n ray.new }
    ensures lifted { OnOk result (weights_of ray.new ≡ ray_settled column (weights_of ray.old)) }
    ensures fits { IsOk result ↔ SumFits (vector_of ray.old.lower_bounds column) (neg_ℚ (vector_of ray.old.upper_bounds column)) }
{
    let left = ray.lower_bound(column).sub(&ray.upper_bound(column))?;
    if left.is_positive() {
        ray.set_bounds(column, left, Frac::zero());
    } else {
        ray.set_bounds(column, Frac::zero(), left.neg());
    }
    Ok(())
}

/// K17: a column without entries has no weight.
pub fn clear(column: u32, ray: &mut Ray)
    requires lower { column < length ray.old.lower_bounds }
    requires upper { column < length ray.old.upper_bounds }
    ensures sized { (m n : ℕ) → IsSized m n ray.old → IsSized m n ray.new }
    ensures lifted { weights_of ray.new ≡ ray_empty_column column (weights_of ray.old) }
{
    ray.set_bounds(column, Frac::zero(), Frac::zero());
}

/// K3: the column takes the net of its rows.
///
/// # Errors
/// [`Past`] exactly where a number on the way is.
pub fn weigh_fixed_column(undo: &FixedColumn, ray: &mut Ray) -> Result<(), Past>
    requires sound { IsSound (length ray.old.lower_sides) (length ray.old.lower_bounds) (kind.FixedColumn undo.now) }
    requires rows { length ray.old.upper_sides ≡ length ray.old.lower_sides }
    requires columns { length ray.old.upper_bounds ≡ length ray.old.lower_bounds }
    ensures sized { (m n : ℕ) → IsSized m n ray.old → IsSized m n ray.new }
    ensures lifted { OnOk result (weights_of ray.new ≡ take_net undo.now.column (net_of undo.now.entries (weights_of ray.old)) (weights_of ray.old)) }
    ensures fits { IsOk result ↔ NetFits zero_ℚ undo.now.entries (weights_of ray.old) }
{
    let left = net(undo.entries.as_slice(), ray)?;
    if left.is_positive() {
        ray.set_bounds(undo.column, Frac::zero(), left);
    } else {
        ray.set_bounds(undo.column, left.neg(), Frac::zero());
    }
    Ok(())
}

/// K14: where the row was kept, the column takes the weights of its sides.
///
/// # Errors
/// [`Past`] exactly where the row was kept, and a product is.
pub fn weigh_slack_column_singleton(undo: &SlackColumnSingleton, ray: &mut Ray) -> Result<(), Past>
    requires sound { IsSound (length ray.old.lower_sides) (length ray.old.lower_bounds) (kind.SlackColumnSingleton undo.now) }
    requires rows { length ray.old.upper_sides ≡ length ray.old.lower_sides }
    requires columns { length ray.old.upper_bounds ≡ length ray.old.lower_bounds }
    ensures sized { (m n : ℕ) → IsSized m n ray.old → IsSized m n ray.new }
    ensures lifted { OnOk result (weights_of ray.new ≡ take_sides undo.now.fate undo.now.column undo.now.row undo.now.value (weights_of ray.old)) }
    ensures fits { IsOk result ↔ SidesFit undo.now.fate undo.now.row undo.now.value (weights_of ray.old) }
{
    match undo.fate {
        RowFate::Kept => {
            let given = EndWeights {
                lower: ray.upper_side(undo.row),
                upper: ray.lower_side(undo.row),
            };
            let taken = parts(&undo.value.get(), given)?;
            ray.set_bounds(undo.column, taken.lower, taken.upper);
            Ok(())
        }
        RowFate::Dropped => Ok(()),
    }
}

/// K16: the column has its share of the other one's weights.
///
/// # Errors
/// [`Past`] exactly where a product is.
pub fn weigh_parallel_columns(undo: &ParallelColumns, ray: &mut Ray) -> Result<(), Past>
    requires sound { IsSound (length ray.old.lower_sides) (length ray.old.lower_bounds) (kind.ParallelColumns undo.now) }
    requires columns { length ray.old.upper_bounds ≡ length ray.old.lower_bounds }
    ensures sized { (m n : ℕ) → IsSized m n ray.old → IsSized m n ray.new }
    ensures lifted { OnOk result (weights_of ray.new ≡ ray_parallel_columns undo.now.column undo.now.kept undo.now.factor (weights_of ray.old)) }
    ensures fits { IsOk result ↔ BothFit (lower_part undo.now.factor (vector_of ray.old.lower_bounds undo.now.kept) (vector_of ray.old.upper_bounds undo.now.kept)) (upper_part undo.now.factor (vector_of ray.old.lower_bounds undo.now.kept) (vector_of ray.old.upper_bounds undo.now.kept)) }
{
    let given = EndWeights {
        lower: ray.lower_bound(undo.kept),
        upper: ray.upper_bound(undo.kept),
    };
    let taken = parts(&undo.factor.get(), given)?;
    ray.set_bounds(undo.column, taken.lower, taken.upper);
    Ok(())
}
