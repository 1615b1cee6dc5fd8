//! Undoings that give weights to a deleted row.

ghost use Rattle.std.specs.Prelude.{◌≡◌, ℕ, ◌<◌, length, IsOk, OnOk, ◌↔◌};
ghost use Rattle.undo_records.specs.Sound.{IsSound};
ghost use Rattle.undo_records.specs.declared.undo.Undo.TheVariants as kind;
ghost use Rattle.lp_rays.specs.RayData.{IsSized, weights_of};
ghost use Rattle.ray_steps.specs.StepBack.{weighed};
ghost use Rattle.ray_steps.specs.RayRoom.{WeighedFits};

use crate::shares::{EndWeights, handed, kept, shares};
use fractions::Past;
use lp_rays::Ray;
use undo_records::{ParallelRows, SingletonRow};

/// K2: the row takes what came from it.
///
/// # Errors
/// [`Past`] exactly where a quotient is.
pub fn weigh_singleton_row(
    undo: &SingletonRow,
    low: bool,
    high: bool,
    ray: &mut Ray,
) -> Result<(), Past>
    requires sound { IsSound (length ray.old.lower_sides) (length ray.old.lower_bounds) (kind.SingletonRow undo.now) }
    requires rows { length ray.old.upper_sides ≡ length ray.old.lower_sides }
    requires columns { length ray.old.upper_bounds ≡ length ray.old.lower_bounds }
    ensures sized { (m n : ℕ) → IsSized m n ray.old → IsSized m n ray.new }
    ensures lifted { OnOk result (weights_of ray.new ≡ weighed (kind.SingletonRow undo.now) low high (weights_of ray.old)) }
    ensures fits { IsOk result ↔ WeighedFits (kind.SingletonRow undo.now) low high (weights_of ray.old) }
{
    let lower = ray.lower_bound(undo.column);
    let upper = ray.upper_bound(undo.column);
    let given = EndWeights {
        lower: handed(low, lower),
        upper: handed(high, upper),
    };
    let taken = shares(&undo.value.get(), given)?;
    ray.set_sides(undo.row, taken.lower, taken.upper);
    ray.set_bounds(undo.column, kept(low, lower), kept(high, upper));
    Ok(())
}

/// K15: the row takes what came from it.
///
/// # Errors
/// [`Past`] exactly where a quotient is.
pub fn weigh_parallel_rows(
    undo: &ParallelRows,
    low: bool,
    high: bool,
    ray: &mut Ray,
) -> Result<(), Past>
    requires sound { IsSound (length ray.old.lower_sides) (length ray.old.lower_bounds) (kind.ParallelRows undo.now) }
    requires rows { length ray.old.upper_sides ≡ length ray.old.lower_sides }
    ensures sized { (m n : ℕ) → IsSized m n ray.old → IsSized m n ray.new }
    ensures lifted { OnOk result (weights_of ray.new ≡ weighed (kind.ParallelRows undo.now) low high (weights_of ray.old)) }
    ensures fits { IsOk result ↔ WeighedFits (kind.ParallelRows undo.now) low high (weights_of ray.old) }
{
    let lower = ray.lower_side(undo.kept);
    let upper = ray.upper_side(undo.kept);
    let given = EndWeights {
        lower: handed(low, lower),
        upper: handed(high, upper),
    };
    let taken = shares(&undo.factor.get(), given)?;
    ray.set_sides(undo.kept, kept(low, lower), kept(high, upper));
    ray.set_sides(undo.row, taken.lower, taken.upper);
    Ok(())
}
