//! The lift of a ray.

ghost use Rattle.std.specs.Prelude.{◌≡◌, ℕ, length, All, IfErr, IsOk, OnOk, ◌↔◌};
ghost use Rattle.undo_records.specs.Sound.{IsSound};
ghost use Rattle.lp_rays.specs.RayData.{IsSized, weights_of};
ghost use Rattle.ray_steps.specs.StepBack.{lift_ray, weighed};
ghost use Rattle.ray_steps.specs.RayRoom.{LiftFits, RayStopsAt, WeighedFits};

use crate::weighing::weigh;
use fractions::Past;
use lp_rays::Ray;
use postsolve_primal::Stop;
use ray_steps::RayStep;

/// Undoes one step. After [`Past`] the ray is spent.
///
/// # Errors
/// [`Past`] exactly where a number that the undoing computes is.
fn undo_step(step: &RayStep, ray: &mut Ray) -> Result<(), Past>
    requires sound { IsSound (length ray.old.lower_sides) (length ray.old.lower_bounds) step.now.undo }
    requires rows { length ray.old.upper_sides ≡ length ray.old.lower_sides }
    requires columns { length ray.old.upper_bounds ≡ length ray.old.lower_bounds }
    ensures sized { (m n : ℕ) → IsSized m n ray.old → IsSized m n ray.new }
    ensures lifted { OnOk result (weights_of ray.new ≡ weighed step.now.undo step.now.low step.now.high (weights_of ray.old)) }
    ensures fits { IsOk result ↔ WeighedFits step.now.undo step.now.low step.now.high (weights_of ray.old) }
{
    weigh(step.undo(), step.low(), step.high(), ray)
}

/// Undoes steps, the last one first. After an error the ray is spent.
///
/// # Errors
/// [`Stop`] exactly where a number that undoing computes is past the range, with the first step, from the last on, that has one.
pub fn lift(steps: &[RayStep], ray: &mut Ray) -> Result<(), Stop>
    requires sound { All (λ step. IsSound (length ray.old.lower_sides) (length ray.old.lower_bounds) step.undo) steps.now }
    requires rows { length ray.old.upper_sides ≡ length ray.old.lower_sides }
    requires columns { length ray.old.upper_bounds ≡ length ray.old.lower_bounds }
    ensures sized { (m n : ℕ) → IsSized m n ray.old → IsSized m n ray.new }
    ensures lifted { OnOk result (weights_of ray.new ≡ lift_ray steps.now (weights_of ray.old)) }
    ensures fits { IsOk result ↔ LiftFits steps.now (weights_of ray.old) }
    ensures stopped { IfErr result (λ stop. RayStopsAt steps.now (weights_of ray.old) stop.at) }
{
    let mut left = steps.len();
    while left > 0 {
        let step = &steps[left - 1];
        match undo_step(step, ray) {
            Ok(()) => left -= 1,
            Err(Past) => return Err(Stop { at: left }),
        }
    }
    Ok(())
}
