//! The ray of a run.

ghost use Rattle.std.specs.Prelude.{◌≡◌, ◌<◌, ◌^◌, ℕ, length, true, IfOk, IsErrOf};
ghost use Rattle.lp_model.specs.Meaning.{meaning};
ghost use Rattle.lp_model.specs.Optimality.{Continuous};
ghost use Rattle.lp_model.specs.Writable.{EntriesAscend};
ghost use Rattle.lp_rays.specs.Ray.{Ray as IsRay};
ghost use Rattle.lp_rays.specs.RayData.{IsSized, weights_of};
ghost use Rattle.problem_model.specs.Programs.{IsProblemOf};
ghost use Rattle.problem_model.specs.Sparse.{Sparse};
ghost use Rattle.presolve_model.specs.Meanings.{says_no_point};
ghost use Rattle.ray_steps.specs.RayRoom.{LiftFits, RayStopsAt};
ghost use Rattle.run_rays.specs.Lifting.{IsEndOf, last_weights, ray_of, steps_along};
ghost use Rattle.run_rays.specs.declared.of_run.RayError.TheVariants.{NoMemory, Past};

use crate::steps::steps_of;
use fractions::Numbers;
use lp_model::Program;
use lp_rays::Ray;
use presolve_model::{Reduction, Verdict};
use ray_lift::lift;
use ray_starts::start;
use sparse_problem::Problem;
use std::alloc::{AllocError, Global};

/// Why a run has no ray.
#[derive(Clone, Copy, Debug, PartialEq, Eq)]
pub enum RayError {
    /// A number that undoing this record computes is past the range, and none of the records after it. The first record is number 1.
    Past { at: usize },
    /// Memory ran out.
    NoMemory,
}

impl From<AllocError> for RayError {
    ghost from_gives = { λ _ e. e ≡ NoMemory };

    fn from(_error: AllocError) -> RayError {
        RayError::NoMemory
    }
}

/// The ray of a program that has no feasible point, by the history and the verdict of its run: weights of rows and bounds, in original ids,
/// that prove it.
///
/// # Errors
/// [`RayError::Past`] exactly where a number of the lift is past the range, with the first record, from the last one on, that has one.
pub fn ray(
    alloc: Global,
    program: &Program,
    numbers: Numbers,
    history: &[Reduction],
    verdict: Verdict,
) -> Result<Ray, RayError>
    requires few_rows { length program.now.rows < 2 ^ 32 }
    requires few_columns { length program.now.columns < 2 ^ 32 }
    requires ascends { EntriesAscend program.now }
    requires continuous { Continuous (meaning program.now) }
    requires end { IsEndOf numbers program.now history.now verdict }
    requires infeasible { says_no_point verdict ≡ true }
    ensures sized { IfOk result (IsSized (length program.now.rows) (length program.now.columns)) }
    ensures ray { IfOk result (λ ray. IsRay (meaning program.now) (weights_of ray)) }
    ensures value { (p : Sparse) → IsProblemOf program.now p → IfOk result (λ ray. weights_of ray ≡ ray_of p history.now verdict) }
    ensures fits { (p : Sparse) → IsProblemOf program.now p → IfOk result (λ ray. LiftFits (steps_along p history.now) (last_weights p history.now verdict)) }
    ensures past { (p : Sparse) (at : ℕ) → IsProblemOf program.now p → IsErrOf result (Past at) → RayStopsAt (steps_along p history.now) (last_weights p history.now verdict) at }
{
    let mut problem = Problem::from_program(alloc, program)?;
    let steps = steps_of(alloc, &mut problem, numbers, history)?;
    let mut ray = start(alloc, &problem, verdict)?;
    match lift(steps.as_slice(), &mut ray) {
        Ok(()) => Ok(ray),
        Err(stop) => Err(RayError::Past { at: stop.at }),
    }
}
