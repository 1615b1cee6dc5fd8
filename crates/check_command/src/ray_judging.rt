//! What is said of the text of a ray.

ghost use Rattle.std.specs.Prelude.{◌≡◌, ◌<◌, ◌^◌, ℕ, List, length, true, Some, IfOk};
ghost use Rattle.file_ports.specs.Ports.{Moment};
ghost use Rattle.endings.specs.declared.reads.TheConstants.{SOLUTION_LIMIT};
ghost use Rattle.endings.specs.Moments.{Finds, Reads};
ghost use Rattle.lp_model.specs.Meaning.{meaning};
ghost use Rattle.lp_model.specs.Optimality.{Continuous};
ghost use Rattle.lp_model.specs.Writable.{EntriesAscend};
ghost use Rattle.lp_rays.specs.RayData.{IsSized};
ghost use Rattle.ray_text.specs.RayLines.{is_ray_text};
ghost use Rattle.check_command.specs.GivenTexts.{IsRayOf};
ghost use Rattle.check_command.specs.JudgedRay.{SaysRay};

use crate::ray_verdict_text::ray_verdict_ending;
use endings::{Ending, not_continuous_text, solution_fault_line};
use lp_check::first_not_continuous;
use lp_model::Program;
use lp_rays::Ray;
use point_text::SolError;
use ray_check::check_ray;
use ray_text::read_ray;
use std::alloc::{AllocError, Global};

/// What is said of a ray, where no column has to be whole or is semi-continuous.
fn judge_continuous_ray(alloc: Global, program: &Program, ray: &Ray) -> Result<Ending, AllocError>
    requires sized { IsSized (length program.now.rows) (length program.now.columns) ray.now }
    requires few { (length program.now.rows < 2 ^ 32) × (length program.now.columns < 2 ^ 32) }
    requires ascends { EntriesAscend program.now }
    requires continuous { Continuous (meaning program.now) }
    ensures { (name : List ℕ) → (before now : Moment) → Reads SOLUTION_LIMIT (before.told name) (λ text. IsRayOf program.now text ray.now)
        → IfOk result (λ ending. SaysRay program.now name before now ending) }
{
    ray_verdict_ending(alloc, program, check_ray(program, ray))
}

/// What is said of a ray. Where a column has to be whole or is semi-continuous, that is all that is said.
fn judge_ray(alloc: Global, program: &Program, ray: &Ray) -> Result<Ending, AllocError>
    requires sized { IsSized (length program.now.rows) (length program.now.columns) ray.now }
    requires few { (length program.now.rows < 2 ^ 32) × (length program.now.columns < 2 ^ 32) }
    requires ascends { EntriesAscend program.now }
    ensures { (name : List ℕ) → (before now : Moment) → Reads SOLUTION_LIMIT (before.told name) (λ text. IsRayOf program.now text ray.now)
        → IfOk result (λ ending. SaysRay program.now name before now ending) }
{
    match first_not_continuous(program) {
        Some(column) => Ok(Ending::Refused(not_continuous_text(alloc, program, column)?)),
        None => judge_continuous_ray(alloc, program, ray),
    }
}

/// What is said of a ray's text.
pub fn judge_ray_text(alloc: Global, program: &Program, text: &[u8]) -> Result<Ending, AllocError>
    requires few { (length program.now.rows < 2 ^ 32) × (length program.now.columns < 2 ^ 32) }
    requires ascends { EntriesAscend program.now }
    requires starts { is_ray_text text.now ≡ true }
    ensures { (name : List ℕ) → (before now : Moment) → Finds SOLUTION_LIMIT name before now (Some text.now)
        → IfOk result (λ ending. SaysRay program.now name before now ending) }
{
    match read_ray(alloc, text, program) {
        Ok(ray) => judge_ray(alloc, program, &ray),
        Err(SolError::Fault(fault)) => {
            Ok(Ending::SolutionRefused(solution_fault_line(alloc, fault)?))
        }
        Err(SolError::NoMemory) => Err(AllocError),
    }
}
