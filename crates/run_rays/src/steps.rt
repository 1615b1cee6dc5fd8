//! The steps back of a history.

ghost use Rattle.std.specs.Prelude.{◌≡◌, IfOk};
ghost use Rattle.problem_model.specs.Showing.{shown};
ghost use Rattle.presolve_model.specs.Changes.{changed};
ghost use Rattle.presolve_model.specs.Replay.{CanApply, replay, Replays};
ghost use Rattle.presolve_model.specs.Tables.{record_of};
ghost use Rattle.ray_steps.specs.StepBack.{step_of};
ghost use Rattle.run_rays.specs.Lifting.{steps_along};

use crate::ends::moved_ends;
use applying::after;
use fractions::Numbers;
use presolve_model::{Reduction, Refusal};
use ray_steps::RayStep;
use sparse_problem::Problem;
use std::alloc::{AllocError, Global};
use txn_book::RowLists;
use undo_records::Undo;

/// The step back over the reduction with this record, after which the problem stands.
fn step_over(problem: &Problem, undo: Undo) -> RayStep
    ensures { result ≡ step_of undo (shown problem.now) }
{
    let moved = moved_ends(problem, &undo);
    RayStep::new(undo, moved.low, moved.high)
}

/// Applies a reduction that can be applied, and gives the step back over it. A list of a row that its record holds is shared with the records
/// before it.
///
/// # Errors
/// Memory ran out.
fn step_back(
    alloc: Global,
    problem: &mut Problem,
    numbers: Numbers,
    reduction: Reduction,
    lists: &mut RowLists,
) -> Result<RayStep, AllocError>
    requires { CanApply numbers problem.old reduction }
    ensures problem { IfOk result (λ step. problem.new ≡ changed reduction problem.old) }
    ensures step { IfOk result (λ step. step ≡ step_of (record_of reduction problem.old) (shown (changed reduction problem.old))) }
{
    let mut told = Vec::new(alloc);
    match after(problem, alloc, reduction, numbers, &mut told) {
        Ok(undo) => Ok(step_over(problem, lists.share(undo))),
        Err(Refusal::NoMemory) => Err(AllocError),
        Err(Refusal::Past | Refusal::NotDecimal) => unreachable!(),
    }
}

/// Applies a history to a problem, and gives the step back over each of its reductions.
///
/// # Errors
/// Memory ran out.
pub(crate) fn steps_of(
    alloc: Global,
    problem: &mut Problem,
    numbers: Numbers,
    history: &[Reduction],
) -> Result<Vec<RayStep>, AllocError>
    requires { Replays numbers problem.old history.now }
    ensures steps { IfOk result (λ steps. steps.items ≡ steps_along problem.old history.now) }
    ensures problem { IfOk result (λ steps. problem.new ≡ replay problem.old history.now) }
{
    let mut steps = Vec::with_capacity(alloc, history.len())?;
    let mut lists = RowLists::new(alloc, problem.row_count())?;
    let mut rest = history;
    while let [reduction, following @ ..] = rest {
        let step = step_back(alloc, problem, numbers, *reduction, &mut lists)?;
        steps.push(step).map_err(AllocError::from)?;
        rest = following;
    }
    Ok(steps)
}
