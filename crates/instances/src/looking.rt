//! The proposal of one instance.

ghost use Rattle.std.specs.Prelude.{◌≡◌, false, true, IfNone, IfOk, IfSome};
ghost use Rattle.presolve_model.specs.Enabled.{enabled_on};
ghost use Rattle.presolve_model.specs.Scans.{proposal_of};

use crate::proposal::Proposal;
use crate::reads::reading_for;
use presolve_model::Instance;
use rule_table::is_enabled;
use sparse_problem::Problem;
use std::alloc::{AllocError, Global};

/// An instance with what it reads, if it is enabled, as one that was found on version 0. How often a bound has been tightened is not asked.
///
/// # Errors
/// Memory ran out.
pub fn look(
    alloc: Global,
    problem: &Problem,
    instance: Instance,
) -> Result<Option<Proposal>, AllocError>
    ensures some { IfOk result (λ found. IfSome found (λ proposal. (enabled_on problem.now instance ≡ true) × (proposal ≡ proposal_of problem.now 0 instance))) }
    ensures none { IfOk result (λ found. IfNone found (enabled_on problem.now instance ≡ false)) }
{
    if !is_enabled(problem, instance) {
        return Ok(None);
    }
    let reading = reading_for(alloc, problem, instance)?;
    Ok(Some(Proposal::new(instance, reading, 0)))
}
