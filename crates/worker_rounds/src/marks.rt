//! What a round of workers marks for the next one.

ghost use Rattle.std.specs.Prelude.{◌≡◌, [], true, IfOk, OnOk};
ghost use Rattle.place_laws.specs.Choosing.{AreSorted};
ghost use Rattle.presolve_model.specs.Worlds.{Version};
ghost use Rattle.round_tasks.specs.Changes.{IsAsLong};
ghost use Rattle.worker_rounds.specs.Marking.{HasLeft, Leaves, LeavesFound, LooksAt};

use crate::workers::Worker;
use instances::Version;
use presolve_model::Instance;
use round_marks::around::Around;
use round_marks::rule_table::head;
use round_marks::stamps::Stamps;
use round_marks::watch::Watch;
use round_tasks::changed_parts;
use std::alloc::{AllocError, Global};

/// Marks a part of each of these instances.
fn leave_each(watch: &mut Watch, found: &[Instance]) -> Result<(), AllocError>
    ensures { OnOk result (Leaves found.now watch.old watch.new) }
{
    for instance in found {
        watch.leave(*instance, head(*instance))?;
    }
    Ok(())
}

/// Marks a part of each instance that workers found.
///
/// # Errors
/// Memory ran out.
pub fn leave_found(watch: &mut Watch, workers: &[Worker]) -> Result<(), AllocError>
    ensures { OnOk result (LeavesFound workers.now watch.old watch.new) }
{
    for worker in workers {
        leave_each(watch, worker.1.found())?;
    }
    Ok(())
}

/// The rows and columns at which the next round looks: those to which the parts lead that have changed since the round before began, or that
/// are marked already. What was enabled on the version before has a part that is marked.
///
/// # Errors
/// Memory ran out.
pub fn ids_after(
    alloc: Global,
    before: &Stamps,
    after: &Version,
    watch: &mut Watch,
) -> Result<Around, AllocError>
    requires long { IsAsLong before.now after.now.problem }
    requires awake { watch.old.marks.asleep ≡ [] }
    ensures awake { OnOk result (watch.new.marks.asleep ≡ []) }
    ensures sorted { IfOk result AreSorted }
    ensures looks { IfOk result (λ ids. (v : Version) → HasLeft v before.now watch.old after.now → LooksAt after.now watch.new ids) }
{
    let changed = changed_parts(alloc, before, after.problem())?;
    watch.note(after.problem(), changed.as_slice())?;
    let ids = watch.around(alloc, after.problem(), after.groups())?;
    Ok(ids)
}
