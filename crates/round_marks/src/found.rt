//! Instances that are enabled on a problem, and open.

ghost use Rattle.std.specs.Prelude.{◌≡◌, ◌++◌, IfOk, OnOk};
ghost use Rattle.std.specs.List.{filter};
ghost use Rattle.line_groups.specs.Groups.{AreGroupsOf};
ghost use Rattle.presolve_model.specs.Enabled.{enabled_on};
ghost use Rattle.presolve_model.specs.Scans.{instances_at};
ghost use Rattle.presolve_model.specs.Tallies.{open_on};
ghost use Rattle.place_laws.specs.Choosing.{instances_of};

use crate::around::Around;
use line_groups::Parallels;
use presolve_model::{Instance, Rule};
use sparse_problem::Problem;
use std::alloc::{AllocError, Global};
use txn_book::instances::{Tally, add_enabled};

/// Adds the enabled instances of a rule at these ids, those that are open.
fn add_found(
    alloc: Global,
    problem: &Problem,
    groups: &Parallels,
    tally: &Tally,
    rule: Rule,
    ids: &[u32],
    found: &mut Vec<Instance>,
) -> Result<(), AllocError>
    requires { AreGroupsOf groups.now problem.now }
    ensures { OnOk result (found.new.items ≡ found.old.items ++ filter (enabled_on problem.now) (instances_at (open_on tally.now) problem.now rule ids.now)) }
{
    let mut rest = ids;
    while let [id, after @ ..] = rest {
        add_enabled(alloc, problem, groups, tally, rule, *id, found)?;
        rest = after;
    }
    Ok(())
}

/// The enabled instances of rules at these rows and columns that are open, each rule's in turn.
pub fn enabled_of(
    alloc: Global,
    problem: &Problem,
    groups: &Parallels,
    tally: &Tally,
    ids: &Around,
    rules: &[Rule],
) -> Result<Vec<Instance>, AllocError>
    requires { AreGroupsOf groups.now problem.now }
    ensures { IfOk result (λ found. found.items ≡ filter (enabled_on problem.now) (instances_of (open_on tally.now) problem.now ids.now rules.now)) }
{
    let mut found = Vec::new(alloc);
    let mut rest = rules;
    while let [rule, after @ ..] = rest {
        add_found(
            alloc,
            problem,
            groups,
            tally,
            *rule,
            ids.of(*rule),
            &mut found,
        )?;
        rest = after;
    }
    Ok(found)
}
