//! Scans of a version for enabled instances. Lines that are multiples of one another are found by the groups that it brings.

ghost use Rattle.std.specs.Prelude.{◌≡◌, ◌+◌, ◌<◌, ◌^◌, ◌++◌, ◌∷◌, [], true, map, IfOk, IfSome, length, OnOk};
ghost use Rattle.std.specs.List.{filter, range_with_len};
ghost use Rattle.line_groups.specs.Groups.{AreGroupsOf};
ghost use Rattle.presolve_model.specs.Enabled.{enabled_on, reading_of};
ghost use Rattle.presolve_model.specs.Instances.{id_count};
ghost use Rattle.presolve_model.specs.Scans.{found_at, found_in, proposal_of};
ghost use Rattle.presolve_model.specs.Tallies.{open_on};

use crate::chunk::Chunk;
use crate::finding::add_enabled;
use crate::proposal::Proposal;
use crate::reading::Reading;
use crate::reads::reading_beside;
use crate::tally::Tally;
use crate::version::Version;
use line_groups::Parallels;
use presolve_model::{Instance, Rule};
use rule_table::{is_enabled, is_of_rows};
use sparse_problem::Problem;
use std::alloc::{AllocError, Global};

/// What a scan walks over: a problem, the groups of its lines, how often each bound had been tightened, and the number of the version.
#[derive(Drop)]
struct Walk<'a> {
    problem: &'a Problem,
    groups: &'a Parallels,
    tally: &'a Tally,
    version: u64,
}

/// A walk over a version.
fn walk_over(version: &Version) -> Walk<'_>
    ensures problem { result.problem.now ≡ version.now.problem }
    ensures groups { AreGroupsOf result.groups.now version.now.problem }
    ensures tally { result.tally.now ≡ version.now.tally }
    ensures version { result.version ≡ version.now.applied }
{
    Walk {
        problem: version.problem(),
        groups: version.groups(),
        tally: version.tally(),
        version: version.applied(),
    }
}

/// What a walk read last, and for which instance.
type LastRead = Option<(Instance, Reading)>;

/// An enabled instance with its reading, which may be that of the last one.
fn proposal_for(
    alloc: Global,
    walk: &Walk<'_>,
    instance: Instance,
    last: &mut LastRead,
) -> Result<Proposal, AllocError>
    requires enabled { enabled_on walk.now.problem.now instance ≡ true }
    requires last { IfSome last.old (λ l. l.1 ≡ reading_of walk.now.problem.now l.0) }
    ensures last { IfSome last.new (λ l. l.1 ≡ reading_of walk.now.problem.now l.0) }
    ensures proposal { IfOk result (λ proposal. proposal ≡ proposal_of walk.now.problem.now walk.now.version instance) }
{
    let reading = reading_beside(alloc, walk.problem, last, instance)?;
    *last = kept(instance, &reading);
    Ok(Proposal::new(instance, reading, walk.version))
}

/// An instance and its reading, which has one owner more.
fn kept(instance: Instance, reading: &Reading) -> LastRead
    ensures { IfSome result (λ l. (l.0 ≡ instance) × (l.1 ≡ reading.now)) }
{
    match reading.share() {
        Some(shared) => Some((instance, shared)),
        None => None,
    }
}

/// Adds an instance, if it is enabled.
fn visit(
    alloc: Global,
    walk: &Walk<'_>,
    instance: Instance,
    last: &mut LastRead,
    found: &mut Vec<Proposal>,
) -> Result<(), AllocError>
    requires { IfSome last.old (λ l. l.1 ≡ reading_of walk.now.problem.now l.0) }
    ensures last { IfSome last.new (λ l. l.1 ≡ reading_of walk.now.problem.now l.0) }
    ensures found { OnOk result (found.new.items ≡ found.old.items ++ map (proposal_of walk.now.problem.now walk.now.version) (filter (enabled_on walk.now.problem.now) (instance ∷ []))) }
{
    if is_enabled(walk.problem, instance) {
        found.push(proposal_for(alloc, walk, instance, last)?)?;
    }
    Ok(())
}

/// Adds those of some instances that are enabled. What reads the same in a row is read once.
fn visit_each(
    alloc: Global,
    walk: &Walk<'_>,
    instances: &[Instance],
    found: &mut Vec<Proposal>,
) -> Result<(), AllocError>
    ensures { OnOk result (found.new.items ≡ found.old.items ++ map (proposal_of walk.now.problem.now walk.now.version) (filter (enabled_on walk.now.problem.now) instances.now)) }
{
    let mut last = None;
    let mut rest = instances;
    while let [instance, after @ ..] = rest {
        visit(alloc, walk, *instance, &mut last, found)?;
        rest = after;
    }
    Ok(())
}

/// Adds the instances of a rule with a first id that are enabled and open.
fn visit_from(
    alloc: Global,
    walk: &Walk<'_>,
    rule: Rule,
    id: u32,
    found: &mut Vec<Proposal>,
) -> Result<(), AllocError>
    requires { AreGroupsOf walk.now.groups.now walk.now.problem.now }
    ensures { OnOk result (found.new.items ≡ found.old.items ++ found_at (open_on walk.now.tally.now) walk.now.problem.now walk.now.version rule (id ∷ [])) }
{
    let mut instances = Vec::new(alloc);
    add_enabled(
        alloc,
        walk.problem,
        walk.groups,
        walk.tally,
        rule,
        id,
        &mut instances,
    )?;
    visit_each(alloc, walk, instances.as_slice(), found)
}

/// The enabled instances of a rule that are open, at these ids, in their order, each with its reading.
fn scan_ids(
    alloc: Global,
    walk: &Walk<'_>,
    rule: Rule,
    ids: &[u32],
) -> Result<Vec<Proposal>, AllocError>
    requires { AreGroupsOf walk.now.groups.now walk.now.problem.now }
    ensures { IfOk result (λ found. found.items ≡ found_at (open_on walk.now.tally.now) walk.now.problem.now walk.now.version rule ids.now) }
{
    let mut found = Vec::new(alloc);
    let mut rest = ids;
    while let [id, after @ ..] = rest {
        visit_from(alloc, walk, rule, *id, &mut found)?;
        rest = after;
    }
    Ok(found)
}

/// How many ids a rule has: those of the rows, or those of the columns. No instance is enabled at an id past them.
fn ids_of(problem: &Problem, rule: Rule) -> u64
    ensures count { result ≡ id_count problem.now rule }
    ensures few { result < 2 ^ 32 }
{
    if is_of_rows(rule) {
        problem.row_count() as u64
    } else {
        problem.column_count() as u64
    }
}

/// Adds the instance of a rule at an id, if it is enabled. The id may be past the problem's.
fn visit_at(
    alloc: Global,
    walk: &Walk<'_>,
    rule: Rule,
    id: u64,
    found: &mut Vec<Proposal>,
) -> Result<(), AllocError>
    requires { AreGroupsOf walk.now.groups.now walk.now.problem.now }
    ensures { OnOk result (found.new.items ≡ found.old.items ++ found_at (open_on walk.now.tally.now) walk.now.problem.now walk.now.version rule (id ∷ [])) }
{
    if id >= ids_of(walk.problem, rule) {
        return Ok(());
    }
    visit_from(alloc, walk, rule, id as u32, found)
}

/// The enabled instances of a rule that are open, at so many ids in a row, in their order, each with its reading.
fn scan_row(
    alloc: Global,
    walk: &Walk<'_>,
    rule: Rule,
    first: u64,
    count: u64,
) -> Result<Vec<Proposal>, AllocError>
    requires groups { AreGroupsOf walk.now.groups.now walk.now.problem.now }
    requires few { first + count < 2 ^ 64 }
    ensures { IfOk result (λ found. found.items ≡ found_at (open_on walk.now.tally.now) walk.now.problem.now walk.now.version rule (range_with_len first count)) }
{
    let mut found = Vec::new(alloc);
    for passed in 0..count {
        visit_at(alloc, walk, rule, first + passed, &mut found)?;
    }
    Ok(found)
}

/// The enabled instances of a rule that are open, at these ids, in their order, each with its reading.
///
/// # Errors
/// Memory ran out.
pub fn scan_at(
    alloc: Global,
    version: &Version,
    rule: Rule,
    ids: &[u32],
) -> Result<Vec<Proposal>, AllocError>
    ensures { IfOk result (λ found. found.items ≡ found_at (open_on version.now.tally) version.now.problem version.now.applied rule ids.now) }
{
    let walk = walk_over(version);
    scan_ids(alloc, &walk, rule, ids)
}

/// The enabled instances of a rule that are open, in a chunk of ids, in their order, each with its reading.
///
/// # Errors
/// Memory ran out.
pub fn scan(
    alloc: Global,
    version: &Version,
    rule: Rule,
    chunk: Chunk,
) -> Result<Vec<Proposal>, AllocError>
    ensures { IfOk result (λ found. found.items ≡ found_in (open_on version.now.tally) version.now.problem version.now.applied rule chunk) }
{
    let walk = walk_over(version);
    scan_row(alloc, &walk, rule, chunk.first(), 1024)
}
