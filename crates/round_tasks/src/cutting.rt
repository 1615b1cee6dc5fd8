//! The tasks of a round.

ghost use Rattle.std.specs.Prelude.{◌≡◌, ◌+◌, ◌*◌, ◌^◌, ◌<◌, ◌≤◌, true, get_or, IfOk, length};
ghost use Rattle.place_laws.specs.Choosing.{AreSorted, HasEach, ids_of};
ghost use Rattle.presolve_model.specs.Tallies.{open_on};
ghost use Rattle.sorted_ids.specs.Ascending.{AscendsFrom};
ghost use Rattle.round_tasks.specs.Cutting.{AddsAllTasks, AddsTasks, AreTasksOf, HasEachOf, IsCountBelow};

use presolve_model::Rule;
use round_marks::around::Around;
use round_marks::instances::{Chunk, Version, lines_beside};
use round_marks::rule_table::{goes_by_groups, reduction_rules, verdict_rules};
use std::alloc::{AllocError, Global};
use std::marker::Model;
use worker_tasks::Task;

/// The ids of a chunk.
const CHUNK: u32 = 1024;

/// So many pairs of lines that are multiples of one another a task has at most.
const MOST_PAIRS: usize = 65_536;

/// The tasks of a round in instance order, and whether they are all that there is to look at.
#[derive(Drop)]
pub struct RoundTasks {
    tasks: Vec<Task>,
    is_whole: bool,
}

impl Model for RoundTasks {
    ghost use Rattle.round_tasks.specs.Cutting.{TaskList};

    ghost Value = { TaskList };

    ghost view = { λ t. record { tasks = t.tasks.items; whole = t.is_whole } };
}

impl RoundTasks {
    /// The tasks. The number of each is its place, from 0 on.
    pub fn tasks(&self) -> &[Task]
        ensures { result.now ≡ self.now.tasks }
    {
        self.tasks.as_slice()
    }

    /// Whether no chunk was left out.
    pub fn is_whole(&self) -> bool
        ensures { result ≡ self.now.whole }
    {
        self.is_whole
    }
}

/// The chunk of the first of these ids.
fn chunk_of_first(ids: &[u32]) -> u32
    requires { 0 < length ids.now }
    ensures first { result * 1024 ≤ get_or ids.now 0 0 }
    ensures inside { get_or ids.now 0 0 < result * 1024 + 1024 }
    ensures few { result < 2 ^ 22 }
{
    ids[0] / CHUNK
}

/// How many of these ids come before an end, up to the first one that does not.
fn count_below(ids: &[u32], end: u64) -> usize
    ensures { IsCountBelow ids.now end result }
{
    let mut count = 0;
    while count < ids.len() && u64::from(ids[count]) < end {
        count += 1;
    }
    count
}

/// Whether the lines at these ids are multiples of few enough others for a task.
fn has_few_pairs(version: &Version, rule: Rule, ids: &[u32]) -> bool {
    let mut pairs: usize = 0;
    if goes_by_groups(rule) {
        for id in ids {
            pairs = pairs.saturating_add(lines_beside(version.groups(), rule, *id).len());
        }
    }
    pairs <= MOST_PAIRS
}

/// The task of these ids of a chunk.
fn task_at(alloc: Global, rule: Rule, chunk: u32, ids: &[u32]) -> Result<Task, AllocError>
    ensures { IfOk result (λ task. task ≡ record { rule = rule; chunk = chunk; ids = ids.now }) }
{
    let ids = Vec::from_slice(alloc, ids)?;
    Ok(Task::new(rule, Chunk::new(chunk), ids))
}

/// Adds the tasks of a rule: its ids cut at multiples of 1,024. A chunk with too many pairs of lines is left out. Gives whether none was.
fn add_tasks_of(
    alloc: Global,
    version: &Version,
    rule: Rule,
    ids: &[u32],
    tasks: &mut Vec<Task>,
) -> Result<bool, AllocError>
    requires ascends { AscendsFrom 0 ids.now }
    requires each { HasEachOf version.now rule ids.now }
    ensures { IfOk result (λ whole. AddsTasks version.now rule ids.now tasks.old.items tasks.new.items whole) }
{
    let mut rest = ids;
    let mut is_whole = true;
    while rest.len() > 0 {
        let chunk = chunk_of_first(rest);
        let count = count_below(rest, (u64::from(chunk) + 1) * 1024);
        let (front, after) = rest.split_at(count);
        if has_few_pairs(version, rule, front) {
            tasks.push(task_at(alloc, rule, chunk, front)?)?;
        } else {
            is_whole = false;
        }
        rest = after;
    }
    Ok(is_whole)
}

/// Adds the tasks of a rule at these rows and columns.
fn add_tasks_at(
    alloc: Global,
    version: &Version,
    rule: Rule,
    ids: &Around,
    tasks: &mut Vec<Task>,
) -> Result<bool, AllocError>
    requires sorted { AreSorted ids.now }
    requires each { HasEach (open_on version.now.tally) version.now.problem ids.now }
    ensures { IfOk result (λ whole. AddsTasks version.now rule (ids_of ids.now rule) tasks.old.items tasks.new.items whole) }
{
    add_tasks_of(alloc, version, rule, ids.of(rule), tasks)
}

/// Adds the tasks of rules, each rule's in turn.
fn add_tasks(
    alloc: Global,
    version: &Version,
    rules: &[Rule],
    ids: &Around,
    tasks: &mut Vec<Task>,
) -> Result<bool, AllocError>
    requires sorted { AreSorted ids.now }
    requires each { HasEach (open_on version.now.tally) version.now.problem ids.now }
    ensures { IfOk result (λ whole. AddsAllTasks version.now ids.now rules.now tasks.old.items tasks.new.items whole) }
{
    let mut rest = rules;
    let mut is_whole = true;
    while let [rule, after @ ..] = rest {
        if !add_tasks_at(alloc, version, *rule, ids, tasks)? {
            is_whole = false;
        }
        rest = after;
    }
    Ok(is_whole)
}

/// Whether both are so.
fn are_both(one: bool, other: bool) -> bool
    ensures { result ≡ true → (one ≡ true) × (other ≡ true) }
{
    one && other
}

/// The tasks of a round over a version, at these rows and columns: for each rule in order its ids, cut at multiples of 1,024. A chunk of lines with
/// more than 65,536 that are multiples of them is left out.
///
/// # Errors
/// Memory ran out.
pub fn tasks_of(alloc: Global, version: &Version, ids: &Around) -> Result<RoundTasks, AllocError>
    requires sorted { AreSorted ids.now }
    requires each { HasEach (open_on version.now.tally) version.now.problem ids.now }
    ensures { IfOk result (λ made. AreTasksOf version.now ids.now made) }
{
    let mut tasks = Vec::new(alloc);
    let verdicts = add_tasks(alloc, version, &verdict_rules(), ids, &mut tasks)?;
    let reductions = add_tasks(alloc, version, &reduction_rules(), ids, &mut tasks)?;
    let is_whole = are_both(verdicts, reductions);
    Ok(RoundTasks { tasks, is_whole })
}
