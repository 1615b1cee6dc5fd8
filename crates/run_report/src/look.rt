//! A run that is looked into: its book, and what it leaves enabled.

ghost use Rattle.std.specs.Prelude.{◌≡◌, ◌<◌, ◌^◌, length, map, IfOk};
ghost use Rattle.std.specs.List.{All};
ghost use Rattle.lp_model.specs.Writable.{EntriesAscend, Writable};
ghost use Rattle.problem_model.specs.Programs.{IsProblemOf};
ghost use Rattle.presolve_model.specs.Ordered.{RunsTo};
ghost use Rattle.presolve_model.specs.Stuck.{enabled_reductions};
ghost use Rattle.presolve_model.specs.Tallies.{open_on};
ghost use Rattle.run_report.specs.Holding.{AreHeld, HoldsBack, IsHeld};
ghost use Rattle.run_report.specs.Story.{IsReplayed};
ghost use Rattle.presolve_rounds.specs.Running.{EndsWith};

use line_groups::Parallels;
use lp_model::Program;
use presolve_model::{End, Instance, Options, Outcome};
use presolve_rounds::instances::Tally;
use presolve_rounds::rule_table::reduction_rules;
use presolve_rounds::txn_book::Book;
use presolve_rounds::{Onlooker, opened, run};
use round_marks::around::Around;
use round_marks::found::enabled_of;
use sparse_problem::Problem;
use std::alloc::{AllocError, Global};

/// An instance that is enabled at the end of a run, and the answer that the book gives to it.
#[derive(Clone, Copy)]
pub struct Held {
    pub instance: Instance,
    /// `Past` or `NotDecimal` where it is refused, `Full` where the limit is reached, `Closed` where a verdict stands.
    pub answer: Outcome,
}

/// A run with its book.
#[derive(Drop)]
pub struct Run {
    /// The book as the run left it.
    pub book: Book,
    /// How the run ended. None where a verdict was applied.
    pub end: Option<End>,
    /// The open reductions that are enabled at the end, in instance order, each with why it was not applied.
    pub held: Vec<Held>,
}

/// The open reductions that are enabled on a problem, in instance order.
fn enabled_in(alloc: Global, problem: &Problem, tally: &Tally) -> Result<Vec<Instance>, AllocError>
    ensures { IfOk result (λ found. found.items ≡ enabled_reductions (open_on tally.now) problem.now) }
{
    let groups = Parallels::of(alloc, problem)?;
    let all = Around::all_of(alloc, problem)?;
    let found = enabled_of(alloc, problem, &groups, tally, &all, &reduction_rules())?;
    Ok(found)
}

/// What a book answers to an instance that it does not apply. The book stays.
fn answer(alloc: Global, book: &mut Book, instance: Instance) -> Result<Outcome, AllocError>
    requires { HoldsBack book.old instance }
    ensures book { book.new ≡ book.old }
    ensures why { IfOk result (λ answer. IsHeld book.old instance answer) }
{
    let version = book.instance_count();
    match book.apply(alloc, version, instance, &mut Vec::new(alloc)) {
        Outcome::NoMemory => Err(AllocError),
        answer => Ok(answer),
    }
}

/// What a book answers to each of some instances that it does not apply. The book stays.
fn answers(alloc: Global, book: &mut Book, found: &[Instance]) -> Result<Vec<Held>, AllocError>
    requires { All (HoldsBack book.old) found.now }
    ensures book { book.new ≡ book.old }
    ensures all { IfOk result (λ held. map (λ h. h.instance) held.items ≡ found.now) }
    ensures why { IfOk result (λ held. All (λ h. IsHeld book.old h.instance h.answer) held.items) }
{
    let mut held = Vec::with_capacity(alloc, found.len())?;
    let mut rest = found;
    while let [instance, after @ ..] = rest {
        let answer = answer(alloc, book, *instance)?;
        held.push(Held {
            instance: *instance,
            answer,
        })?;
        rest = after;
    }
    Ok(held)
}

/// What a run leaves enabled in its book, each with why. The book stays.
fn held_in(alloc: Global, book: &mut Book, end: Option<End>) -> Result<Vec<Held>, AllocError>
    requires { EndsWith end book.old }
    ensures book { book.new ≡ book.old }
    ensures ends { EndsWith end book.new }
    ensures held { IfOk result (λ held. AreHeld book.new held.items) }
{
    let _ = end;
    let found = enabled_in(alloc, book.problem(), book.tally())?;
    let held = answers(alloc, book, found.as_slice())?;
    Ok(held)
}

/// Reduces a program as `presolve` does, and gives the book with what is left enabled in it. The onlooker is told after each round.
///
/// # Errors
/// For want of memory.
pub fn look_into<O: Onlooker>(
    alloc: Global,
    program: &Program,
    options: &Options,
    onlooker: &mut O,
) -> Result<Run, AllocError>
    requires few_rows { length program.now.rows < 2 ^ 32 }
    requires few_columns { length program.now.columns < 2 ^ 32 }
    requires ascends { EntriesAscend program.now }
    requires writable { Writable options.now.numbers program.now }
    ensures start { IfOk result (λ run. IsProblemOf program.now run.book.start) }
    ensures runs { IfOk result (λ run. RunsTo options.now program.now run.end run.book) }
    ensures replayed { IfOk result (λ run. IsReplayed options.now program.now run.book.history run.book.start) }
    ensures end { IfOk result (λ run. EndsWith run.end run.book) }
    ensures held { IfOk result (λ run. AreHeld run.book run.held.items) }
{
    let mut book = opened(alloc, program, options)?;
    let end = run(alloc, &mut book, onlooker)?;
    let held = held_in(alloc, &mut book, end)?;
    book.stands();
    Ok(Run { book, end, held })
}
