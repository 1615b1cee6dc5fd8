//! Presolve of a program.

ghost use Rattle.std.specs.Prelude.{◌≡◌, ◌≢◌, ◌<◌, ◌≤◌, ◌^◌, ℕ, length, IfOk, IfSome, None, Some};
ghost use Rattle.lp_model.specs.Writable.{EntriesAscend, Writable};
ghost use Rattle.undo_records.specs.declared.side.Side.{Side};
ghost use Rattle.problem_model.specs.Programs.{IsProblemOf};
ghost use Rattle.presolve_model.specs.Conclusions.{Concluded, Decided};
ghost use Rattle.presolve_model.specs.Ordered.{new_book, options_of, RunsTo};
ghost use Rattle.presolve_model.specs.Tallies.{tightenings};
ghost use Rattle.presolve_model.specs.Workers.{IsInOrder};
ghost use Rattle.presolve_rounds.specs.Conclusions.{Concludes};
ghost use Rattle.presolve_rounds.specs.Running.{EndsWith};
ghost use Rattle.presolve_rounds.specs.Sources.{IsKept};

use crate::labels::{Left, left_of};
use crate::onlooker::Onlooker;
use crate::outcome::{DecidedProgram, Presolved, ReducedProgram};
use crate::passes::Passes;
use crate::rounds::run_by;
use crate::source::{Source, source_of};
use lp_model::Program;
use presolve_model::{End, Options, Workers};
use round_marks::rule_table::says_no_point;
use round_marks::txn_book::Book;
use sparse_problem::Problem;
use std::alloc::{AllocError, Global};

/// A book of a program's problem.
pub fn opened(alloc: Global, program: &Program, options: &Options) -> Result<Book, AllocError>
    requires few_rows { length program.now.rows < 2 ^ 32 }
    requires few_columns { length program.now.columns < 2 ^ 32 }
    requires ascends { EntriesAscend program.now }
    requires writable { Writable options.now.numbers program.now }
    ensures start { IfOk result (λ book. IsProblemOf program.now book.start) }
    ensures new { IfOk result (λ book. book ≡ new_book options.now book.start) }
{
    let problem = Problem::from_program(alloc, program)?;
    let book = Book::open(alloc, problem, options.numbers, options.limit)?;
    Ok(book)
}

/// What a program was reduced to.
fn reduced(
    alloc: Global,
    source: Source,
    dual: bool,
    workers: &Workers,
    book: Book,
    end: End,
) -> Result<ReducedProgram, AllocError>
    requires kept { IsKept source }
    requires ascends { EntriesAscend source.given }
    requires writable { Writable book.numbers source.given }
    requires start { IsProblemOf source.given book.start }
    requires end { EndsWith (Some end) book }
    requires few { (j : ℕ) (side : Side) → tightenings book.records j side ≤ 10 }
    requires runs { IsInOrder workers.now → RunsTo (options_of dual book) source.given (Some end) book }
    ensures { IfOk result (λ made. Concluded (options_of dual book) workers.now source.given made.program made.records made.end) }
{
    let _ = workers;
    book.stands();
    let Left { problem, records } = left_of(alloc, &source, dual, book)?;
    let _name = source.kept().objective();
    let program = problem.into_program(alloc, source.into_kept())?;
    let _left = program.objective();
    records.is_named();
    Ok(ReducedProgram {
        program,
        records,
        end,
    })
}

/// How a program was decided.
fn decided(source: &Source, dual: bool, workers: &Workers, book: Book) -> DecidedProgram
    requires start { IsProblemOf source.now.given book.start }
    requires decided { book.verdict ≢ None }
    requires runs { IsInOrder workers.now → RunsTo (options_of dual book) source.now.given None book }
    ensures { Decided (options_of dual book) workers.now source.now.given result.history.items result.verdict }
{
    let _ = source;
    let _ = dual;
    let _ = workers;
    book.stands();
    let ended = book.close();
    match ended.verdict {
        Some(verdict) => DecidedProgram {
            history: ended.history,
            verdict,
        },
        None => unreachable!(),
    }
}

/// What a decision says of its program.
fn concluded(
    source: &Source,
    options: &Options,
    workers: &Workers,
    made: DecidedProgram,
) -> Presolved
    requires { Decided options.now workers.now source.now.given made.history.items made.verdict }
    ensures { Concludes options.now workers.now source.now.given result }
{
    let _ = source;
    let _ = options;
    let _ = workers;
    if says_no_point(made.verdict) {
        Presolved::Infeasible(made)
    } else {
        Presolved::UnboundedOrInfeasible(made)
    }
}

/// What comes of a run that ended so, with this book, for a program of which that is kept.
///
/// # Errors
/// For want of memory.
pub fn conclude(
    alloc: Global,
    source: Source,
    options: &Options,
    workers: &Workers,
    book: Book,
    end: Option<End>,
) -> Result<Presolved, AllocError>
    requires kept { IsKept source }
    requires ascends { EntriesAscend source.given }
    requires writable { Writable options.now.numbers source.given }
    requires start { IsProblemOf source.given book.start }
    requires opened { options_of options.now.dual book ≡ options.now }
    requires end { EndsWith end book }
    requires few { IfSome end (λ _. (j : ℕ) (side : Side) → tightenings book.records j side ≤ 10) }
    requires runs { IsInOrder workers.now → RunsTo options.now source.given end book }
    ensures { IfOk result (λ made. Concludes options.now workers.now source.given made) }
{
    match end {
        Some(end) => {
            let made = reduced(alloc, source, options.dual, workers, book, end)?;
            Ok(Presolved::Reduced(made))
        }
        None => {
            let made = decided(&source, options.dual, workers, book);
            Ok(concluded(&source, options, workers, made))
        }
    }
}

/// Reduces a program by the rules that there are, until it is decided, or no rule is left that could be applied, or the limit is reached. The
/// rounds are gone over in this way, in order. The onlooker is told after each of them, and behind the last.
///
/// # Errors
/// For want of memory.
pub fn presolve_by<P: Passes, O: Onlooker>(
    alloc: Global,
    passes: &P,
    program: Program,
    options: &Options,
    workers: &Workers,
    onlooker: &mut O,
) -> Result<Presolved, AllocError>
    requires able { P.ready passes.now }
    requires few_rows { length program.rows < 2 ^ 32 }
    requires few_columns { length program.columns < 2 ^ 32 }
    requires ascends { EntriesAscend program }
    requires writable { Writable options.now.numbers program }
    ensures { IfOk result (λ made. Concludes options.now workers.now program made) }
{
    let mut book = opened(alloc, &program, options)?;
    let source = source_of(alloc, program);
    let end = run_by(alloc, passes, &mut book, onlooker)?;
    // The law on ten tightenings asks that the limit fits its type.
    let _ = book.limit();
    conclude(alloc, source, options, workers, book, end)
}
