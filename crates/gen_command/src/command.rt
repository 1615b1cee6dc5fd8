//! The command `gen SEED ROWS COLS`.

ghost use Rattle.std.specs.Prelude.{◌≡◌, ◌<◌, ◌^◌, ◌++◌, length, IfOk, OnOk};
ghost use Rattle.fractions.specs.declared.Numbers.TheVariants.{Decimal};
ghost use Rattle.lp_model.specs.Meaning.{meaning};
ghost use Rattle.lp_model.specs.ProgramData.{ProgramData};
ghost use Rattle.lp_model.specs.Verdicts.{NoPoint, NoPointOrEndless};
ghost use Rattle.lp_model.specs.Writable.{EntriesAscend, Writable};
ghost use Rattle.command_words.specs.Names.{IsSize};
ghost use Rattle.presolve_model.specs.Conclusions.{Concluded};
ghost use Rattle.presolve_model.specs.Workers.{one_worker};
ghost use Rattle.presolve_report.specs.Outcomes.{entries_of};
ghost use Rattle.presolve_report.specs.Report.{report_text};
ghost use Rattle.endings.specs.Ending.{status_of, text_of};
ghost use Rattle.gen_command.specs.Generating.{SaysGen, default_options, generated_line};

use command_words::{GenNumbers, MOST_RECORDS};
use endings::Ending;
use fractions::Numbers;
use lp_gen::laws::generated_programs_have_points;
use lp_model::Program;
use presolve_model::{Options, Workers};
use presolve_report::{Report, Size, report_for, report_of, size_of};
use std::alloc::{AllocError, Global};
use std::thread::Threads;
use threaded_passes::presolve;
use threaded_passes::presolve_rounds::{Onlooker, Presolved, ReducedProgram};

// The options of a presolve that is given none.
fn default_options() -> Options
    ensures { result ≡ default_options }
{
    Options {
        numbers: Numbers::Decimal,
        limit: MOST_RECORDS,
        dual: false,
    }
}

// Reduces a program about which no verdict is true.
fn reduced<R: Threads + Sync, O: Onlooker>(
    rt: &R,
    alloc: Global,
    program: Program,
    onlooker: &mut O,
) -> Result<ReducedProgram, AllocError>
    requires few_rows { length program.rows < 2 ^ 32 }
    requires few_columns { length program.columns < 2 ^ 32 }
    requires ascends { EntriesAscend program }
    requires writable { Writable Decimal program }
    requires there { NoPoint (meaning program) → ⊥ }
    requires undecided { NoPointOrEndless program.sense (meaning program) → ⊥ }
    ensures { IfOk result (λ made. Concluded default_options one_worker program made.program made.records made.end) }
{
    match presolve(
        rt,
        alloc,
        program,
        &default_options(),
        &Workers::one(),
        onlooker,
    )? {
        Presolved::Reduced(made) => Ok(made),
        Presolved::Infeasible(_decided) => unreachable!(),
        Presolved::UnboundedOrInfeasible(_decided) => unreachable!(),
    }
}

// The line that says how large the program is, and the report.
fn generated_text(alloc: Global, size: Size, report: &Report) -> Result<Vec<u8>, AllocError>
    ensures { IfOk result (λ text. (source : ProgramData) → size.rows ≡ length source.rows → size.columns ≡ length source.columns → size.entries ≡ entries_of source
        → text.items ≡ generated_line source ++ report_text report.now) }
{
    let rows = size.rows;
    let columns = size.columns;
    let entries = size.entries;
    let line = format!(in alloc; "generated rows {rows} columns {columns} entries {entries}\n")?;
    let mut text = Vec::from_slice(alloc, line.as_bytes())?;
    let report = report_of(alloc, report)?;
    text.extend_from_slice(&report)?;
    Ok(text)
}

/// Makes a program from a seed and presolves it, with no option given, by one worker. It prints how large the program is, and the report of
/// the presolve. No file is read, and none is written. The onlooker is told of the rounds.
///
/// # Errors
/// For want of memory.
pub fn generate<R: Threads + Sync, O: Onlooker>(
    rt: &R,
    alloc: Global,
    numbers: GenNumbers,
    onlooker: &mut O,
) -> Result<Ending, AllocError>
    requires { IsSize numbers }
    ensures { IfOk result (λ e. SaysGen numbers (status_of e) (text_of e)) }
{
    let program = lp_gen::generate(alloc, numbers.seed, numbers.rows, numbers.columns)?;
    let size = size_of(&program);
    generated_programs_have_points();
    let made = reduced(rt, alloc, program, onlooker)?;
    let report = report_for(&made, size);
    let text = generated_text(alloc, size, &report)?;
    Ok(Ending::Done(text))
}
