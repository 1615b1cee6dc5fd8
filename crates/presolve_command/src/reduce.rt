//! What a presolve makes of a text.

ghost use Rattle.std.specs.Prelude.{◌≡◌, ◌<◌, ◌≤◌, ◌^◌, true, length, IfOk, MatchOption};
ghost use Rattle.command_words.specs.declared.words.TheConstants.{MOST_THREADS};
ghost use Rattle.lp_model.specs.Meaning.{meaning};
ghost use Rattle.lp_model.specs.ProgramData.{ProgramData};
ghost use Rattle.lp_check.specs.FirstNotContinuous.{IsFirstNotContinuous};
ghost use Rattle.presolve_command.specs.Texts.{AreTexts, IsMade, IsReduced, IsTaken};
ghost use Rattle.lp_model.specs.Writable.{EntriesAscend, Writable};
ghost use Rattle.mps_writer.specs.MpsText.{mps_text, WidthsFit};
ghost use Rattle.presolve_report.specs.Outcomes.{Tells};

use command_words::PresolveOptions;
use endings::{ProgramError, ProgramFault, form_of, not_continuous_text, read_program};
use lp_check::first_not_continuous;
use lp_model::Program;
use mps_writer::{WriteError, write_mps};
use presolve_model::{Options, Workers};
use presolve_report::presolve_rounds::{DecidedProgram, Onlooker, Presolved, ReducedProgram};
use presolve_report::{Report, report_for, report_of, size_of};
use racing_runs::presolve;
use record_file::write_records;
use record_round_trip::records_have_range;
use record_values::TextVersion;
use std::alloc::{AllocError, Global};
use std::sync::Wait;
use std::thread::Threads;
use text_lines::Fault;
use whole_way::laws::texts_come_back;
use worker_gate::Gate;

/// All that a presolve writes and prints.
#[derive(Drop)]
pub struct Texts {
    pub program: Vec<u8>,
    pub records: Vec<u8>,
    pub report: Vec<u8>,
}

/// Why a text was not presolved.
#[derive(Drop)]
pub enum NotReduced {
    /// The text's first fault.
    Fault(ProgramFault),
    /// Duals are asked for, and a column has to be whole or is semi-continuous: the line that names the first one.
    NotContinuous(Vec<u8>),
    /// The text's program has no feasible point: by this history and this verdict.
    Infeasible(DecidedProgram),
    /// The text's program has no feasible point, or none of least cost.
    UnboundedOrInfeasible,
    NoMemory,
}

impl From<AllocError> for NotReduced {
    ghost use Rattle.presolve_command.specs.declared.reduce.NotReduced.TheVariants.{NoMemory};

    ghost from_gives = { λ _ e. e ≡ NoMemory };

    fn from(_: AllocError) -> Self {
        NotReduced::NoMemory
    }
}

fn program_text(alloc: Global, program: &Program) -> Result<Vec<u8>, AllocError>
    requires { WidthsFit program.now.rows }
    ensures text { IfOk result (λ text. text.items ≡ mps_text program.now) }
{
    match write_mps(alloc, program) {
        Ok(text) => Ok(text),
        Err(WriteError::Past) => unreachable!(),
        Err(WriteError::NoMemory) => Err(AllocError),
    }
}

fn texts_of(alloc: Global, made: &ReducedProgram, report: &Report) -> Result<Texts, AllocError>
    requires { WidthsFit made.now.program.rows }
    ensures { IfOk result (λ texts. (source : ProgramData)
        → Tells (record { source = source; program = made.now.program; records = made.now.records; report = report.now })
        → AreTexts (record { source = source; program = made.now.program; records = made.now.records; report = report.now })
        texts.program.items texts.records.items texts.report.items) }
{
    let program = program_text(alloc, &made.program)?;
    let records = write_records(alloc, &made.records, TextVersion::Second)?;
    let report = report_of(alloc, report)?;
    Ok(Texts {
        program,
        records,
        report,
    })
}

// The first column that has to be whole, where duals are asked for.
fn column_in_the_way(program: &Program, options: &Options) -> Option<u32>
    requires { length program.now.columns < 2 ^ 32 }
    ensures { MatchOption result (IsTaken options.now program.now) (λ j. (options.now.dual ≡ true) × IsFirstNotContinuous (meaning program.now) j) }
{
    if options.dual {
        first_not_continuous(program)
    } else {
        None
    }
}

// Reduces a program, and makes the texts of what is left.
fn reduce_program<R: Threads + Wait + Sync, G: Gate, O: Onlooker>(
    rt: &R,
    alloc: Global,
    program: Program,
    options: &Options,
    workers: &Workers,
    gate: &G,
    onlooker: &mut O,
) -> Result<Texts, NotReduced>
    requires few_rows { length program.rows < 2 ^ 32 }
    requires few_columns { length program.columns < 2 ^ 32 }
    requires ascends { EntriesAscend program }
    requires writable { Writable options.now.numbers program }
    requires taken { IsTaken options.now program }
    ensures { IsMade options.now workers.now program result }
{
    let before = size_of(&program);
    texts_come_back();
    match presolve(rt, alloc, program, options, workers, gate, onlooker) {
        Ok(Presolved::Reduced(made)) => {
            records_have_range(&made.records);
            let report = report_for(&made, before);
            let texts = texts_of(alloc, &made, &report)?;
            Ok(texts)
        }
        Ok(Presolved::Infeasible(decided)) => Err(NotReduced::Infeasible(decided)),
        Ok(Presolved::UnboundedOrInfeasible(_decided)) => Err(NotReduced::UnboundedOrInfeasible),
        Err(AllocError) => Err(NotReduced::NoMemory),
    }
}

// Reduces a program that is taken: where duals are asked for, no column may have to be whole.
fn reduce_taken<R: Threads + Wait + Sync, G: Gate, O: Onlooker>(
    rt: &R,
    alloc: Global,
    program: Program,
    options: &Options,
    workers: &Workers,
    gate: &G,
    onlooker: &mut O,
) -> Result<Texts, NotReduced>
    requires few_rows { length program.rows < 2 ^ 32 }
    requires few_columns { length program.columns < 2 ^ 32 }
    requires ascends { EntriesAscend program }
    requires writable { Writable options.now.numbers program }
    ensures { IsMade options.now workers.now program result }
{
    match column_in_the_way(&program, options) {
        Some(column) => {
            let line = not_continuous_text(alloc, &program, column)?;
            Err(NotReduced::NotContinuous(line))
        }
        None => reduce_program(rt, alloc, program, options, workers, gate, onlooker),
    }
}

/// Lets a text go, unless it is kept.
fn let_go(alloc: Global, text: &mut Vec<u8>, keeps: bool)
    ensures { keeps ≡ true → text.new ≡ text.old }
{
    if !keeps {
        *text = Vec::new(alloc);
    }
}

/// Reads a program, reduces it by as many reductions as the limit allows, and makes the texts of what is left. Its text is let go once it is
/// read, unless it is to be kept.
///
/// # Errors
/// The first fault of the text, the first column that has to be whole where duals are asked for, that the program has no feasible point,
/// that it has none or none of least cost, or want of memory.
pub fn reduce<R: Threads + Wait + Sync, G: Gate, O: Onlooker>(
    rt: &R,
    alloc: Global,
    text: &mut Vec<u8>,
    keeps: bool,
    options: PresolveOptions,
    gate: &G,
    onlooker: &mut O,
) -> Result<Texts, NotReduced>
    requires few_bytes { length text.old.items < 2 ^ 32 }
    requires some_threads { 1 ≤ options.threads }
    requires few_threads { options.threads ≤ MOST_THREADS }
    ensures reduced { IsReduced options text.old.items result }
    ensures kept { keeps ≡ true → text.new ≡ text.old }
{
    let form = form_of(options);
    let told = Options {
        numbers: form.numbers(),
        limit: options.limit,
        dual: options.dual,
    };
    let workers = Workers::new(options.threads, options.ordered);
    match read_program(alloc, text, form) {
        Ok(program) => {
            let_go(alloc, text, keeps);
            reduce_taken(rt, alloc, program, &told, &workers, gate, onlooker)
        }
        Err(ProgramError::Fault(fault)) => Err(NotReduced::Fault(fault)),
        Err(ProgramError::NoMemory) => Err(NotReduced::NoMemory),
    }
}
