//! A run of a program's text, and what is told of it.

ghost use Rattle.std.specs.Prelude.{◌≡◌, ◌<◌, ◌^◌, length, IfOk};
ghost use Rattle.lp_model.specs.Writable.{EntriesAscend, Writable};
ghost use Rattle.endings.specs.ProgramTexts.{fault_text};
ghost use Rattle.explain_command.specs.Running.{Begins, IsAnswer};
ghost use Rattle.explain_command.specs.Telling.{status_of, Tells};

use crate::progress::Progress;
use crate::telling::tell;
use crate::words::Words;
use endings::{ProgramError, ProgramFault, fault_line, form_of, read_program};
use fault_look::{push_look, push_opb_look};
use lp_model::Program;
use presolve_model::{Options, Verdict};
use run_report::counts::count_up;
use run_report::look::look_into;
use run_report::presolve_rounds::rule_table::says_no_point;
use std::alloc::{AllocError, Global};

/// What is printed, and the exit status.
#[derive(Drop)]
pub struct Told {
    pub status: u8,
    pub text: Vec<u8>,
}

/// The status of a run that a verdict ended, or none did.
fn status_of(verdict: Option<Verdict>) -> u8
    ensures { result ≡ status_of verdict }
{
    match verdict {
        None => 0,
        Some(verdict) => { if says_no_point(verdict) { 20 } else { 21 } }
    }
}

/// Runs a program, and tells of it.
fn run_program<R: Eprint>(
    rt: &R,
    alloc: Global,
    program: &Program,
    options: &Options,
    words: &Words<'_>,
    is_shown: bool,
) -> Result<Told, AllocError>
    requires few { (length program.now.rows < 2 ^ 32) × (length program.now.columns < 2 ^ 32) }
    requires ascends { EntriesAscend program.now }
    requires writable { Writable options.now.numbers program.now }
    ensures { IfOk result (λ told. Tells options.now words.now program.now told.status told.text.items) }
{
    let mut progress = Progress::new(rt, alloc, is_shown);
    let run = look_into(alloc, program, options, &mut progress)?;
    let log = progress.end();
    let told = count_up(alloc, run)?;
    let text = tell(alloc, program, options, words, &told, &log)?;
    Ok(Told {
        status: status_of(told.ended.verdict),
        text,
    })
}

/// A look at a text's first fault.
fn look_at(alloc: Global, text: &[u8], fault: ProgramFault) -> Result<Vec<u8>, AllocError> {
    let mut look = Vec::new(alloc);
    match fault {
        ProgramFault::Mps(fault) => push_look(alloc, &mut look, text, fault)?,
        ProgramFault::Opb(fault) => push_opb_look(alloc, &mut look, text, fault)?,
    }
    Ok(look)
}

/// Names a text's first fault, and looks at it.
fn tell_fault(alloc: Global, text: &[u8], fault: ProgramFault) -> Result<Told, AllocError>
    ensures status { IfOk result (λ told. told.status ≡ 2) }
    ensures lines { IfOk result (λ told. Begins (fault_text fault) told.text.items) }
{
    let mut told = fault_line(alloc, fault)?;
    let look = look_at(alloc, text, fault)?;
    told.extend_from_slice(look.as_slice())?;
    Ok(Told {
        status: 2,
        text: told,
    })
}

/// Reads a program, runs it, and tells of the run; or of the text's first fault. Progress is shown where that is wanted.
///
/// # Errors
/// Memory ran out.
pub fn run<R: Eprint>(
    rt: &R,
    alloc: Global,
    text: &[u8],
    words: &Words<'_>,
    is_shown: bool,
) -> Result<Told, AllocError>
    requires { length text.now < 2 ^ 32 }
    ensures { IfOk result (λ told. IsAnswer words.now text.now told.status told.text.items) }
{
    let form = form_of(words.options);
    let options = Options {
        numbers: form.numbers(),
        limit: words.options.limit,
        dual: words.options.dual,
    };
    match read_program(alloc, text, form) {
        Ok(program) => run_program(rt, alloc, &program, &options, words, is_shown),
        Err(ProgramError::Fault(fault)) => tell_fault(alloc, text, fault),
        Err(ProgramError::NoMemory) => Err(AllocError),
    }
}
