//! The program of IN's text.

ghost use Rattle.std.specs.Prelude.{◌<◌, ◌≤◌, ◌^◌, length, option_map, IfOk, IfSome};
ghost use Rattle.endings.specs.declared.reads.TheConstants.{INPUT_LIMIT};
ghost use Rattle.solve_command.specs.Given.{GivesContinuous, GivesProgram};

use crate::refusal::Unsolved;
use endings::{Ending, Form, ProgramError, fault_line, not_continuous_text, read_program};
use lp_check::first_not_continuous;
use lp_model::Program;
use std::alloc::Global;

/// The program of a text that was found; where that is none, it was longer than is read.
fn program_of(alloc: Global, found: Option<Vec<u8>>, form: Form) -> Result<Program, Unsolved>
    requires { IfSome found (λ text. length text.items ≤ INPUT_LIMIT) }
    ensures program { GivesProgram form (option_map (λ text. text.items) found) result }
    ensures few { IfOk result (λ program. length program.columns < 2 ^ 32) }
{
    let Some(text) = found else {
        let line = Vec::from_slice(alloc, b"error M17\n")?;
        return Err(Unsolved::Ends(Ending::Refused(line)));
    };
    match read_program(alloc, &text, form) {
        Ok(program) => Ok(program),
        Err(ProgramError::Fault(fault)) => {
            Err(Unsolved::Ends(Ending::Refused(fault_line(alloc, fault)?)))
        }
        Err(ProgramError::NoMemory) => Err(Unsolved::NoMemory),
    }
}

/// The program of a text that was found, where no column has to be whole or is semi-continuous.
///
/// # Errors
/// The line that refuses the text, or that names the first such column; or want of memory.
pub fn continuous_program(
    alloc: Global,
    found: Option<Vec<u8>>,
    form: Form,
) -> Result<Program, Unsolved>
    requires { IfSome found (λ text. length text.items ≤ INPUT_LIMIT) }
    ensures { GivesContinuous form (option_map (λ text. text.items) found) result }
{
    let program = program_of(alloc, found, form)?;
    match first_not_continuous(&program) {
        Some(column) => {
            let line = not_continuous_text(alloc, &program, column)?;
            Err(Unsolved::Ends(Ending::Refused(line)))
        }
        None => Ok(program),
    }
}
