//! What the texts of IN and OUT give.

ghost use Rattle.std.specs.Prelude.{◌<◌, ◌≤◌, ◌^◌, length, option_map, IfOk, IfSome};
ghost use Rattle.lp_model.specs.Writable.{EntriesAscend};
ghost use Rattle.endings.specs.declared.reads.TheConstants.{INPUT_LIMIT};
ghost use Rattle.verify_command.specs.Given.{GivesProgram};

use crate::refusal::Refusal;
use endings::{Form, ProgramError, fault_line, read_program};
use lp_model::Program;
use std::alloc::Global;

/// The bytes of IN, OUT and REC; none of a name that holds more than is read.
#[derive(Drop)]
pub struct Found {
    pub input: Option<Vec<u8>>,
    pub output: Option<Vec<u8>>,
    pub records: Option<Vec<u8>>,
}

/// The program of a text that was found; where that is none, it was longer than is read.
///
/// # Errors
/// The line that refuses the text, or want of memory.
pub fn program_of(alloc: Global, found: Option<Vec<u8>>, form: Form) -> Result<Program, Refusal>
    requires { IfSome found (λ text. length text.items ≤ INPUT_LIMIT) }
    ensures program { GivesProgram form (option_map (λ text. text.items) found) result }
    ensures few { IfOk result (λ program. (length program.rows < 2 ^ 32) × (length program.columns < 2 ^ 32)) }
    ensures ascends { IfOk result (λ program. EntriesAscend program) }
{
    let Some(text) = found else {
        return Err(Refusal::Program(Vec::from_slice(alloc, b"error M17\n")?));
    };
    match read_program(alloc, &text, form) {
        Ok(program) => Ok(program),
        Err(ProgramError::Fault(fault)) => Err(Refusal::Program(fault_line(alloc, fault)?)),
        Err(ProgramError::NoMemory) => Err(Refusal::NoMemory),
    }
}
