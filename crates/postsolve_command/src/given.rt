//! What the texts of OUT, REC and SOL give.

ghost use Rattle.std.specs.Prelude.{◌≡◌, ◌≤◌, length, option_map, IfOk, IfSome};
ghost use Rattle.lp_model.specs.Writable.{EntriesAscend};
ghost use Rattle.postsolve_command.specs.Given.{Fitting, GivesPair, GivesProgram, Undoing};

use crate::refusal::Refusal;
use endings::{ProgramError, fault_line, fractions_form, read_program, solution_fault_line};
use exact_numbers::Exact;
use exact_texts::Textual;
use lp_model::Program;
use point_text::{PairOf, SolError, read_pair_of};
use record_reader::matches;
use std::alloc::Global;
use undo_records::Records;

/// The longest reduced program that is read, in bytes.
pub const PROGRAM_LIMIT: u64 = 1_073_741_824;

/// The bytes of OUT, REC and SOL; none of a name that holds more than is read.
#[derive(Drop)]
pub struct Found {
    pub program: Option<Vec<u8>>,
    pub records: Option<Vec<u8>>,
    pub solution: Option<Vec<u8>>,
}

/// The program of OUT's text, which is in the free format and has fractions.
pub fn program_of(alloc: Global, found: Option<Vec<u8>>) -> Result<Program, Refusal>
    requires { IfSome found (λ text. length text.items ≤ PROGRAM_LIMIT) }
    ensures program { GivesProgram (option_map (λ text. text.items) found) result }
    ensures ascends { IfOk result (λ program. EntriesAscend program) }
{
    let Some(text) = found else {
        return Err(Refusal::Program(Vec::from_slice(alloc, b"error M17\n")?));
    };
    match read_program(alloc, &text, fractions_form(false)) {
        Ok(program) => Ok(program),
        Err(ProgramError::Fault(fault)) => Err(Refusal::Program(fault_line(alloc, fault)?)),
        Err(ProgramError::NoMemory) => Err(Refusal::NoMemory),
    }
}

/// Whether the records are those of the program: the names of what is live are the program's names.
pub fn see_match(alloc: Global, records: &Records, program: &Program) -> Result<(), Refusal>
    ensures { Fitting records.now program.now result }
{
    if matches(records, program) {
        return Ok(());
    }
    Err(Refusal::Records(Vec::from_slice(alloc, b"error F5\n")?))
}

/// The point of SOL's text, and its duals if it has duals, by the program's names and in numbers of a kind.
pub fn pair_of<T: Textual>(
    alloc: Global,
    program: &Program,
    found: Option<Vec<u8>>,
) -> Result<PairOf<T>, Refusal>
    ensures pair { GivesPair T.texts.reading program.now (option_map (λ text. text.items) found) result }
    ensures each { IfOk result (λ pair. IfSome pair.duals (λ duals. length duals ≡ length program.now.rows)) }
{
    let Some(text) = found else {
        return Err(Refusal::Solution(Vec::from_slice(alloc, b"error S6\n")?));
    };
    match read_pair_of::<T, Program>(alloc, &text, program) {
        Ok(pair) => Ok(pair),
        Err(SolError::Fault(fault)) => Err(Refusal::Solution(solution_fault_line(alloc, fault)?)),
        Err(SolError::NoMemory) => Err(Refusal::NoMemory),
    }
}

/// Whether the records undo duals, where there are any.
pub fn see_duals<T: Exact>(
    alloc: Global,
    records: &Records,
    pair: &PairOf<T>,
) -> Result<(), Refusal>
    ensures { Undoing records.now pair.now.duals result }
{
    let Some(_duals) = &pair.duals else {
        return Ok(());
    };
    if records.undoes_duals() {
        return Ok(());
    }
    Err(Refusal::Records(Vec::from_slice(alloc, b"error F7\n")?))
}
