//! How the text of a program is read.

ghost use Rattle.std.specs.Prelude.{◌≡◌, ◌<◌, ◌^◌, length, IfOk};
ghost use Rattle.fractions.specs.declared.Numbers.{Numbers};
ghost use Rattle.lp_model.specs.Writable.{EntriesAscend, Writable};
ghost use Rattle.endings.specs.Forms.{form_of, form_with, fractions_form, mps_form, numbers_in};
ghost use Rattle.endings.specs.ProgramTexts.{IsReadAs};
ghost use Rattle.endings.specs.declared.forms.Form.TheVariants as forms;

use command_words::{InputFormat, PresolveOptions};
use fractions::Numbers;
use lp_model::Program;
use mps_profile::MpsFaultKind;
use mps_reader::{Dialect, Format, MpsError, read_mps};
use opb_reader::{OpbError, read_opb};
use opb_text::OpbFaultKind;
use std::alloc::{AllocError, Global};
use text_lines::Fault;

/// How the text of a program is read.
#[derive(Clone, Copy, Debug, PartialEq, Eq)]
pub enum Form {
    /// As MPS of this dialect.
    Mps(Dialect),
    /// As OPB, for a program of these numbers. The text has whole numbers alone, which are both kinds.
    Opb(Numbers),
}

/// A fault of a program's text, by the form that it is read in.
#[derive(Clone, Copy, Debug, PartialEq, Eq)]
pub enum ProgramFault {
    /// Of MPS.
    Mps(Fault<MpsFaultKind>),
    /// Of OPB.
    Opb(Fault<OpbFaultKind>),
}

/// Why a text gives no program.
#[derive(Clone, Copy, Debug, PartialEq, Eq)]
pub enum ProgramError {
    /// The text's first fault.
    Fault(ProgramFault),
    /// Want of memory.
    NoMemory,
}

/// MPS of the fixed format, or of the free one, with these numbers.
fn mps(fixed: bool, numbers: Numbers) -> Form
    ensures { result ≡ mps_form fixed numbers }
{
    let format = if fixed { Format::Fixed } else { Format::Free };
    Form::Mps(Dialect { format, numbers })
}

/// How a text of this format is read, with these numbers.
pub fn form_with(format: InputFormat, numbers: Numbers) -> Form
    ensures { result ≡ form_with format numbers }
{
    match format {
        InputFormat::Free => mps(false, numbers),
        InputFormat::Fixed => mps(true, numbers),
        InputFormat::Opb => Form::Opb(numbers),
    }
}

/// How presolve reads IN.
pub fn form_of(options: PresolveOptions) -> Form
    ensures { result ≡ form_of options }
{
    let numbers = if options.fractions {
        Numbers::Fractions
    } else {
        Numbers::Decimal
    };
    form_with(options.format, numbers)
}

/// How MPS is read whose numbers may be fractions, of the fixed format or of the free one.
pub fn fractions_form(fixed: bool) -> Form
    ensures { result ≡ fractions_form fixed }
{
    mps(fixed, Numbers::Fractions)
}

impl Form {
    /// The numbers that are taken.
    pub fn numbers(self) -> Numbers
        ensures { result ≡ numbers_in self }
    {
        match self {
            Form::Mps(dialect) => dialect.numbers,
            Form::Opb(numbers) => numbers,
        }
    }
}

/// The program of an MPS text.
fn read_as_mps(alloc: Global, text: &[u8], dialect: Dialect) -> Result<Program, ProgramError>
    requires { length text.now < 2 ^ 32 }
    ensures read { IsReadAs (forms.Mps dialect) text.now result }
    ensures writable { IfOk result (λ program. Writable dialect.numbers program) }
    ensures few { IfOk result (λ program. (length program.rows < 2 ^ 32) × (length program.columns < 2 ^ 32)) }
    ensures ascends { IfOk result (λ program. EntriesAscend program) }
{
    match read_mps(alloc, text, dialect) {
        Ok(program) => Ok(program),
        Err(MpsError::Fault(fault)) => Err(ProgramError::Fault(ProgramFault::Mps(fault))),
        Err(MpsError::NoMemory) => Err(ProgramError::NoMemory),
    }
}

/// The program of an OPB text.
fn read_as_opb(alloc: Global, text: &[u8]) -> Result<Program, ProgramError>
    requires { length text.now < 2 ^ 32 }
    ensures read { (numbers : Numbers) → IsReadAs (forms.Opb numbers) text.now result }
    ensures writable { (numbers : Numbers) → IfOk result (λ program. Writable numbers program) }
    ensures few { IfOk result (λ program. (length program.rows < 2 ^ 32) × (length program.columns < 2 ^ 32)) }
    ensures ascends { IfOk result (λ program. EntriesAscend program) }
{
    match read_opb(alloc, text) {
        Ok(program) => Ok(program),
        Err(OpbError::Fault(fault)) => Err(ProgramError::Fault(ProgramFault::Opb(fault))),
        Err(OpbError::NoMemory) => Err(ProgramError::NoMemory),
    }
}

/// The program of a text.
///
/// # Errors
/// The text's first fault, or want of memory.
pub fn read_program(alloc: Global, text: &[u8], form: Form) -> Result<Program, ProgramError>
    requires { length text.now < 2 ^ 32 }
    ensures read { IsReadAs form text.now result }
    ensures writable { IfOk result (λ program. Writable (numbers_in form) program) }
    ensures few { IfOk result (λ program. (length program.rows < 2 ^ 32) × (length program.columns < 2 ^ 32)) }
    ensures ascends { IfOk result (λ program. EntriesAscend program) }
{
    match form {
        Form::Mps(dialect) => read_as_mps(alloc, text, dialect),
        Form::Opb(_) => read_as_opb(alloc, text),
    }
}
