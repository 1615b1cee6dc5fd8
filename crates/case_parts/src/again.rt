//! Texts that are read and written again.

use crate::shown;
use anyhow::{Result, anyhow, ensure};
use endings::{Form, ProgramError, ProgramFault, fault_line, read_program};
use fault_look::{push_look, push_opb_look};
use fractions::Numbers;
use mps_profile::dialect::{Dialect, Format};
use mps_writer::write_mps;
use record_file::write_records;
use record_reader::{RecordError, read_records};
use record_values::TextVersion;
use std::str;

/// How a text is read, by words: OPB, or a format of MPS and numbers.
pub fn form(words: &str) -> Result<Form> {
    let (format, numbers) = match words {
        "free decimal" => (Format::Free, Numbers::Decimal),
        "free fractions" => (Format::Free, Numbers::Fractions),
        "fixed decimal" => (Format::Fixed, Numbers::Decimal),
        "fixed fractions" => (Format::Fixed, Numbers::Fractions),
        "opb" => return Ok(Form::Opb(Numbers::Decimal)),
        _ => return Err(anyhow!("an unknown form")),
    };
    Ok(Form::Mps(Dialect { format, numbers }))
}

/// Reads the program of a text and writes it, or prints the text's first fault.
pub fn program(rt: &HostRuntime, bytes: &[u8], form: Form) -> Result<()> {
    ensure!(bytes.len() < 1 << 32, "a text that is too long");
    match read_program(rt.alloc(), bytes, form) {
        Ok(program) => shown::text(rt, &write_mps(rt.alloc(), &program)?),
        Err(ProgramError::Fault(fault)) => {
            let line = fault_line(rt.alloc(), fault)?;
            let line = str::from_utf8(&line)?;
            print!(rt; "{line}")?;
            Ok(())
        }
        Err(ProgramError::NoMemory) => Err(anyhow!("no memory")),
    }
}

/// Prints a look at the first fault of a text.
pub fn look(rt: &HostRuntime, bytes: &[u8], form: Form) -> Result<()> {
    ensure!(bytes.len() < 1 << 32, "a text that is too long");
    let mut text = Vec::new(rt.alloc());
    match read_program(rt.alloc(), bytes, form) {
        Ok(_) => println!(rt; "no fault")?,
        Err(ProgramError::Fault(ProgramFault::Mps(fault))) => {
            push_look(rt.alloc(), &mut text, bytes, fault)?;
        }
        Err(ProgramError::Fault(ProgramFault::Opb(fault))) => {
            push_opb_look(rt.alloc(), &mut text, bytes, fault)?;
        }
        Err(ProgramError::NoMemory) => return Err(anyhow!("no memory")),
    }
    shown::text(rt, &text)
}

/// Reads the records of a text and writes them in the second version, or prints the text's first fault.
pub fn records(rt: &HostRuntime, bytes: &[u8]) -> Result<()> {
    ensure!(bytes.len() < 1 << 40, "a text that is too long");
    match read_records(rt.alloc(), bytes) {
        Ok(records) => shown::text(
            rt,
            &write_records(rt.alloc(), &records, TextVersion::Second)?,
        ),
        Err(RecordError::Fault(fault)) => {
            let number = fault.kind.number();
            let line = fault.line;
            println!(rt; "error F{number} line {line}")?;
            Ok(())
        }
        Err(RecordError::NoMemory) => Err(anyhow!("no memory")),
    }
}

/// Prints what a word is as a number: its written form, or why it is none.
pub fn number(rt: &HostRuntime, word: &str, numbers: Numbers) -> Result<()> {
    match number_texts::read(word.as_bytes(), numbers) {
        Ok(number) => {
            let text = number_texts::write(rt.alloc(), &number)?;
            let text = str::from_utf8(&text)?;
            print!(rt; "{text}")?;
        }
        Err(number_texts::ReadNumber::NotNumber) => print!(rt; "no number")?,
        Err(number_texts::ReadNumber::NumberPast) => print!(rt; "past")?,
    }
    Ok(())
}
