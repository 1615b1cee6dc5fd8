//! Reads a text line by line.

ghost use Rattle.std.specs.Prelude.{◌≡◌, ◌<◌, ◌^◌, List, length, IfOk};
ghost use Rattle.fractions.specs.declared.Numbers.{Numbers};
ghost use Rattle.lp_model.specs.Names.{WellNamed};
ghost use Rattle.lp_model.specs.Writable.{EntriesAscend, Writable};
ghost use Rattle.opb_text.specs.Tokens.{Token};
ghost use Rattle.opb_text.specs.Program.{program_in};
ghost use Rattle.opb_reader.specs.Holding.{Holds};
ghost use Rattle.opb_reader.specs.Reading.{AreTokens, IsRead};

use crate::faults::OpbError;
use crate::places::may_end;
use crate::reader::Reader;
use fractions::frac::Frac;
use lp_model::{Name, Program, Sense};
use opb_text::OpbFaultKind;
use std::alloc::{AllocError, Global};
use text_lines::{Fault, first_line};

/// Reads the lines of a text.
fn read_lines(alloc: Global, text: &[u8]) -> Result<Reader, OpbError>
    requires { length text.now < 2 ^ 32 }
    ensures { AreTokens text.now result }
{
    let mut reader = Reader::new(alloc)?;
    let mut rest = text;
    let mut number: u64 = 0;
    while !rest.is_empty() {
        let (line, after) = first_line(rest);
        number += 1;
        if let Some(kind) = reader.line(alloc, line)? {
            return Err(OpbError::Fault(Fault { kind, line: number }));
        }
        rest = after;
    }
    if may_end(reader.place) {
        return Ok(reader);
    }
    Err(OpbError::Fault(Fault {
        kind: OpbFaultKind::NoEnd,
        line: number + 1,
    }))
}

/// The program that a text's tokens say.
fn program(alloc: Global, reader: Reader) -> Result<Program, AllocError>
    requires { (tokens : List Token) × Holds tokens reader × WellNamed (program_in tokens).objective (program_in tokens).rows (program_in tokens).columns }
    ensures { (tokens : List Token) → Holds tokens reader → IfOk result (λ program. program ≡ program_in tokens) }
{
    let columns = reader.columns.into_definitions(alloc)?;
    Ok(Program::new(
        Sense::Min,
        Name::from_slice(alloc, b"obj")?,
        Frac::whole(reader.rows.constant),
        reader.rows.rows,
        columns,
    ))
}

/// Reads the program of a text of the pseudo-Boolean format OPB, of its linear profile with whole numbers: the statement `min:`, which may be missing,
/// and constraints `>=` and `=`. Columns are whole, from 0 to 1, and are numbered in the order in which they are first named; the constraints are
/// `c1`, `c2` and so on.
///
/// # Errors
/// The first fault by line, at one line the one with the lowest number, exactly where the text has one; or want of memory.
pub fn read_opb(alloc: Global, bytes: &[u8]) -> Result<Program, OpbError>
    requires { length bytes.now < 2 ^ 32 }
    ensures read { IsRead bytes.now result }
    ensures writable { (numbers : Numbers) → IfOk result (λ program. Writable numbers program) }
    ensures few { IfOk result (λ program. (length program.rows < 2 ^ 32) × (length program.columns < 2 ^ 32)) }
    ensures ascends { IfOk result (λ program. EntriesAscend program) }
{
    let reader = read_lines(alloc, bytes)?;
    Ok(program(alloc, reader)?)
}
