//! Reads a text line by line.

ghost use Rattle.std.specs.Prelude.{◌≡◌, ◌<◌, ◌^◌, List, length, IfOk};
ghost use Rattle.mps_profile.specs.Cards.{Card};
ghost use Rattle.lp_model.specs.Writable.{Writable, EntriesAscend};
ghost use Rattle.mps_tables.specs.Tables.{Holds};
ghost use Rattle.mps_assembly.specs.Assembled.{AreOf};
ghost use Rattle.mps_reader.specs.Reading.{IsRead, AreLines};

use crate::faults::MpsError;
use crate::reader::Reader;
use lp_model::Program;
use mps_assembly::{ColumnTables, Parts, RowTables, assemble};
use mps_profile::MpsFaultKind;
use mps_profile::dialect::Dialect;
use mps_tables::{Stop, Tables};
use std::alloc::Global;
use text_lines::{Fault, first_line};

/// Reads the lines of a text up to ENDATA.
fn read_lines(alloc: Global, text: &[u8], dialect: Dialect) -> Result<Reader, MpsError>
    requires { length text.now < 2 ^ 32 }
    ensures { AreLines dialect text.now result }
{
    let mut reader = Reader::new(alloc, dialect);
    let mut words = Vec::new(alloc);
    let mut rest = text;
    let mut number: u64 = 0;
    while !rest.is_empty() {
        if reader.is_ended() {
            return Ok(reader);
        }
        let (line, after) = first_line(rest);
        number += 1;
        match reader.line(alloc, line, after, words) {
            Ok(room) => words = room,
            Err(Stop::Fault(kind)) => {
                return Err(MpsError::Fault(Fault { kind, line: number }));
            }
            Err(Stop::OutOfMemory) => return Err(MpsError::NoMemory),
        }
        rest = after;
    }
    if reader.is_ended() {
        return Ok(reader);
    }
    Err(MpsError::Fault(Fault {
        kind: MpsFaultKind::NoEnd,
        line: number + 1,
    }))
}

/// What tables tell of rows and columns.
fn parts_of(tables: &Tables) -> Parts<'_>
    ensures { (cards : List Card) → Holds tables.now.dialect cards tables.now → AreOf tables.now.dialect cards result }
{
    Parts {
        rows: RowTables {
            names: tables.rows(),
            kinds: tables.kinds(),
            right_sides: tables.sides().as_slice(),
            ranges: tables.ranges().as_slice(),
        },
        columns: ColumnTables {
            names: tables.columns(),
            lowers: tables.lowers().as_slice(),
            uppers: tables.uppers().as_slice(),
            wholes: tables.wholes().as_slice(),
            semis: tables.semis().as_slice(),
            semi_uppers: tables.semi_uppers().as_slice(),
        },
        entries: tables.entries(),
    }
}

/// Reads the program of an MPS text: rows, columns, their entries, sides and bounds, the objective and the sense, by the
/// definitions of `mps_profile`. What follows ENDATA is unread.
///
/// # Errors
/// The first fault by line, at one line the one with the lowest number, exactly where the text has one; or want of memory.
pub fn read_mps(alloc: Global, bytes: &[u8], dialect: Dialect) -> Result<Program, MpsError>
    requires { length bytes.now < 2 ^ 32 }
    ensures read { IsRead dialect bytes.now result }
    ensures writable { IfOk result (λ program. Writable dialect.numbers program) }
    ensures few { IfOk result (λ program. (length program.rows < 2 ^ 32) × (length program.columns < 2 ^ 32)) }
    ensures ascends { IfOk result (λ program. EntriesAscend program) }
{
    let reader = read_lines(alloc, bytes, dialect)?;
    let parts = parts_of(&reader.tables);
    let program = assemble(alloc, reader.progress.sense, &parts)?;
    Ok(program)
}
