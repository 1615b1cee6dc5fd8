//! The records of a text that was found.

ghost use Rattle.std.specs.Prelude.{◌≡◌, ◌≤◌, length, option_map, IfOk, IfSome};
ghost use Rattle.record_texts.specs.RecordTexts.{GivesRecords, record_fault_text};

use crate::no_records::NoRecords;
use record_reader::{RecordError, RecordFaultKind, read_records};
use std::alloc::{AllocError, Global};
use text_lines::Fault;
use undo_records::Records;

/// The longest text of records that is read, in bytes.
pub const RECORDS_LIMIT: u64 = 1_073_741_824;

/// The line that names a fault of a text of records.
fn fault_line(alloc: Global, fault: Fault<RecordFaultKind>) -> Result<Vec<u8>, AllocError>
    ensures { IfOk result (λ text. text.items ≡ record_fault_text fault) }
{
    let number = fault.kind.number();
    let line = fault.line;
    let text = format!(in alloc; "error F{number} line {line}\n")?;
    Vec::from_slice(alloc, text.as_bytes())
}

/// The records of a text; where there is none, it was longer than is read.
///
/// # Errors
/// The line that refuses the text, or want of memory.
pub fn records_of(alloc: Global, found: Option<Vec<u8>>) -> Result<Records, NoRecords>
    requires { IfSome found (λ text. length text.items ≤ RECORDS_LIMIT) }
    ensures { GivesRecords (option_map (λ text. text.items) found) result }
{
    let Some(text) = found else {
        return Err(NoRecords::Refused(Vec::from_slice(alloc, b"error F8\n")?));
    };
    match read_records(alloc, &text) {
        Ok(records) => Ok(records),
        Err(RecordError::Fault(fault)) => Err(NoRecords::Refused(fault_line(alloc, fault)?)),
        Err(RecordError::NoMemory) => Err(NoRecords::NoMemory),
    }
}
