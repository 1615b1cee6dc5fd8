//! The reading of a record text.

ghost use Rattle.std.specs.Prelude.{◌≡◌, ◌<◌, ◌^◌, ℕ, List, None, length, All};
ghost use Rattle.undo_records.specs.Named.{AreNamed, AreTold};
ghost use Rattle.undo_records.specs.Walk.{AreSound};
ghost use Rattle.record_reader.specs.Reading.{first_fault, records_of, IsRead};
ghost use Rattle.record_reader.specs.Results.{seen, TakesAll, IsDraft};

use crate::draft::Draft;
use crate::faults::{RecordError, RecordFaultKind, TakeError};
use crate::stages::is_over;
use std::alloc::Global;
use text_lines::{Fault, first_raw_line};
use undo_records::Records;

/// A text of records without a fault gives sound records, whose labels have names, each with its transaction.
pub fn read_texts_are_sound()
    ensures sound { (text : List ℕ) → first_fault text ≡ None → AreSound (records_of text) }
    ensures named { (text : List ℕ) → first_fault text ≡ None → AreNamed (records_of text) }
    ensures told { (text : List ℕ) → first_fault text ≡ None → AreTold (records_of text) }
{}

/// Takes in the lines of a text.
fn take_lines(alloc: Global, draft: &mut Draft, text: &[u8]) -> Result<(), RecordError>
    requires { length text.now < 2 ^ 63 }
    ensures { TakesAll (seen draft.old) text.now result (seen draft.new) }
{
    let mut rest = text;
    let mut number: u64 = 0;
    while !rest.is_empty() {
        let (line, after) = first_raw_line(rest);
        match draft.take_line(alloc, line, after.len()) {
            Ok(()) => {}
            Err(TakeError::Fault(kind)) => {
                return Err(RecordError::Fault(Fault {
                    kind,
                    line: number + 1,
                }));
            }
            Err(TakeError::NoMemory) => return Err(RecordError::NoMemory),
        }
        number += 1;
        rest = after;
    }
    if is_over(draft.stage) {
        return Ok(());
    }
    Err(RecordError::Fault(Fault {
        kind: RecordFaultKind::Cut,
        line: number + 1,
    }))
}

/// What all lines of a text give.
#[tactic(auto, unfolding(crate::specs::Reading::first_fault, crate::specs::Reading::records_of))]
fn read_draft(alloc: Global, text: &[u8]) -> Result<Draft, RecordError>
    requires { length text.now < 2 ^ 63 }
    ensures { IsDraft text.now result }
{
    let mut draft = Draft::new(alloc)?;
    match take_lines(alloc, &mut draft, text) {
        Ok(()) => Ok(draft),
        Err(RecordError::Fault(fault)) => Err(RecordError::Fault(fault)),
        Err(RecordError::NoMemory) => Err(RecordError::NoMemory),
    }
}

/// The records of a draft.
fn records_in(draft: Draft) -> Records
    requires sound { AreSound (seen draft).given }
    requires named { AreNamed (seen draft).given }
    requires told { AreTold (seen draft).given }
    ensures { result ≡ (seen draft).given }
{
    Records::new(
        draft.sense,
        draft.duals,
        draft.columns,
        draft.rows,
        draft.offset,
        draft.undos,
        draft.transactions,
    )
}

/// The records that a text of either version tells. Where it is of the first, nothing is known of their transactions.
///
/// # Errors
/// [`RecordError::Fault`] exactly where a line has a fault, or the text ends before its end line: the first such line, and its fault with
/// the lowest number. [`RecordError::NoMemory`] where memory is short.
pub fn read_records(alloc: Global, bytes: &[u8]) -> Result<Records, RecordError>
    requires { length bytes.now < 2 ^ 63 }
    ensures { IsRead bytes.now result }
{
    match read_draft(alloc, bytes) {
        Ok(draft) => Ok(records_in(draft)),
        Err(RecordError::Fault(fault)) => Err(RecordError::Fault(fault)),
        Err(RecordError::NoMemory) => Err(RecordError::NoMemory),
    }
}
