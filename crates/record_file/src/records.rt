//! The section of records, in both versions.

ghost use Rattle.std.specs.Prelude.{◌≡◌, ◌++◌, OnOk, codes, map};
ghost use Rattle.record_file.specs.Fields.{read_words, transaction_words};
ghost use Rattle.record_file.specs.RecordText.{line, line_text, lines_text, told_at, told_lines, transaction_lines, undo_line, undo_lines};

use crate::sections::push_undo;
use crate::words::{push_count, push_id, push_number, push_part};
use record_values::TextVersion;
use std::alloc::AllocError;
use undo_records::{PartRead, Transaction, Transactions, Undo};

/// Appends the line of a part that was read.
#[tactic(auto, using(crate::proofs::OntoLaws::line_onto_is))]
fn push_read(out: &mut Vec<u8>, read: &PartRead) -> Result<(), AllocError>
    ensures { OnOk result (out.new.items ≡ out.old.items ++ line_text (line (codes "part") (read_words read.now))) }
{
    push_part(out, read.part)?;
    push_number(out, read.changes)?;
    out.push(b'\n')?;
    Ok(())
}

/// Appends the line of a transaction at a place.
#[tactic(auto, using(crate::proofs::OntoLaws::line_onto_is))]
fn push_heading(
    out: &mut Vec<u8>,
    place: usize,
    transaction: &Transaction<'_>,
) -> Result<(), AllocError>
    ensures { OnOk result (out.new.items ≡ out.old.items ++ line_text (line (codes "transaction") (transaction_words place transaction.now))) }
{
    out.extend_from_slice(b"transaction")?;
    push_count(out, place)?;
    push_id(out, transaction.by())?;
    push_number(out, transaction.version())?;
    push_count(out, transaction.reads().len())?;
    out.extend_from_slice(b"\n")
}

/// Appends a transaction at a place: a line for itself, and one for each part that it read.
fn push_transaction(
    out: &mut Vec<u8>,
    place: usize,
    transaction: &Transaction<'_>,
) -> Result<(), AllocError>
    ensures { OnOk result (out.new.items ≡ out.old.items ++ lines_text (transaction_lines place transaction.now)) }
{
    push_heading(out, place, transaction)?;
    let mut rest = transaction.reads();
    while let [read, after @ ..] = rest {
        push_read(out, read)?;
        rest = after;
    }
    Ok(())
}

/// Appends a line for each record.
fn push_records_alone(out: &mut Vec<u8>, undos: &[Undo]) -> Result<(), AllocError>
    ensures { OnOk result (out.new.items ≡ out.old.items ++ lines_text (map undo_line undos.now)) }
{
    let mut rest = undos;
    while let [undo, after @ ..] = rest {
        push_undo(out, undo)?;
        rest = after;
    }
    Ok(())
}

/// Appends a record at a place, behind its transaction if it has one.
fn push_told(
    out: &mut Vec<u8>,
    place: usize,
    transaction: Option<Transaction<'_>>,
    undo: &Undo,
) -> Result<(), AllocError>
    ensures { OnOk result (out.new.items ≡ out.old.items ++ lines_text (told_at place transaction.entry undo.now)) }
{
    match transaction {
        Some(transaction) => {
            push_transaction(out, place, &transaction)?;
            push_undo(out, undo)?;
            Ok(())
        }
        None => push_undo(out, undo),
    }
}

/// Appends each record behind its transaction.
fn push_records_told(
    out: &mut Vec<u8>,
    undos: &[Undo],
    transactions: &Transactions,
) -> Result<(), AllocError>
    ensures { OnOk result (out.new.items ≡ out.old.items ++ lines_text (told_lines 1 undos.now transactions.now)) }
{
    for place in 0..undos.len() {
        push_told(out, place + 1, transactions.get(place), &undos[place])?;
    }
    Ok(())
}

/// Appends the number of records, and their lines.
pub fn push_undos(
    out: &mut Vec<u8>,
    version: TextVersion,
    undos: &[Undo],
    transactions: &Transactions,
) -> Result<(), AllocError>
    ensures { OnOk result (out.new.items ≡ out.old.items ++ lines_text (undo_lines version undos.now transactions.now)) }
{
    out.extend_from_slice(b"records")?;
    push_count(out, undos.len())?;
    out.push(b'\n')?;
    match version {
        TextVersion::First => push_records_alone(out, undos),
        TextVersion::Second => push_records_told(out, undos, transactions),
    }
}
