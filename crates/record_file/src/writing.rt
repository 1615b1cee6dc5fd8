//! Records to text.

ghost use Rattle.std.specs.Prelude.{◌≡◌, IfOk};
ghost use Rattle.record_file.specs.RecordText.{record_text};

use crate::records::push_undos;
use crate::sections::{push_header, push_labels, push_offset};
use record_values::TextVersion;
use std::alloc::{AllocError, Global};
use undo_records::Records;

/// The one text of records in a version: lines that end with a line feed, words with one space between, ids of the original program, numbers whole or
/// as `n/d` in lowest terms, and the offset as numbers are written in programs.
#[tactic(auto, using(crate::proofs::OntoLaws::sections_are))]
pub fn write_records(
    alloc: Global,
    records: &Records,
    version: TextVersion,
) -> Result<Vec<u8>, AllocError>
    ensures { IfOk result (λ text. text.items ≡ record_text version records.now) }
{
    let mut out = Vec::new(alloc);
    push_header(&mut out, version, records.sense(), records.undoes_duals())?;
    push_labels(&mut out, b"columns", records.columns())?;
    push_labels(&mut out, b"rows", records.rows())?;
    push_offset(&mut out, &records.offset())?;
    push_undos(&mut out, version, records.undos(), records.transactions())?;
    out.extend_from_slice(b"end\n")?;
    Ok(out)
}
