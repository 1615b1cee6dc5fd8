//! The sections of the record text.

ghost use Rattle.std.specs.Prelude.{◌≡◌, ◌++◌, OnOk};
ghost use Rattle.record_file.specs.RecordText.{line_text, lines_text, header_lines, label_line, label_lines, offset_line, setting_lines, undo_line, version_line};

use crate::fields::{push_fields, rule_name};
use crate::words::push_count;
use fractions::frac::Frac;
use lp_model::Sense;
use record_values::TextVersion;
use std::alloc::AllocError;
use undo_records::{Label, Undo};

/// The header of a version.
fn version_text(version: TextVersion) -> &'static [u8]
    ensures { result.now ≡ line_text (version_line version) }
{
    match version {
        TextVersion::First => b"papilo-records 1\n",
        TextVersion::Second => b"papilo-records 2\n",
    }
}

/// The lines of the sense, and of whether the records undo duals too.
fn setting_text(sense: Sense, duals: bool) -> &'static [u8]
    ensures { result.now ≡ lines_text (setting_lines sense duals) }
{
    match (sense, duals) {
        (Sense::Min, false) => b"sense min\nduals no\n",
        (Sense::Min, true) => b"sense min\nduals yes\n",
        (Sense::Max, false) => b"sense max\nduals no\n",
        (Sense::Max, true) => b"sense max\nduals yes\n",
    }
}

/// Appends the lines in front of the columns: the header, the sense, and whether the records undo duals too.
pub fn push_header(
    out: &mut Vec<u8>,
    version: TextVersion,
    sense: Sense,
    duals: bool,
) -> Result<(), AllocError>
    ensures { OnOk result (out.new.items ≡ out.old.items ++ lines_text (header_lines version sense duals)) }
{
    out.extend_from_slice(version_text(version))?;
    out.extend_from_slice(setting_text(sense, duals))
}

/// Appends whether a row or a column is live, and its name.
fn push_label(out: &mut Vec<u8>, label: &Label) -> Result<(), AllocError>
    ensures { OnOk result (out.new.items ≡ out.old.items ++ line_text (label_line label.now)) }
{
    if label.live {
        out.extend_from_slice(b"live ")?;
    } else {
        out.extend_from_slice(b"gone ")?;
    }
    out.extend_from_slice(label.name.as_bytes())?;
    out.extend_from_slice(b"\n")
}

/// Appends a heading with the number of labels, and a line for each of them.
pub fn push_labels(out: &mut Vec<u8>, heading: &[u8], labels: &[Label]) -> Result<(), AllocError>
    ensures { OnOk result (out.new.items ≡ out.old.items ++ lines_text (label_lines heading.now labels.now)) }
{
    out.extend_from_slice(heading)?;
    push_count(out, labels.len())?;
    out.push(b'\n')?;
    let mut rest = labels;
    while let [label, after @ ..] = rest {
        push_label(out, label)?;
        rest = after;
    }
    Ok(())
}

/// Appends the offset.
pub fn push_offset(out: &mut Vec<u8>, offset: &Frac) -> Result<(), AllocError>
    ensures { OnOk result (out.new.items ≡ out.old.items ++ line_text (offset_line offset.now)) }
{
    out.extend_from_slice(b"offset ")?;
    number_texts::push(out, offset)?;
    out.extend_from_slice(b"\n")
}

/// Appends a record's line.
#[tactic(auto, using(crate::proofs::OntoLaws::line_onto_is))]
pub fn push_undo(out: &mut Vec<u8>, undo: &Undo) -> Result<(), AllocError>
    ensures { OnOk result (out.new.items ≡ out.old.items ++ line_text (undo_line undo.now)) }
{
    out.extend_from_slice(rule_name(undo))?;
    push_fields(out, undo)?;
    out.extend_from_slice(b"\n")
}
