//! A look at a fault, as it is printed.

use crate::fields::{Field, bytes_of, fields_of};
use crate::places::{Line, Wanted, entry_before, fault_place, first_before, line_at};
use crate::sentences::sentence_of;
use mps_profile::MpsFaultKind;
use std::alloc::{AllocError, Global};
use text_lines::Fault;

/// The number of a line, a bar, and the line.
pub fn push_line(alloc: Global, text: &mut Vec<u8>, line: &Line<'_>) -> Result<usize, AllocError> {
    let number = line.number;
    let head = format!(in alloc; "{number} | ")?;
    text.extend_from_slice(head.as_bytes())?;
    text.extend_from_slice(line.bytes)?;
    text.push(b'\n')?;
    Ok(head.len())
}

/// A mark below each byte of a field, behind so many blanks.
fn push_mark(text: &mut Vec<u8>, head: usize, line: &[u8], field: Field) -> Result<(), AllocError> {
    for _ in 0..head {
        text.push(b' ')?;
    }
    for byte in line.iter().take(field.start) {
        text.push(if *byte == b'\t' { b'\t' } else { b' ' })?;
    }
    for _ in field.start..field.end {
        text.push(b'^')?;
    }
    text.push(b'\n')?;
    Ok(())
}

/// The card before a line that has a name first, where it helps to know it.
fn first_card<'a>(
    bytes: &'a [u8],
    line: &Line<'a>,
    fields: &[Field],
    kind: MpsFaultKind,
    name: &'a [u8],
) -> Option<Line<'a>> {
    let anywhere = Wanted {
        name,
        beside: None,
        section: None,
    };
    let here = Wanted {
        section: Some(line.section),
        ..anywhere
    };
    match kind {
        MpsFaultKind::UnknownRow | MpsFaultKind::UnknownColumn => {
            first_before(bytes, line, &anywhere)
        }
        MpsFaultKind::DuplicateName | MpsFaultKind::SplitColumn => first_before(bytes, line, &here),
        MpsFaultKind::DuplicateEntry => entry_before(bytes, line, fields, name),
        _ => None,
    }
}

/// The line of a fault, with a mark below the field at fault, and the sentence. What is behind it says where a name stood first.
fn push_fault<'a>(
    alloc: Global,
    text: &mut Vec<u8>,
    bytes: &'a [u8],
    line: &Line<'a>,
    kind: MpsFaultKind,
) -> Result<(), AllocError> {
    let head = push_line(alloc, text, line)?;
    let fields = fields_of(alloc, line.bytes)?;
    let place = fault_place(bytes, line, &fields, kind);
    if let Some(field) = place.and_then(|place| fields.get(place)) {
        push_mark(text, head, line.bytes, *field)?;
    }
    push_sentence(text, kind)?;
    let name = place.map_or(b"".as_slice(), |place| bytes_of(line.bytes, &fields, place));
    if let Some(first) = first_card(bytes, line, &fields, kind, name) {
        text.extend_from_slice(b"The name stands first here:\n")?;
        push_line(alloc, text, &first)?;
    }
    Ok(())
}

/// The sentence of a kind of fault.
fn push_sentence(text: &mut Vec<u8>, kind: MpsFaultKind) -> Result<(), AllocError> {
    text.extend_from_slice(sentence_of(kind).as_bytes())?;
    text.push(b'\n')?;
    Ok(())
}

/// Puts a look at a fault of `bytes` behind a text: the line, a mark below the field at fault, a sentence, and for a fault of names (M9 to
/// M13) the card before that has the name first.
///
/// # Errors
/// Memory ran out.
pub fn push_look(
    alloc: Global,
    text: &mut Vec<u8>,
    bytes: &[u8],
    fault: Fault<MpsFaultKind>,
) -> Result<(), AllocError> {
    match line_at(bytes, fault.line as u64) {
        Some(line) => push_fault(alloc, text, bytes, &line, fault.kind),
        None => push_sentence(text, fault.kind),
    }
}
