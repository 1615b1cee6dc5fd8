//! Lines of a text, and their fields by blanks.

use mps_cards::fields::is_blank;
use mps_cards::lines::{LineKind, line_kind};
use std::alloc::{AllocError, Global};

/// Where a field of a line begins and ends.
#[derive(Clone, Copy)]
pub struct Field {
    pub start: usize,
    pub end: usize,
}

/// The fields of a line.
pub fn fields_of(alloc: Global, line: &[u8]) -> Result<Vec<Field>, AllocError> {
    let mut fields = Vec::new(alloc);
    let mut begun: Option<usize> = None;
    for (place, byte) in line.iter().enumerate() {
        if !is_blank(*byte) {
            begun = Some(begun.unwrap_or(place));
        } else if let Some(start) = begun {
            fields.push(Field { start, end: place })?;
            begun = None;
        }
    }
    if let Some(start) = begun {
        fields.push(Field {
            start,
            end: line.len(),
        })?;
    }
    Ok(fields)
}

/// The bytes of the field at a place, none where there is no such field.
pub fn bytes_of<'a>(line: &'a [u8], fields: &[Field], place: usize) -> &'a [u8] {
    match fields.get(place) {
        Some(field) => line.get(field.start..field.end).unwrap_or(&[]),
        None => &[],
    }
}

/// A line without what ends it.
pub fn trimmed(line: &[u8]) -> &[u8] {
    match line {
        [before @ .., b'\r', b'\n'] => before,
        [before @ .., b'\n'] => before,
        [before @ .., b'\r'] => before,
        _ => line,
    }
}

/// The first word of a section's line; none for other lines.
pub fn heading(line: &[u8]) -> Option<&[u8]> {
    match line_kind(line) {
        LineKind::Heading => line.split(|byte| is_blank(*byte)).next(),
        _ => None,
    }
}

/// Whether a card has a field of these bytes.
pub fn has_field(line: &[u8], name: &[u8]) -> bool {
    line.split(|byte| is_blank(*byte))
        .any(|field| field == name)
}
