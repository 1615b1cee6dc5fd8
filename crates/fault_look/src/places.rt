//! Which field of a line is at fault.

use crate::fields::{Field, bytes_of, has_field, heading, trimmed};
use fractions::Numbers;
use mps_profile::faults::MpsFaultKind;
use number_texts::{ReadNumber, read};

/// A line of a text: its number from 1 on, the section that it stands in, and its bytes.
#[derive(Clone, Copy)]
pub struct Line<'a> {
    pub number: usize,
    pub section: &'a [u8],
    pub bytes: &'a [u8],
}

/// The line of a number.
pub fn line_at(text: &[u8], number: u64) -> Option<Line<'_>> {
    let mut section: &[u8] = b"";
    let mut before: u64 = 0;
    for raw in text.split_inclusive(|byte| *byte == b'\n') {
        let bytes = trimmed(raw);
        before = before.saturating_add(1);
        if before == number {
            return Some(Line {
                number: number as usize,
                section,
                bytes,
            });
        }
        section = heading(bytes).unwrap_or(section);
    }
    None
}

/// What a card before a line has to have: a field of these bytes, and another one if it is named, in one section if it is named.
#[derive(Clone, Copy)]
pub struct Wanted<'a> {
    pub name: &'a [u8],
    pub beside: Option<&'a [u8]>,
    pub section: Option<&'a [u8]>,
}

/// Whether a card of a section is wanted.
fn is_wanted(wanted: &Wanted<'_>, section: &[u8], card: &[u8]) -> bool {
    wanted.section.map_or(true, |one| one == section)
        && has_field(card, wanted.name)
        && wanted.beside.map_or(true, |other| has_field(card, other))
}

/// The first card before a line that is wanted.
pub fn first_before<'a>(text: &'a [u8], line: &Line<'_>, wanted: &Wanted<'_>) -> Option<Line<'a>> {
    let mut section: &[u8] = b"";
    for (place, raw) in text.split_inclusive(|byte| *byte == b'\n').enumerate() {
        let bytes = trimmed(raw);
        let number = place.saturating_add(1);
        if number >= line.number {
            return None;
        }
        if let Some(word) = heading(bytes) {
            section = word;
        } else if is_wanted(wanted, section, bytes) {
            return Some(Line {
                number,
                section,
                bytes,
            });
        }
    }
    None
}

/// The card that gives an entry first: of a column in COLUMNS, or of a set.
pub fn entry_before<'a>(
    text: &'a [u8],
    line: &Line<'_>,
    fields: &[Field],
    name: &[u8],
) -> Option<Line<'a>> {
    let column = bytes_of(line.bytes, fields, 0);
    let is_column = line.section == b"COLUMNS".as_slice();
    let wanted = Wanted {
        name,
        beside: if is_column { Some(column) } else { None },
        section: Some(line.section),
    };
    first_before(text, line, &wanted)
}

/// The card of ROWS that declares a row.
fn row_before<'a>(text: &'a [u8], line: &Line<'_>, name: &[u8]) -> Option<Line<'a>> {
    let wanted = Wanted {
        name,
        beside: None,
        section: Some(b"ROWS"),
    };
    first_before(text, line, &wanted)
}

/// Where a card of a section has the names of rows.
fn row_places(section: &[u8], count: usize) -> [usize; 2] {
    if section == b"COLUMNS".as_slice() || count % 2 == 1 {
        [1, 3]
    } else {
        [0, 2]
    }
}

/// Where the name of a column stands on a card of BOUNDS: before its number, if its type has one.
fn bound_place(line: &Line<'_>, fields: &[Field]) -> usize {
    let most = match bytes_of(line.bytes, fields, 0) {
        b"FR" | b"MI" | b"PL" | b"BV" => 3,
        _ => 4,
    };
    if fields.len() >= most { 2 } else { 1 }
}

/// The first of two fields that is at fault by its name; the second one if it is there, else the first.
fn named_place(
    text: &[u8],
    line: &Line<'_>,
    fields: &[Field],
    kind: MpsFaultKind,
    places: [usize; 2],
) -> usize {
    let [first, second] = places;
    let name = bytes_of(line.bytes, fields, first);
    let is_first = match kind {
        MpsFaultKind::UnknownRow => row_before(text, line, name).is_none(),
        MpsFaultKind::RangeOnFree => {
            row_before(text, line, name).map_or(false, |row| has_field(row.bytes, b"N"))
        }
        _ => entry_before(text, line, fields, name).is_some(),
    };
    if is_first || second >= fields.len() {
        first
    } else {
        second
    }
}

/// The first of two fields whose number is at fault; else the last field.
fn number_place(line: &Line<'_>, fields: &[Field], places: [usize; 2]) -> usize {
    let [first, second] = places;
    let last = fields.len().saturating_sub(1);
    let is_bad = |place: usize| {
        place < fields.len()
            && read(bytes_of(line.bytes, fields, place), Numbers::Fractions).is_err()
    };
    if line.section != b"BOUNDS".as_slice() && is_bad(first) {
        first
    } else if line.section != b"BOUNDS".as_slice() && is_bad(second) {
        second
    } else {
        last
    }
}

/// The place of the field that is at fault; none where it is the whole line, or the whole text.
pub fn fault_place(
    text: &[u8],
    line: &Line<'_>,
    fields: &[Field],
    kind: MpsFaultKind,
) -> Option<usize> {
    let [first, second] = row_places(line.section, fields.len());
    match kind {
        MpsFaultKind::UnknownSection
        | MpsFaultKind::RefusedSection
        | MpsFaultKind::SectionOrder
        | MpsFaultKind::SplitColumn
        | MpsFaultKind::BadBoundType
        | MpsFaultKind::BadRowType => Some(0),
        MpsFaultKind::DuplicateName => Some(1),
        MpsFaultKind::BadMarker => Some(fields.len().saturating_sub(1)),
        MpsFaultKind::UnknownColumn => Some(bound_place(line, fields)),
        MpsFaultKind::UnknownRow | MpsFaultKind::DuplicateEntry | MpsFaultKind::RangeOnFree => {
            Some(named_place(text, line, fields, kind, [first, second]))
        }
        MpsFaultKind::BadNumber | MpsFaultKind::NumberPast => Some(number_place(
            line,
            fields,
            [first.saturating_add(1), second.saturating_add(1)],
        )),
        MpsFaultKind::BadColumn
        | MpsFaultKind::FieldCount
        | MpsFaultKind::NoEnd
        | MpsFaultKind::NoObjective
        | MpsFaultKind::TooLong => None,
    }
}
