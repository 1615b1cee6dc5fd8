//! The lines of transactions.

ghost use Rattle.std.specs.Prelude.{◌≡◌, ◌<◌, IsTrue, SomeIff};
ghost use Rattle.number_texts.specs.Form.{number as number_of};
ghost use Rattle.record_fields.specs.Views.{words_left};
ghost use Rattle.record_fields.specs.Words.{is_plain, words_of};
ghost use Rattle.record_reader.specs.Results.{IsHeading, IsPartRead};
ghost use Rattle.record_reader.specs.Transactions.{is_kind, is_of, is_part_of, part_of};

use crate::faults::RecordFaultKind;
use crate::headings::counted;
use number_texts::form::number;
use problem_model::Part;
use record_fields::ids::{id_fault, id_in, is_plain};
use record_fields::words::{Words, next_word, word_count, words_of};
use record_words::word;
use undo_records::PartRead;

/// What the line of a transaction tells: the worker, the version, and how many parts were read.
#[derive(Clone, Copy, Debug, PartialEq, Eq)]
pub struct Heading {
    pub by: u32,
    pub version: u64,
    pub reads: u64,
}

/// Whether words are a name, and so many behind it.
fn is_of(name: &[u8], count: u128, words: Words<'_>) -> bool
    ensures { result ≡ is_of name.now count (words_left words.entry) }
{
    let mut rest = words;
    next_word(&mut rest) == name && word_count(&rest) == count
}

/// The version of a transaction at a place, where it has that place and a version below it.
fn version_at(place: u64, told: &[u8], version: &[u8]) -> Option<u64>
    requires place { 0 < place }
    requires told { IsTrue (is_plain told.now) }
    requires version { IsTrue (is_plain version.now) }
    ensures { SomeIff result ((number_of told.now ≡ place) × (number_of version.now < place)) (number_of version.now) }
{
    match number(told, 1 << 64) {
        Some(other) if other == place as u128 => {}
        _ => return None,
    }
    match number(version, place as u128) {
        Some(version) => Some(version as u64),
        None => None,
    }
}

/// What the line of a transaction at a place tells.
///
/// # Errors
/// What is wrong with the line.
pub fn heading_of(place: u64, line: &[u8]) -> Result<Heading, RecordFaultKind>
    requires { 0 < place }
    ensures { IsHeading place (words_of line.now) result }
{
    let words = words_of(line);
    let told = word(1, words);
    let by = word(2, words);
    let version = word(3, words);
    let reads = word(4, words);
    if !is_of(b"transaction", 4, words)
        || !is_plain(told)
        || !is_plain(by)
        || !is_plain(version)
        || !is_plain(reads)
    {
        return Err(RecordFaultKind::BadLine);
    }
    let Some(by) = number(by, 1 << 32) else {
        return Err(RecordFaultKind::NumberPast);
    };
    let Some(version) = version_at(place, told, version) else {
        return Err(RecordFaultKind::BadTransaction);
    };
    Ok(Heading {
        by: by as u32,
        version,
        reads: counted(reads),
    })
}

/// Whether a word is a kind of part.
fn is_kind(word: &[u8]) -> bool
    ensures { result ≡ is_kind word.now }
{
    word == b"row".as_slice()
        || word == b"sides".as_slice()
        || word == b"col".as_slice()
        || word == b"bounds".as_slice()
}

/// The part of a kind with an id.
fn part_of(kind: &[u8], id: u32) -> Part
    ensures { result ≡ part_of kind.now id }
{
    if kind == b"row".as_slice() {
        return Part::Row(id);
    }
    if kind == b"sides".as_slice() {
        return Part::Sides(id);
    }
    if kind == b"col".as_slice() {
        return Part::Col(id);
    }
    Part::Bounds(id)
}

/// Whether a part is one of a program of so many rows and columns.
fn is_part_of(rows: usize, columns: usize, part: Part) -> bool
    ensures { result ≡ is_part_of rows columns part }
{
    match part {
        Part::Row(row) | Part::Sides(row) => (row as usize) < rows,
        Part::Col(column) | Part::Bounds(column) => (column as usize) < columns,
    }
}

/// The part that a line says was read, in a program of so many rows and columns.
///
/// # Errors
/// What is wrong with the line.
pub fn part_read_of(rows: usize, columns: usize, line: &[u8]) -> Result<PartRead, RecordFaultKind>
    ensures { IsPartRead rows columns (words_of line.now) result }
{
    let words = words_of(line);
    let kind = word(1, words);
    let id = word(2, words);
    let changes = word(3, words);
    if !is_of(b"part", 3, words) || !is_kind(kind) || !is_plain(id) || !is_plain(changes) {
        return Err(RecordFaultKind::BadLine);
    }
    let part = part_of(kind, id_in(id));
    if id_fault(id).is_some() || !is_part_of(rows, columns, part) {
        return Err(RecordFaultKind::BadId);
    }
    match number(changes, 1 << 64) {
        Some(changes) => Ok(PartRead {
            part,
            changes: changes as u64,
        }),
        None => Err(RecordFaultKind::NumberPast),
    }
}
