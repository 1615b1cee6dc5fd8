//! The fields of a line of the fixed format.

ghost use Rattle.std.specs.Prelude.{◌≡◌, IfOk, drop, take, reverse};
ghost use Rattle.mps_profile.specs.Fields.{no_first, fixed_field, fixed_fields, is_in_field, is_misplaced, has_misplaced};
ghost use Rattle.mps_cards.specs.Texts.{fields_in};

use std::alloc::{AllocError, Global};

/// The texts of a line's six fields, without the spaces round them and with `_` for each inner space.
#[derive(Drop)]
pub struct ColumnTexts {
    /// Field 1, in columns 2 and 3, counted from 1.
    pub first: Vec<u8>,
    /// Field 2, in columns 5 to 12.
    pub second: Vec<u8>,
    /// Field 3, in columns 15 to 22.
    pub third: Vec<u8>,
    /// Field 4, in columns 25 to 36.
    pub fourth: Vec<u8>,
    /// Field 5, in columns 40 to 47.
    pub fifth: Vec<u8>,
    /// Field 6, in columns 50 to 61.
    pub sixth: Vec<u8>,
}

/// The first bytes of a line, as many as there are up to a column.
fn front(line: &[u8], to: usize) -> &[u8]
    ensures { result.now ≡ take to line.now }
{
    if to < line.len() { &line[..to] } else { line }
}

/// What a line has from a column on.
fn rest(line: &[u8], from: usize) -> &[u8]
    ensures { result.now ≡ drop from line.now }
{
    if from < line.len() {
        &line[from..]
    } else {
        &line[line.len()..]
    }
}

/// A text without the spaces before it.
fn without_first(part: &[u8]) -> &[u8]
    ensures { result.now ≡ no_first part.now }
{
    let mut left = part;
    while let [b' ', more @ ..] = left {
        left = more;
    }
    left
}

/// A text without the spaces behind it.
fn without_last(part: &[u8]) -> &[u8]
    ensures { result.now ≡ reverse (no_first (reverse part.now)) }
{
    let mut left = part;
    while let [more @ .., b' '] = left {
        left = more;
    }
    left
}

/// The field that stands between two columns, counted from 0, the second not in it.
fn column_text(alloc: Global, line: &[u8], from: usize, to: usize) -> Result<Vec<u8>, AllocError>
    ensures { IfOk result (λ text. text.items ≡ fixed_field from to line.now) }
{
    let part = rest(front(line, to), from);
    let kept = without_first(without_last(part));
    kept.iter()
        .map(|b| if *b == b' ' { b'_' } else { *b })
        .collect(alloc)
}

/// The fields of a line by its columns. Fails where memory runs out.
pub fn cut_columns(alloc: Global, line: &[u8]) -> Result<ColumnTexts, AllocError>
    ensures { IfOk result (λ texts. fields_in texts ≡ fixed_fields line.now) }
{
    Ok(ColumnTexts {
        first: column_text(alloc, line, 1, 3)?,
        second: column_text(alloc, line, 4, 12)?,
        third: column_text(alloc, line, 14, 22)?,
        fourth: column_text(alloc, line, 24, 36)?,
        fifth: column_text(alloc, line, 39, 47)?,
        sixth: column_text(alloc, line, 49, 61)?,
    })
}

/// Whether a column, counted from 0, lies in one of the six fields.
fn is_in_field(column: usize) -> bool
    ensures { result ≡ is_in_field column }
{
    (1 <= column && column < 3)
        || (4 <= column && column < 12)
        || (14 <= column && column < 22)
        || (24 <= column && column < 36)
        || (39 <= column && column < 47)
        || (49 <= column && column < 61)
}

/// Whether a byte may not stand in a column: a tab, or outside the fields another than a space.
fn is_misplaced(column: usize, byte: u8) -> bool
    ensures { result ≡ is_misplaced column byte }
{
    byte == b'\t' || (!is_in_field(column) && byte != b' ')
}

/// Whether one of a line's first 61 columns holds a byte that may not stand there.
pub fn has_misplaced(line: &[u8]) -> bool
    ensures { result ≡ has_misplaced line.now }
{
    let mut left = front(line, 61);
    let mut column: usize = 0;
    while let [byte, more @ ..] = left {
        if is_misplaced(column, *byte) {
            return true;
        }
        left = more;
        column += 1;
    }
    false
}
