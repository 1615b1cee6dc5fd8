//! The words of bounds and sides, and of what became of a row.

ghost use Rattle.std.specs.Prelude.{◌≡◌};
ghost use Rattle.record_fields.specs.Ends.{is_below, is_above, is_endless, end_of, letter_of, bound_of, fate_of, has_end};

use crate::ratios::number_in;
use fractions::ext::Ext;
use undo_records::{RowFate, Side};

/// Whether a word is that of no lower end.
pub fn is_below(word: &[u8]) -> bool
    ensures { result ≡ is_below word.now }
{
    word == b"-inf".as_slice()
}

/// Whether a word is that of no upper end.
pub fn is_above(word: &[u8]) -> bool
    ensures { result ≡ is_above word.now }
{
    word == b"inf".as_slice()
}

/// Whether a word is that of no end.
pub fn is_endless(word: &[u8]) -> bool
    ensures { result ≡ is_endless word.now }
{
    is_below(word) || is_above(word)
}

/// The end that a word is.
pub fn end_in(word: &[u8]) -> Ext
    ensures { result ≡ end_of word.now }
{
    if is_endless(word) {
        Ext::none()
    } else {
        Ext::at(number_in(word))
    }
}

/// The side of a row that a word is.
pub fn letter_of(word: &[u8]) -> Option<Side>
    ensures { result ≡ letter_of word.now }
{
    if word == b"L".as_slice() {
        return Some(Side::Lower);
    }
    if word == b"U".as_slice() {
        return Some(Side::Upper);
    }
    None
}

/// The bound of a column that a word is.
pub fn bound_of(word: &[u8]) -> Option<Side>
    ensures { result ≡ bound_of word.now }
{
    if word == b"lower".as_slice() {
        return Some(Side::Lower);
    }
    if word == b"upper".as_slice() {
        return Some(Side::Upper);
    }
    None
}

/// What became of a row, by its word.
pub fn fate_of(word: &[u8]) -> Option<RowFate>
    ensures { result ≡ fate_of word.now }
{
    if word == b"keep".as_slice() {
        return Some(RowFate::Kept);
    }
    if word == b"drop".as_slice() {
        return Some(RowFate::Dropped);
    }
    None
}

/// Whether a bound may have this end.
pub fn has_end(side: Option<Side>, word: &[u8]) -> bool
    ensures { result ≡ has_end side word.now }
{
    match side {
        Some(Side::Lower) => !is_above(word),
        Some(Side::Upper) => !is_below(word),
        None => true,
    }
}
