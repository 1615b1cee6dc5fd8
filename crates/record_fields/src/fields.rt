//! What each field of a record has to be.

ghost use Rattle.std.specs.Prelude.{◌≡◌, None, if◌then◌else◌};
ghost use Rattle.record_fields.specs.Ratios.{ratio_read, number_fault};
ghost use Rattle.record_fields.specs.Fields.{behind, bound_fault, field_fault, fields_fault};
ghost use Rattle.record_fields.specs.Views.{words_left};

use crate::ends::{bound_of, fate_of, has_end, is_above, is_below, is_endless, letter_of};
use crate::faults::{LineFault, lower, unless};
use crate::ids::id_fault;
use crate::lists::list_fault;
use crate::ratios::{entry_fault, number_fault};
use crate::words::{Words, all_words, is_empty, next_word};

/// What a field of a record has to be.
#[derive(Clone, Copy, Debug, PartialEq, Eq)]
pub enum Field {
    /// The id of a row or a column.
    Id,
    /// A number.
    Number,
    /// A number that is not 0.
    Entry,
    /// A number or `-inf`.
    LowerEnd,
    /// A number or `inf`.
    UpperEnd,
    /// `L` or `U`.
    SideLetter,
    /// `lower` and a number or `-inf`, or `upper` and a number or `inf`.
    Bound,
    /// `keep` or `drop`.
    Fate,
    /// A list of entries, up to the end of the line.
    Entries,
}

/// What is wrong with a number, or with a word that is not that of no end.
fn end_fault(endless: bool, word: &[u8]) -> Option<LineFault>
    ensures { result ≡ (if endless then None else number_fault (ratio_read word.now)) }
{
    if endless { None } else { number_fault(word) }
}

/// What is wrong with the name of a bound and its end.
fn bound_fault(name: &[u8], end: &[u8]) -> Option<LineFault>
    ensures { result ≡ bound_fault name.now end.now }
{
    let side = bound_of(name);
    let ended = lower(
        end_fault(is_endless(end), end),
        unless(has_end(side, end), LineFault::BadLine),
    );
    lower(unless(side.is_some(), LineFault::BadLine), ended)
}

/// What is wrong with the next words in a field.
fn field_fault(field: Field, words: &mut Words<'_>) -> Option<LineFault>
    ensures fault { result ≡ field_fault field (words_left words.old) }
    ensures left { words_left words.new ≡ behind field (words_left words.old) }
{
    match field {
        Field::Id => id_fault(next_word(words)),
        Field::Number => number_fault(next_word(words)),
        Field::Entry => entry_fault(next_word(words)),
        Field::LowerEnd => {
            let word = next_word(words);
            end_fault(is_below(word), word)
        }
        Field::UpperEnd => {
            let word = next_word(words);
            end_fault(is_above(word), word)
        }
        Field::SideLetter => unless(letter_of(next_word(words)).is_some(), LineFault::BadLine),
        Field::Bound => {
            let name = next_word(words);
            bound_fault(name, next_word(words))
        }
        Field::Fate => unless(fate_of(next_word(words)).is_some(), LineFault::BadLine),
        Field::Entries => list_fault(all_words(words)),
    }
}

/// What is wrong with words in these fields.
pub fn fields_fault(fields: &[Field], words: Words<'_>) -> Option<LineFault>
    ensures { result ≡ fields_fault fields.now (words_left words.entry) }
{
    let mut left = fields;
    let mut rest = words;
    let mut found = None;
    while let [field, after @ ..] = left {
        found = lower(found, field_fault(*field, &mut rest));
        left = after;
    }
    lower(found, unless(is_empty(&rest), LineFault::BadLine))
}
