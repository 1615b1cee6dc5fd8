//! Ids and counts.

ghost use Rattle.std.specs.Prelude.{◌≡◌, ◌<◌, IsTrue, true, nat_lt, length};
ghost use Rattle.std.specs.List.{list_all};
ghost use Rattle.std.specs.Char.{is_ascii_digit};
ghost use Rattle.std.specs.Option.{option_map, ForSome};
ghost use Rattle.number_texts.specs.Form.{number as number_of};
ghost use Rattle.record_fields.specs.Words.{is_plain, id_of, id_fault, same_id, comes_after};

use crate::faults::LineFault;
use number_texts::form::{is_digits, number};

/// Whether a word is a decimal number without leading zeros.
pub fn is_plain(word: &[u8]) -> bool
    ensures { result ≡ is_plain word.now }
{
    is_digits(word) && (word[0] != b'0' || word.len() == 1)
}

/// What is wrong with an id.
pub fn id_fault(word: &[u8]) -> Option<LineFault>
    ensures { result ≡ id_fault word.now }
{
    if !is_plain(word) {
        return Some(LineFault::BadLine);
    }
    match number(word, 1 << 32) {
        Some(_) => None,
        None => Some(LineFault::BadId),
    }
}

/// The id that a word is, and 0 where it is none.
pub fn id_in(word: &[u8]) -> u32
    ensures { result ≡ id_of word.now }
{
    if !is_plain(word) {
        return 0;
    }
    match number(word, 1 << 32) {
        Some(id) => id as u32,
        None => 0,
    }
}

/// Whether two ids are the same.
pub fn same_id(one: &[u8], other: &[u8]) -> bool
    ensures { result ≡ same_id one.now other.now }
{
    one == other
}

/// Whether the first of two numbers with as many digits is less.
#[tactic(auto, using(crate::proofs::IdOrder::digits_less))]
fn is_less(one: &[u8], other: &[u8]) -> bool
    requires one { IsTrue (list_all is_ascii_digit one.now) }
    requires other { IsTrue (list_all is_ascii_digit other.now) }
    requires same { length one.now ≡ length other.now }
    ensures { result ≡ nat_lt (number_of one.now) (number_of other.now) }
{
    one.cmp(other).is_lt()
}

/// Whether a number is less than another.
#[tactic(auto, using(crate::proofs::IdOrder::longer, crate::proofs::IdOrder::plain_digits))]
fn precedes(one: &[u8], other: &[u8]) -> bool
    requires one { IsTrue (is_plain one.now) }
    requires other { IsTrue (is_plain other.now) }
    ensures { result ≡ nat_lt (number_of one.now) (number_of other.now) }
{
    if one.len() == other.len() {
        is_less(one, other)
    } else {
        one.len() < other.len()
    }
}

/// Whether an id comes after the one before it.
pub fn comes_after(before: Option<&[u8]>, word: &[u8]) -> bool
    requires before { ForSome before (λ s. is_plain s.now ≡ true) }
    requires word { is_plain word.now ≡ true }
    ensures { result ≡ comes_after (option_map (λ s. s.now) before.entry) word.now }
{
    match before {
        None => true,
        Some(before) => precedes(before, word),
    }
}
