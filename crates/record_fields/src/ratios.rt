//! Numbers in records.

ghost use Rattle.std.specs.Prelude.{◌≡◌, ◌≤◌, ◌^◌, ◌<◌, IfOk, Ok};
ghost use Rattle.std.specs.Option.{option_map};
ghost use Rattle.number_texts.specs.Read.{signed};
ghost use Rattle.number_texts.specs.Form.{cut, is_slash, is_minus};
ghost use Rattle.record_fields.specs.Ratios.{natural_read, least_size, whole_by, quotient_by, parts_read, unsigned_part, ratio_read, ratio_of, number_fault, entry_fault};

use crate::faults::LineFault;
use crate::ids::is_plain;
use fractions::divisor::gcd;
use fractions::frac::Frac;
use fractions::whole::Whole;
use number_texts::ReadNumber;
use number_texts::form::{cut_slash, number};

/// A natural number in range, of at least some size.
fn natural(digits: &[u8], least: u128) -> Result<u128, ReadNumber>
    requires { least ≤ 2 ^ 127 }
    ensures value { result ≡ natural_read least digits.now }
    ensures least { IfOk result (λ n. least ≤ n) }
    ensures small { IfOk result (λ n. n < 2 ^ 127) }
{
    if !is_plain(digits) {
        return Err(ReadNumber::NotNumber);
    }
    match number(digits, 1 << 127) {
        Some(size) => {
            if size < least {
                Err(ReadNumber::NotNumber)
            } else {
                Ok(size)
            }
        }
        None => Err(ReadNumber::NumberPast),
    }
}

/// The whole number of a size, below 0 or not.
fn signed(negative: bool, size: u128) -> Whole
    requires { size < 2 ^ 127 }
    ensures { result ≡ signed negative size }
{
    if negative {
        Whole::natural(size).negated()
    } else {
        Whole::natural(size)
    }
}

/// A whole number.
fn whole(negative: bool, digits: &[u8]) -> Result<Frac, ReadNumber>
    ensures { result ≡ whole_by negative (natural_read (least_size negative) digits.now) }
{
    let least = if negative { 1 } else { 0 };
    let size = natural(digits, least)?;
    Ok(Frac::ratio_of(signed(negative, size), 1))
}

/// A quotient in lowest terms.
fn lowest(negative: bool, over: u128, under: u128) -> Result<Frac, ReadNumber>
    requires over { over < 2 ^ 127 }
    requires some { 2 ≤ under }
    requires under { under < 2 ^ 127 }
    ensures { result ≡ quotient_by negative (Ok over) (Ok under) }
{
    if gcd(over, under) == 1 {
        Ok(Frac::ratio_of(signed(negative, over), under))
    } else {
        Err(ReadNumber::NotNumber)
    }
}

/// A quotient.
fn quotient(negative: bool, over: &[u8], under: &[u8]) -> Result<Frac, ReadNumber>
    ensures { result ≡ quotient_by negative (natural_read 1 over.now) (natural_read 2 under.now) }
{
    match (natural(over, 1), natural(under, 2)) {
        (Ok(over), Ok(under)) => lowest(negative, over, under),
        (Ok(_), Err(why)) => Err(why),
        (Err(ReadNumber::NotNumber), _) => Err(ReadNumber::NotNumber),
        (Err(ReadNumber::NumberPast), Ok(_)) => Err(ReadNumber::NumberPast),
        (Err(ReadNumber::NumberPast), Err(why)) => Err(why),
    }
}

/// The number that an unsigned word is, below 0 or not.
fn unsigned(negative: bool, word: &[u8]) -> Result<Frac, ReadNumber>
    ensures { result ≡ parts_read negative (cut is_slash word.now) }
{
    match cut_slash(word) {
        (digits, None) => whole(negative, digits),
        (over, Some(under)) => quotient(negative, over, under),
    }
}

/// The number that a word is: whole, or `n/d` in lowest terms.
///
/// # Errors
/// [`ReadNumber::NotNumber`] where it has neither form, and [`ReadNumber::NumberPast`] where n or d passes 2^127 - 1.
#[tactic(auto, unfolding(crate::specs::Ratios::ratio_read))]
fn ratio(word: &[u8]) -> Result<Frac, ReadNumber>
    ensures { result ≡ ratio_read word.now }
{
    match word {
        [b'-', rest @ ..] => unsigned(true, rest),
        _ => unsigned(false, word),
    }
}

/// The number that a word is, and 1 where it is none or past the range.
pub fn number_in(word: &[u8]) -> Frac
    ensures { result ≡ ratio_of word.now }
{
    match ratio(word) {
        Ok(number) => number,
        Err(_) => Frac::one(),
    }
}

/// What is wrong with a number.
pub fn number_fault(word: &[u8]) -> Option<LineFault>
    ensures { result ≡ number_fault (ratio_read word.now) }
{
    match ratio(word) {
        Ok(_) => None,
        Err(ReadNumber::NotNumber) => Some(LineFault::BadLine),
        Err(ReadNumber::NumberPast) => Some(LineFault::NumberPast),
    }
}

/// What is wrong with a number that must not be 0.
pub fn entry_fault(word: &[u8]) -> Option<LineFault>
    ensures { result ≡ entry_fault (ratio_read word.now) }
{
    match ratio(word) {
        Ok(number) => {
            if number.is_zero() {
                Some(LineFault::BadLine)
            } else {
                None
            }
        }
        Err(ReadNumber::NotNumber) => Some(LineFault::BadLine),
        Err(ReadNumber::NumberPast) => Some(LineFault::NumberPast),
    }
}
