//! Text to numbers.

ghost use Rattle.std.specs.Prelude.{◌≡◌, ◌^◌, ◌<◌, ◌+◌, IsTrue, length, unsigned_abs};
ghost use Rattle.std.specs.List.{list_all};
ghost use Rattle.std.specs.Char.{is_ascii_digit};
ghost use Rattle.fractions.specs.Lowest.{Fits};
ghost use Rattle.fractions.specs.Scaled.{scaled};
ghost use Rattle.number_texts.specs.Form.{terms_of, cut, is_slash};
ghost use Rattle.number_texts.specs.Views.{terms_seen};
ghost use Rattle.number_texts.specs.Shorts.{up_seen, down_seen};
ghost use Rattle.number_texts.specs.Read.{signed, in_range, read_decimal, read_quotient, read_parts, read_of};

use crate::decimal_form::{DecimalForm, split_decimal};
use crate::form::{cut_slash, is_digits, number, sign};
use crate::mantissa::without_zeros;
use crate::scaling::{exact, signed};
use crate::short::{Short, short_form};
use fractions::Numbers;
use fractions::frac::Frac;
use fractions::places::is_decimal;
use fractions::scaling::scale;
use fractions::whole::Whole;
use thiserror::Error;

/// Why a text is not read.
#[derive(Clone, Copy, Debug, PartialEq, Eq, Error)]
pub enum ReadNumber {
    /// The text has no form of a number, or its denominator is 0.
    #[error("not a number")]
    NotNumber,
    /// It has the form, and its number is past the range or not among those that are taken.
    #[error("a number past the range")]
    NumberPast,
}

/// A number, if it is among those that are taken.
#[tactic(auto, using(crate::proofs::RangeLaws::in_range_taken))]
fn taken(number: Frac, numbers: Numbers) -> Result<Frac, ReadNumber>
    requires { Fits number }
    ensures { result ≡ in_range numbers number }
{
    match numbers {
        Numbers::Fractions => Ok(number),
        Numbers::Decimal => {
            if is_decimal(&number) {
                Ok(number)
            } else {
                Err(ReadNumber::NumberPast)
            }
        }
    }
}

/// The number that the parts of a text mean.
fn value_of(negative: bool, parts: &DecimalForm<'_>, numbers: Numbers) -> Result<Frac, ReadNumber>
    requires whole { IsTrue (list_all is_ascii_digit parts.now.whole.now) }
    requires decimals { IsTrue (list_all is_ascii_digit parts.now.decimals.now) }
    requires exponent { IsTrue (list_all is_ascii_digit parts.now.exponent.now) }
    requires room { length parts.now.whole.now + length parts.now.decimals.now < 2 ^ 64 }
    ensures { result ≡ read_decimal numbers negative (Some (terms_seen parts.now)) }
{
    let Some(mantissa) = without_zeros(parts.whole, parts.decimals) else {
        return Err(ReadNumber::NumberPast);
    };
    match exact(
        negative,
        mantissa.number,
        mantissa.zeros,
        parts.decimals.len(),
        parts.below,
        parts.exponent,
    ) {
        Ok(number) => taken(number, numbers),
        Err(_) => Err(ReadNumber::NumberPast),
    }
}

/// The number that an unsigned text with a point and an exponent means.
#[tactic(auto, unfolding(crate::specs::Read::read_decimal))]
fn decimal(negative: bool, text: &[u8], numbers: Numbers) -> Result<Frac, ReadNumber>
    ensures { result ≡ read_decimal numbers negative (terms_of text.now) }
{
    match split_decimal(text) {
        None => Err(ReadNumber::NotNumber),
        Some(parts) => value_of(negative, &parts, numbers),
    }
}

/// The number that two texts mean, one over the other.
#[tactic(auto, unfolding(crate::specs::Read::read_quotient))]
fn quotient(negative: bool, over: &[u8], under: &[u8]) -> Result<Frac, ReadNumber>
    ensures { result ≡ read_quotient negative over.now under.now }
{
    if !is_digits(over) || !is_digits(under) {
        return Err(ReadNumber::NotNumber);
    }
    let Some(denominator) = number(under, 1 << 127) else {
        return Err(ReadNumber::NumberPast);
    };
    if denominator == 0 {
        return Err(ReadNumber::NotNumber);
    }
    let Some(numerator) = number(over, 1 << 127) else {
        return Err(ReadNumber::NumberPast);
    };
    Ok(Frac::ratio_of(signed(negative, numerator), denominator))
}

/// The number that an unsigned text of any length means.
fn unsigned(negative: bool, text: &[u8], numbers: Numbers) -> Result<Frac, ReadNumber>
    ensures { result ≡ read_parts numbers negative (cut is_slash text.now) }
{
    match cut_slash(text) {
        (text, None) => decimal(negative, text, numbers),
        (over, Some(under)) => match numbers {
            Numbers::Decimal => Err(ReadNumber::NotNumber),
            Numbers::Fractions => quotient(negative, over, under),
        },
    }
}

/// `whole` times 10 to the power of `up`, over 10 to the power of `down`, if it is among the
/// numbers that are taken.
fn taken_scaled(whole: Whole, up: u128, down: u128, numbers: Numbers) -> Result<Frac, ReadNumber>
    requires { unsigned_abs whole < 2 ^ 127 }
    ensures { result ≡ in_range numbers (scaled whole up down) }
{
    match scale(whole, up, down) {
        Ok(number) => {
            if down.saturating_sub(up) <= 38 {
                Ok(number)
            } else {
                taken(number, numbers)
            }
        }
        Err(_) => Err(ReadNumber::NumberPast),
    }
}

/// The number that a text of few digits means.
fn short_value(negative: bool, short: Short, numbers: Numbers) -> Result<Frac, ReadNumber>
    requires { short.number < 10 ^ 19 }
    ensures { result ≡ in_range numbers (scaled (signed negative short.number) (up_seen short) (down_seen short)) }
{
    let whole = signed(negative, short.number as u128);
    let places = short.places as u128;
    let exponent = short.exponent as u128;
    if short.below {
        taken_scaled(whole, 0, places + exponent, numbers)
    } else {
        taken_scaled(whole, exponent, places, numbers)
    }
}

/// The number that an unsigned text means.
fn unsigned_value(negative: bool, text: &[u8], numbers: Numbers) -> Result<Frac, ReadNumber>
    ensures { result ≡ read_parts numbers negative (cut is_slash text.now) }
{
    match short_form(text) {
        Some(short) => short_value(negative, short, numbers),
        None => unsigned(negative, text, numbers),
    }
}

/// The number that a text means, exactly.
///
/// A text is an optional sign, digits with at most one point and at least one digit, and optionally
/// one of `e`, `E`, `d`, `D` with an optional sign and at least one digit. Where fractions are
/// taken it may also be an optional sign, digits, `/`, and digits that are not 0.
///
/// # Errors
/// [`ReadNumber::NotNumber`] exactly where the text has none of these forms.
/// [`ReadNumber::NumberPast`] where the number that the digits before the exponent form (without
/// point, leading and trailing zeros), or a numerator or denominator, is 2^127 or more, where the
/// value's lowest terms are not below 2^127, or where decimal numbers alone are taken and the value
/// is none.
#[tactic(auto, unfolding(crate::specs::Read::read_of))]
pub fn read(bytes: &[u8], numbers: Numbers) -> Result<Frac, ReadNumber>
    ensures { result ≡ read_of numbers bytes.now }
{
    let (negative, text) = sign(bytes);
    unsigned_value(negative, text, numbers)
}
