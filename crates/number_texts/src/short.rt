//! Numbers of few digits, read in one pass and in 64 bits.

ghost use Rattle.std.specs.Prelude.{◌≡◌, ◌^◌, ◌<◌, ◌≤◌, IfSome, IsTrue, length, drop, slice_index};
ghost use Rattle.number_texts.specs.Form.{is_exponent};
ghost use Rattle.number_texts.specs.Shorts.{IsShortMantissa, IsShortExponent, IsShort};

use crate::form::{leading_digits, sign};

/// A number with a point and an exponent: its digits before the exponent as one number, how many of
/// them stand behind the point, whether the exponent is below 0, and its size.
#[derive(Clone, Copy)]
pub struct Short {
    pub number: u64,
    pub places: usize,
    pub below: bool,
    pub exponent: u64,
}

/// What stands behind a point at the front.
fn behind_point(text: &[u8]) -> Option<&[u8]>
    ensures point { IfSome result (λ r. slice_index text.now 0 ≡ 46) }
    ensures some { IfSome result (λ r. 0 < length text.now) }
    ensures rest { IfSome result (λ r. r.now ≡ drop 1 text.now) }
{
    match text {
        [b'.', rest @ ..] => Some(rest),
        _ => None,
    }
}

/// What stands behind the letter of an exponent at the front.
fn behind_letter(text: &[u8]) -> Option<&[u8]>
    ensures letter { IfSome result (λ r. IsTrue (is_exponent (slice_index text.now 0))) }
    ensures some { IfSome result (λ r. 0 < length text.now) }
    ensures rest { IfSome result (λ r. r.now ≡ drop 1 text.now) }
{
    match text {
        [b'e' | b'E' | b'd' | b'D', rest @ ..] => Some(rest),
        _ => None,
    }
}

/// The digits before the exponent as one number, how many of them stand behind the point, and what
/// stands behind them all.
fn mantissa(text: &[u8]) -> Option<(u64, usize, &[u8])>
    ensures form { IfSome result (λ m. IsShortMantissa text.now m.0 m.1 m.2.now) }
    ensures small { IfSome result (λ m. m.0 < 10 ^ 19) }
{
    let (whole, rest) = leading_digits(0, text)?;
    match behind_point(rest) {
        None if rest.len() < text.len() => Some((whole, 0, rest)),
        None => None,
        Some(decimals) => {
            let (number, behind) = leading_digits(whole, decimals)?;
            if text.len() - behind.len() < 2 {
                return None;
            }
            Some((number, decimals.len() - behind.len(), behind))
        }
    }
}

/// Whether the exponent is below 0, and its size: 0 where there is none.
fn exponent(text: &[u8]) -> Option<(bool, u64)>
    ensures { IfSome result (λ e. IsShortExponent text.now e.0 e.1) }
{
    if text.is_empty() {
        return Some((false, 0));
    }
    let (below, digits) = sign(behind_letter(text)?);
    let (size, rest) = leading_digits(0, digits)?;
    if digits.is_empty() || !rest.is_empty() {
        return None;
    }
    Some((below, size))
}

/// An unsigned number with a point and an exponent, if the text is one of few digits.
pub fn short_form(text: &[u8]) -> Option<Short>
    ensures form { IfSome result (λ s. IsShort text.now s) }
    ensures small { IfSome result (λ s. s.number < 10 ^ 19) }
{
    let (number, places, behind) = mantissa(text)?;
    let (below, exponent) = exponent(behind)?;
    Some(Short {
        number,
        places,
        below,
        exponent,
    })
}
