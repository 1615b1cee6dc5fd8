//! The parts of a number with a point and an exponent.

ghost use Rattle.std.specs.Prelude.{◌≡◌, ◌≤◌, ◌+◌, ◌++◌, IsTrue, IfSome, length, option_map};
ghost use Rattle.std.specs.List.{list_all};
ghost use Rattle.std.specs.Char.{is_ascii_digit};
ghost use Rattle.number_texts.specs.Form.{terms_of, exponent_of, by_point, cut, is_point, is_digits};
ghost use Rattle.number_texts.specs.Views.{terms_seen};

use crate::form::{are_digits as all_digits, cut_exponent, cut_point, is_digits, sign};

/// The digits before and behind the point, whether the exponent is below 0, and its digits.
#[derive(Clone, Copy)]
pub struct DecimalForm<'a> {
    pub whole: &'a [u8],
    pub decimals: &'a [u8],
    pub below: bool,
    pub exponent: &'a [u8],
}

/// The sign and the digits of an exponent: 0 where there is none.
fn exponent(text: Option<&[u8]>) -> Option<(bool, &[u8])>
    ensures value { option_map (λ e. (e.0, e.1.now)) result
        ≡ exponent_of (option_map (λ s. s.now) text.entry) }
    ensures digits { IfSome result (λ e. IsTrue (list_all is_ascii_digit e.1.now)) }
{
    match text {
        None => Some((false, &[])),
        Some(text) => {
            let (below, digits) = sign(text);
            if is_digits(digits) {
                Some((below, digits))
            } else {
                None
            }
        }
    }
}

/// What stands before the point and what behind it.
fn by_point(text: &[u8]) -> (&[u8], &[u8])
    ensures value { (result.0.now, result.1.now) ≡ by_point (cut is_point text.now) }
    ensures room { length result.0.now + length result.1.now ≤ length text.now }
{
    match cut_point(text) {
        (whole, None) => (whole, &[]),
        (whole, Some(decimals)) => (whole, decimals),
    }
}

/// Whether both are digits, one at least.
fn are_digits(whole: &[u8], decimals: &[u8]) -> bool
    ensures value { result ≡ is_digits (whole.now ++ decimals.now) }
    ensures whole { IsTrue result → IsTrue (list_all is_ascii_digit whole.now) }
    ensures decimals { IsTrue result → IsTrue (list_all is_ascii_digit decimals.now) }
{
    if whole.is_empty() {
        is_digits(decimals)
    } else {
        is_digits(whole) && all_digits(decimals)
    }
}

/// The parts of an unsigned number with a point and an exponent, if the text is one.
#[tactic(auto, unfolding(crate::specs::Form::terms_of))]
pub fn split_decimal(text: &[u8]) -> Option<DecimalForm<'_>>
    ensures value { option_map terms_seen result ≡ terms_of text.now }
    ensures whole { IfSome result (λ s. IsTrue (list_all is_ascii_digit s.whole.now)) }
    ensures decimals { IfSome result (λ s. IsTrue (list_all is_ascii_digit s.decimals.now)) }
    ensures exponent { IfSome result (λ s. IsTrue (list_all is_ascii_digit s.exponent.now)) }
    ensures room { IfSome result (λ s. length s.whole.now + length s.decimals.now ≤ length text.now) }
{
    let (mantissa, behind) = cut_exponent(text);
    let (below, exponent) = exponent(behind)?;
    let (whole, decimals) = by_point(mantissa);
    if !are_digits(whole, decimals) {
        return None;
    }
    Some(DecimalForm {
        whole,
        decimals,
        below,
        exponent,
    })
}
