//! Whether a number of any size is at least a power of ten.

ghost use Rattle.std.specs.Prelude.{◌≡◌, ◌^◌, ◌<◌, ◌≤◌, ◌+◌, ◌++◌, IsTrue, Some, length, nat_lt, if◌then◌else◌};
ghost use Rattle.std.specs.List.{list_all};
ghost use Rattle.std.specs.Char.{is_ascii_digit};
ghost use Rattle.number_texts.specs.Form.{number as number_of, terms_of};
ghost use Rattle.number_texts.specs.Views.{terms_seen};
ghost use Rattle.number_texts.specs.Reach.{reaches, without_first_zeros};

use crate::decimal_form::{DecimalForm, split_decimal};
use crate::form::number;

/// The digits behind the zeros at the front.
fn behind_zeros(digits: &[u8]) -> &[u8]
    ensures value { result.now ≡ without_first_zeros digits.now }
    ensures room { length result.now ≤ length digits.now }
{
    let mut rest = digits;
    while let [b'0', behind @ ..] = rest {
        rest = behind;
    }
    rest
}

/// How many digits stand behind the zeros at the front.
#[tactic(auto, using(crate::proofs::ReachLaws::first_zeros_append))]
fn count(whole: &[u8], decimals: &[u8]) -> usize
    requires room { length whole.now + length decimals.now < 2 ^ 64 }
    ensures value { result ≡ length (without_first_zeros (whole.now ++ decimals.now)) }
{
    let first = behind_zeros(whole);
    if first.is_empty() {
        behind_zeros(decimals).len()
    } else {
        first.len() + decimals.len()
    }
}

/// The least exponent that no other part of a text can make up for.
const FAR: u128 = 1_000_000_000_000_000_000_000_000_000_000;

/// Whether so many digits, with the exponent, reach beyond a power of ten and so many places.
fn is_beyond(power: u32, places: usize, count: usize, below: bool, exponent: &[u8]) -> bool
    requires digits { IsTrue (list_all is_ascii_digit exponent.now) }
    ensures { result ≡ nat_lt (power + (places + (if below then number_of exponent.now else 0)))
        (count + (if below then 0 else number_of exponent.now)) }
{
    let least = power as u128 + places as u128;
    match number(exponent, FAR) {
        Some(size) => {
            if below {
                least + size < count as u128
            } else {
                least < count as u128 + size
            }
        }
        None => !below,
    }
}

/// Whether the parts of a number mean 10^power or more.
fn parts_reach(power: u32, parts: &DecimalForm<'_>) -> bool
    requires whole { IsTrue (list_all is_ascii_digit parts.now.whole.now) }
    requires decimals { IsTrue (list_all is_ascii_digit parts.now.decimals.now) }
    requires exponent { IsTrue (list_all is_ascii_digit parts.now.exponent.now) }
    requires room { length parts.now.whole.now + length parts.now.decimals.now < 2 ^ 64 }
    ensures { result ≡ reaches power (Some (terms_seen parts.now)) }
{
    let count = count(parts.whole, parts.decimals);
    count > 0
        && is_beyond(
            power,
            parts.decimals.len(),
            count,
            parts.below,
            parts.exponent,
        )
}

/// Whether an unsigned text is a number with a point and an exponent that is 10^power or more, in
/// range or not.
pub fn reaches(power: u32, text: &[u8]) -> bool
    ensures { result ≡ reaches power (terms_of text.now) }
{
    match split_decimal(text) {
        None => false,
        Some(parts) => parts_reach(power, &parts),
    }
}
