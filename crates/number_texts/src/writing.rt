//! Numbers to text.

ghost use Rattle.std.specs.Prelude.{◌≡◌, ◌^◌, ◌<◌, ◌≤◌, ◌++◌, ◌∷◌, length, take, OnErr, OnOk, IfOk};
ghost use Rattle.std.specs.Fmt.{decimal};
ghost use Rattle.fractions.specs.Places.{place_of};
ghost use Rattle.number_texts.specs.Written.{last_digits, with_point, sign_of, size_text, written};

use crate::naturals::push_natural;
use fractions::frac::Frac;
use fractions::places::{place, power};
use fractions::whole::Whole;
use itoa::Buffer;
use std::alloc::{AllocError, Global};

/// The digits of a natural number.
fn digits_of(buffer: &mut Buffer, number: u128) -> &str
    ensures { result.now ≡ decimal number }
{
    if number < 1 << 64 {
        buffer.format(number as u64)
    } else {
        buffer.format(number)
    }
}

/// A 1, and behind it exactly `places` digits of `number`.
#[tactic(auto, using(crate::proofs::WritingLaws::marked_digits))]
fn marked_digits(buffer: &mut Buffer, number: u128, places: u32) -> &str
    requires few { places ≤ 38 }
    requires small { number < 10 ^ places }
    ensures { result.now ≡ 49 ∷ last_digits places number }
{
    digits_of(buffer, power(places) + number)
}

/// Exactly `places` digits of `number`.
pub(crate) fn decimals(buffer: &mut Buffer, number: u128, places: u32) -> &str
    requires few { places ≤ 38 }
    requires small { number < 10 ^ places }
    ensures { result.now ≡ last_digits places number }
{
    &marked_digits(buffer, number, places)[1..]
}

/// Appends exactly `places` digits of `number`.
fn push_digits(out: &mut Vec<u8>, number: u128, places: u32) -> Result<(), AllocError>
    requires few { places ≤ 38 }
    requires small { number < 10 ^ places }
    ensures text { OnOk result (out.new.items ≡ out.old.items ++ last_digits places number) }
    ensures unchanged { OnErr result (out.new.items ≡ out.old.items) }
{
    let mut buffer = Buffer::new();
    out.extend_from_slice(decimals(&mut buffer, number, places).as_bytes())
}

/// Appends `number / 10 ^ places` with exactly `places` decimals. The bytes that were there stay.
#[tactic(auto, using(crate::proofs::WritingLaws::kept, crate::proofs::WritingLaws::kept_through))]
fn push_point(out: &mut Vec<u8>, number: u128, places: u32) -> Result<(), AllocError>
    requires { places ≤ 38 }
    ensures text { OnOk result (out.new.items ≡ out.old.items ++ with_point number places) }
    ensures kept { OnErr result (take (length out.old.items) out.new.items ≡ out.old.items) }
{
    if places == 0 {
        return push_natural(out, number);
    }
    let unit = power(places);
    push_natural(out, number / unit)?;
    out.push(b'.')?;
    push_digits(out, number % unit, places)
}

/// Appends the sign, if it is a minus.
fn push_sign(out: &mut Vec<u8>, number: Whole) -> Result<(), AllocError>
    ensures text { OnOk result (out.new.items ≡ out.old.items ++ sign_of number) }
    ensures unchanged { OnErr result (out.new.items ≡ out.old.items) }
{
    if number.is_negative() {
        out.push(b'-')?;
    }
    Ok(())
}

/// Appends `over / under`, with the least number of decimals that shows it exactly, or else as it
/// stands. The bytes that were there stay.
#[tactic(auto, using(crate::proofs::WritingLaws::kept, crate::proofs::WritingLaws::kept_through, crate::proofs::WritingLaws::whole_text))]
fn push_size(out: &mut Vec<u8>, over: u128, under: u128) -> Result<(), AllocError>
    requires positive { 0 < under }
    requires small { over < 2 ^ 127 }
    ensures text { OnOk result (out.new.items ≡ out.old.items ++ size_text over under (place_of over under)) }
    ensures kept { OnErr result (take (length out.old.items) out.new.items ≡ out.old.items) }
{
    if under == 1 {
        return push_natural(out, over);
    }
    match place(over, under) {
        Some(places) => push_point(out, over * (power(places) / under), places),
        None => {
            push_natural(out, over)?;
            out.push(b'/')?;
            push_natural(out, under)
        }
    }
}

/// Appends the one text of a number. The bytes that were there stay.
#[tactic(auto, using(crate::proofs::WritingLaws::kept, crate::proofs::WritingLaws::kept_through), unfolding(crate::specs::Written::written, crate::specs::Written::written_by))]
fn push_parts(out: &mut Vec<u8>, number: &Frac) -> Result<(), AllocError>
    ensures text { OnOk result (out.new.items ≡ out.old.items ++ written number.now) }
    ensures kept { OnErr result (take (length out.old.items) out.new.items ≡ out.old.items) }
{
    let parts = number.parts();
    push_sign(out, parts.num)?;
    push_size(out, parts.num.size(), parts.den)
}

/// Appends the one text of a number: a `-` if it is below 0, the whole digits, and with the least
/// number of decimals that shows it exactly, from 0 to 38, a point and exactly that many digits. A
/// number that no such number of decimals shows is written `n/d` in lowest terms.
///
/// # Errors
/// Where memory is short; then the bytes are those that were there.
pub fn push(out: &mut Vec<u8>, number: &Frac) -> Result<(), AllocError>
    ensures text { OnOk result (out.new.items ≡ out.old.items ++ written number.now) }
    ensures unchanged { OnErr result (out.new.items ≡ out.old.items) }
{
    let before = out.len();
    match push_parts(out, number) {
        Ok(()) => Ok(()),
        Err(error) => {
            out.truncate(before);
            Err(error)
        }
    }
}

/// The one text of a number, as [`push`] appends it.
///
/// # Errors
/// Where memory is short.
pub fn write(alloc: Global, number: &Frac) -> Result<Vec<u8>, AllocError>
    ensures { IfOk result (λ text. text.items ≡ written number.now) }
{
    let mut out = Vec::new(alloc);
    push(&mut out, number)?;
    Ok(out)
}
