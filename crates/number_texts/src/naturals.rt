//! The digits of natural numbers.

ghost use Rattle.std.specs.Prelude.{◌≡◌, ◌+◌, ◌/◌, ◌%◌, ◌<◌, ◌≤◌, ◌++◌, ◌∷◌, [], length, vec_capacity, OnErr, OnOk};
ghost use Rattle.std.specs.Fmt.{decimal};

use itoa::Buffer;
use std::alloc::AllocError;

/// How many digits a number of 64 bits has at most.
pub const MOST_DIGITS: usize = 20;

/// Appends the two digits of a number below 100, for which there is room.
fn put_two(out: &mut Vec<u8>, number: u64)
    requires below { number < 100 }
    requires room { length out.old.items + 2 ≤ vec_capacity out.old }
    ensures digits { out.new.items ≡ out.old.items ++ (48 + number / 10) ∷ (48 + number % 10) ∷ [] }
    ensures room { vec_capacity out.new ≡ vec_capacity out.old }
{
    out.push_reserved(b'0' + (number / 10) as u8);
    out.push_reserved(b'0' + (number % 10) as u8);
}

/// Appends the digits of a number, for which there is room, two at a time.
#[tactic(auto, using(crate::proofs::DigitLaws::digits_laws))]
pub fn put_digits(out: &mut Vec<u8>, number: u64)
    requires { length out.old.items + length (decimal number) ≤ vec_capacity out.old }
    ensures digits { out.new.items ≡ out.old.items ++ decimal number }
    ensures room { vec_capacity out.new ≡ vec_capacity out.old }
{
    if number < 10 {
        out.push_reserved(b'0' + number as u8);
        return;
    }
    if number < 100 {
        put_two(out, number);
        return;
    }
    put_digits(out, number / 100);
    put_two(out, number % 100);
}

/// Appends the digits of a natural number that passes 64 bits.
#[cold]
fn push_long(out: &mut Vec<u8>, number: u128) -> Result<(), AllocError>
    ensures text { OnOk result (out.new.items ≡ out.old.items ++ decimal number) }
    ensures unchanged { OnErr result (out.new.items ≡ out.old.items) }
{
    let mut buffer = Buffer::new();
    out.extend_from_slice(buffer.format(number).as_bytes())
}

/// Appends a natural number. Room is made once for all its digits.
///
/// # Errors
/// Memory ran out. The bytes are those that were there.
#[tactic(auto, using(crate::proofs::DigitLaws::digits_laws))]
pub fn push_natural(out: &mut Vec<u8>, number: u128) -> Result<(), AllocError>
    ensures text { OnOk result (out.new.items ≡ out.old.items ++ decimal number) }
    ensures unchanged { OnErr result (out.new.items ≡ out.old.items) }
{
    if number >= 1 << 64 {
        return push_long(out, number);
    }
    out.reserve(MOST_DIGITS)?;
    put_digits(out, number as u64);
    Ok(())
}
