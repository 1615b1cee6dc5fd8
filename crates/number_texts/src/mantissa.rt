//! Digits without the zeros at their ends.

ghost use Rattle.std.specs.Prelude.{◌≡◌, ◌^◌, ◌<◌, ◌≤◌, ◌+◌, ◌-◌, ◌*◌, ◌++◌, IsTrue, IfSome, SomeIff, length};
ghost use Rattle.std.specs.List.{list_all};
ghost use Rattle.std.specs.Char.{is_ascii_digit};
ghost use Rattle.number_texts.specs.Mantissas.{mantissa_with, mantissa_after, mantissa_of};

use fractions::places::power;

/// A number, and how many zeros stand behind it.
#[derive(Clone, Copy)]
pub struct Mantissa {
    pub number: u128,
    pub zeros: usize,
}

/// `n` times ten to the power of `zeros + 1`, and a digit.
fn joined(n: u128, zeros: usize, digit: u8) -> Option<u128>
    requires digit { IsTrue (is_ascii_digit digit) }
    ensures { SomeIff result (n * 10 ^ (zeros + 1) + (digit - 48) < 2 ^ 127)
        (n * 10 ^ (zeros + 1) + (digit - 48)) }
{
    let more = (digit - 48) as u128;
    if n == 0 {
        return Some(more);
    }
    if zeros >= 38 {
        return None;
    }
    let tens = n.checked_mul(power(zeros as u32 + 1))?;
    if tens >= (1 << 127) - more {
        return None;
    }
    Some(tens + more)
}

fn with_digit(mantissa: Mantissa, digit: u8) -> Option<Mantissa>
    requires digit { IsTrue (is_ascii_digit digit) }
    requires small { mantissa.number < 2 ^ 127 }
    requires room { mantissa.zeros + 1 < 2 ^ 64 }
    ensures value { SomeIff result ((mantissa_with mantissa digit).number < 2 ^ 127)
        (mantissa_with mantissa digit) }
    ensures zeros { IfSome result (λ s. s.zeros ≤ mantissa.zeros + 1) }
{
    if digit == b'0' {
        if mantissa.number == 0 {
            return Some(mantissa);
        }
        return Some(Mantissa {
            number: mantissa.number,
            zeros: mantissa.zeros + 1,
        });
    }
    let number = joined(mantissa.number, mantissa.zeros, digit)?;
    Some(Mantissa { number, zeros: 0 })
}

fn after(mantissa: Mantissa, digits: &[u8]) -> Option<Mantissa>
    requires digits { IsTrue (list_all is_ascii_digit digits.now) }
    requires small { mantissa.number < 2 ^ 127 }
    requires room { mantissa.zeros + length digits.now < 2 ^ 64 }
    ensures value { SomeIff result ((mantissa_after mantissa digits.now).number < 2 ^ 127)
        (mantissa_after mantissa digits.now) }
    ensures zeros { IfSome result (λ s. s.zeros ≤ mantissa.zeros + length digits.now) }
{
    let mut mantissa = mantissa;
    let mut rest = digits;
    while let [digit, behind @ ..] = rest {
        mantissa = with_digit(mantissa, *digit)?;
        rest = behind;
    }
    Some(mantissa)
}

/// The number that the digits form without the zeros at their ends, where it is in range.
pub fn without_zeros(whole: &[u8], decimals: &[u8]) -> Option<Mantissa>
    requires whole { IsTrue (list_all is_ascii_digit whole.now) }
    requires decimals { IsTrue (list_all is_ascii_digit decimals.now) }
    requires room { length whole.now + length decimals.now < 2 ^ 64 }
    ensures value { SomeIff result ((mantissa_of (whole.now ++ decimals.now)).number < 2 ^ 127)
        (mantissa_of (whole.now ++ decimals.now)) }
    ensures zeros { IfSome result (λ s. s.zeros ≤ length whole.now + length decimals.now) }
{
    let first = after(
        Mantissa {
            number: 0,
            zeros: 0,
        },
        whole,
    )?;
    after(first, decimals)
}
