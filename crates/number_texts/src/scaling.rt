//! The number that the parts of a text make.

ghost use Rattle.std.specs.Prelude.{◌≡◌, ◌^◌, ◌<◌, ◌+◌, IsTrue, OkIff, if◌then◌else◌};
ghost use Rattle.std.specs.List.{list_all};
ghost use Rattle.std.specs.Char.{is_ascii_digit};
ghost use Rattle.fractions.specs.Lowest.{Fits};
ghost use Rattle.fractions.specs.Scaled.{scaled};
ghost use Rattle.number_texts.specs.Form.{number as number_of};
ghost use Rattle.number_texts.specs.Read.{signed};

use crate::form::number;
use fractions::Past;
use fractions::frac::Frac;
use fractions::scaling::scale;
use fractions::whole::Whole;

/// The whole number of a size, below 0 or not.
pub fn signed(negative: bool, size: u128) -> Whole
    requires { size < 2 ^ 127 }
    ensures { result ≡ signed negative size }
{
    if negative {
        Whole::natural(size).negated()
    } else {
        Whole::natural(size)
    }
}

/// The least exponent that no other part of a text can make up for.
const FAR: u128 = 1_000_000_000_000_000_000_000_000_000_000;

/// `size`, `zeros` zeros behind it, over 10 to the power of `places`, times 10 to the power of the
/// exponent.
pub fn exact(
    negative: bool,
    size: u128,
    zeros: usize,
    places: usize,
    below: bool,
    exponent: &[u8],
) -> Result<Frac, Past>
    requires small { size < 2 ^ 127 }
    requires digits { IsTrue (list_all is_ascii_digit exponent.now) }
    ensures { let up = if below then 0 else number_of exponent.now in
        let down = if below then number_of exponent.now else 0 in
        let q = scaled (signed negative size) (zeros + up) (places + down) in
        OkIff result (Fits q) q }
{
    let n = signed(negative, size);
    match number(exponent, FAR) {
        Some(e) => {
            if below {
                scale(n, zeros as u128, places as u128 + e)
            } else {
                scale(n, zeros as u128 + e, places as u128)
            }
        }
        None => {
            if size == 0 {
                Ok(Frac::zero())
            } else {
                Err(Past)
            }
        }
    }
}
