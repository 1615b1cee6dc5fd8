//! Exact numbers: fractions in lowest terms, of 127 bits, and the rational numbers of contracts, which have no bound.
#![tactic(auto)]

ghost use Rattle.std.specs.Prelude.{◌≡◌, ℕ, ◌<◌, ◌≤◌, ◌^◌, ◌*◌, OkIff, IfOk, IsOk, ◌↔◌, unsigned_abs};

pub mod compare;
pub mod divisor;
pub mod ends;
pub mod ext;
mod fives;
pub mod frac;
pub mod number_laws;
pub mod parts;
pub mod places;
pub mod scaling;
pub mod whole;

/// A number is out of range: its numerator or denominator passes 2^127 - 1.
#[derive(Debug, Clone, Copy, PartialEq, Eq)]
pub struct Past;

/// `x * y`, where it is in range.
fn product(x: u128, y: u128) -> Result<u128, Past>
    ensures { OkIff result (x * y < 2 ^ 127) (x * y) }
{
    if x < 1 << 63 && y < 1 << 63 {
        return Ok(x as u64 as u128 * y as u64 as u128);
    }
    match x.checked_mul(y) {
        Some(all) if all < 1 << 127 => Ok(all),
        _ => Err(Past),
    }
}

/// The numbers that are taken: decimal numbers alone, or all fractions.
#[derive(Clone, Copy, Debug, PartialEq, Eq)]
pub enum Numbers {
    /// Numbers with at most 38 decimals.
    Decimal,
    /// All numbers that have room.
    Fractions,
}
