//! Whole numbers times powers of ten.

ghost use Rattle.std.specs.Prelude.{◌^◌, ◌<◌, OkIff, unsigned_abs};
ghost use Rattle.fractions.specs.Lowest.{Fits};
ghost use Rattle.fractions.specs.Scaled.{scaled};

use crate::Past;
use crate::frac::Frac;
use crate::places::power;
use crate::whole::Whole;

/// `n` times 10 to the power of `k`.
fn times_power(n: Whole, k: u128) -> Result<Frac, Past>
    requires { 0 < unsigned_abs n }
    ensures { OkIff result (Fits (scaled n k 0)) (scaled n k 0) }
{
    if k > 38 {
        return Err(Past);
    }
    let all = n.scaled(power(k as u32))?;
    Ok(Frac::whole(all))
}

/// `n` over 10 to the power of `k`.
fn over_power(n: Whole, k: u128) -> Result<Frac, Past>
    requires some { 0 < unsigned_abs n }
    requires small { unsigned_abs n < 2 ^ 127 }
    ensures { OkIff result (Fits (scaled n 0 k)) (scaled n 0 k) }
{
    if k <= 38 {
        return Ok(Frac::ratio_of(n, power(k as u32)));
    }
    if k > 76 {
        return Err(Past);
    }
    let first = Frac::ratio_of(n, power(38));
    let rest = Frac::ratio_of(Whole::natural(1), power(k as u32 - 38));
    Frac::mul(&first, &rest)
}

/// `n` times 10 to the power of `up`, over 10 to the power of `down`.
///
/// # Errors
/// [`Past`] exactly where that has no room.
pub fn scale(n: Whole, up: u128, down: u128) -> Result<Frac, Past>
    ensures { OkIff result (Fits (scaled n up down)) (scaled n up down) }
{
    if n.size() == 0 {
        return Ok(Frac::zero());
    }
    if up >= down {
        times_power(n, up - down)
    } else {
        over_power(n, down - up)
    }
}
