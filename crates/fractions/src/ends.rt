//! Ends of ranges: their quotients, differences and meets.

ghost use Rattle.std.specs.Prelude.{◌≡◌, ◌≢◌, IfOk, IsOk, ◌↔◌};
ghost use Rattle.fractions.specs.EndWords.{LessFits, OverFits};
ghost use Rattle.fractions.specs.Ends.{less as less_of, meet_high, meet_low, over as over_of};
ghost use Rattle.fractions.specs.Number.{zero_ℚ};

use crate::Past;
use crate::ext::Ext;
use crate::frac::Frac;

/// An end over a number. No end stays none.
///
/// # Errors
/// [`Past`] exactly where the quotient has no room.
pub fn over(end: &Ext, divisor: &Frac) -> Result<Ext, Past>
    requires { divisor.now ≢ zero_ℚ }
    ensures value { IfOk result (λ r. r ≡ over_of end.now divisor.now) }
    ensures fits { IsOk result ↔ OverFits end.now divisor.now }
{
    match end.number() {
        None => Ok(Ext::none()),
        Some(number) => Ok(Ext::at(number.div(divisor)?)),
    }
}

/// An end less a number. No end stays none.
///
/// # Errors
/// [`Past`] exactly where the difference is.
pub fn less(end: &Ext, number: &Frac) -> Result<Ext, Past>
    ensures value { IfOk result (λ r. r ≡ less_of end.now number.now) }
    ensures fits { IsOk result ↔ LessFits end.now number.now }
{
    match end.number() {
        None => Ok(Ext::none()),
        Some(before) => Ok(Ext::at(before.sub(number)?)),
    }
}

/// The greater of two lower ends: a number is at or above it where it is at or above both.
pub fn greater_lower(a: &Ext, b: &Ext) -> Ext
    ensures { result ≡ meet_low a.now b.now }
{
    match (a.number(), b.number()) {
        (None, _) => *b,
        (Some(_), None) => *a,
        (Some(x), Some(y)) => Ext::at(if x.le(&y) { y } else { x }),
    }
}

/// The less of two upper ends: a number is at or below it where it is at or below both.
pub fn lesser_upper(a: &Ext, b: &Ext) -> Ext
    ensures { result ≡ meet_high a.now b.now }
{
    match (a.number(), b.number()) {
        (None, _) => *b,
        (Some(_), None) => *a,
        (Some(x), Some(y)) => Ext::at(if x.le(&y) { x } else { y }),
    }
}
