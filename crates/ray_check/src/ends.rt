//! Weights of ends.

ghost use Rattle.std.specs.Prelude.{◌↔◌, IsTrue};
ghost use Rattle.lp_rays.specs.Ray.{IsWeight};

use fractions::ext::Ext;
use fractions::frac::Frac;

/// Whether a number is a weight of an end: not below 0, and 0 where the end is infinite.
fn is_weight(end: &Ext, number: &Frac) -> bool
    ensures { IsTrue result ↔ IsWeight end.now number.now }
{
    if end.is_none() {
        number.is_zero()
    } else {
        !number.is_negative()
    }
}

/// Whether two numbers are weights of a lower and an upper end.
pub fn are_weights(lower: &Ext, upper: &Ext, low: &Frac, high: &Frac) -> bool
    ensures { IsTrue result ↔ (IsWeight lower.now low.now × IsWeight upper.now high.now) }
{
    is_weight(lower, low) && is_weight(upper, high)
}
