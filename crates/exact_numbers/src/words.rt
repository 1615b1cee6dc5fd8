//! Fractions of 127 bits as exact numbers: what has no room is past.

ghost use Rattle.fractions.specs.Lowest.{Fits};

use crate::Exact;
use fractions::Past;
use fractions::frac::Frac;
use std::alloc::Global;

/// Tells that a number has room.
fn keep(number: &Frac)
    ensures { Fits number.now }
{
    let _ = number.parts();
}

impl Exact for Frac {
    type Refusal = Past;

    ghost use Rattle.fractions.specs.Room.{in_frac};
    ghost use Rattle.exact_numbers.specs.Nothing.{frac_adds_nothing};

    ghost number = { λ q. q };

    ghost room = { in_frac };

    ghost is_past = { λ why. Unit {0} };

    fn says_past(why: Past) -> bool {
        true
    }

    fn zero() -> Frac {
        Frac::zero()
    }

    fn of(given: &Frac) -> Frac {
        keep(given);
        *given
    }

    fn plus(&self, alloc: Global, other: &Frac) -> Result<Frac, Past> {
        let sum = self.add(other)?;
        keep(&sum);
        Ok(sum)
    }

    fn minus(&self, alloc: Global, other: &Frac) -> Result<Frac, Past> {
        let difference = self.sub(other)?;
        keep(&difference);
        Ok(difference)
    }

    fn scaled(&self, alloc: Global, factor: &Frac) -> Result<Frac, Past> {
        let product = factor.mul(self)?;
        keep(&product);
        Ok(product)
    }

    fn over(&self, alloc: Global, divisor: &Frac) -> Result<Frac, Past> {
        let quotient = self.div(divisor)?;
        keep(&quotient);
        Ok(quotient)
    }

    fn scaled_by_quotient(&self, alloc: Global, over: &Frac, under: &Frac) -> Result<Frac, Past> {
        let factor = over.div(under)?;
        keep(&factor);
        let product = factor.mul(self)?;
        keep(&product);
        Ok(product)
    }

    fn copied(&self, alloc: Global) -> Result<Frac, Past> {
        keep(self);
        Ok(*self)
    }

    fn negate(&mut self) {
        *self = self.neg();
    }

    fn is_at_most(&self, other: &Frac) -> bool {
        self.le(other)
    }

    fn is_fraction(&self, other: &Frac) -> bool {
        self.is_same(other)
    }

    fn is_below(&self, other: &Frac) -> bool {
        self.lt(other)
    }

    fn is_above(&self, other: &Frac) -> bool {
        other.lt(self)
    }

    fn is_positive(&self) -> bool {
        self.is_positive()
    }

    fn is_negative(&self) -> bool {
        self.is_negative()
    }

    fn is_whole(&self) -> bool {
        self.is_whole()
    }

    ghost adds_nothing = { frac_adds_nothing };
}
