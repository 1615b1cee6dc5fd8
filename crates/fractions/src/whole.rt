//! Whole numbers from -(2^127 - 1) to 2^127 - 1.

ghost use Prim.Native.Nat.{◌∣◌};
ghost use Rattle.std.specs.Ordering.{int_cmp};
ghost use Rattle.std.specs.Prelude.{◌≡◌, ℕ, ℤ, ◌<◌, ◌≤◌, ◌^◌, ◌*◌, ◌*ℤ◌, ◌+ℤ◌, neg_ℤ, ◌<ℤ◌, pos, negsuc, ◌+◌, OkIff, IsTrue, ◌↔◌, unsigned_abs};

use crate::Past;
use crate::divisor::quotient;
use std::cmp::Ordering;
use std::marker::Model;

/// A whole number from -(2^127 - 1) to 2^127 - 1. In a contract it is that number.
#[derive(Clone, Copy, Debug, PartialEq, Eq)]
pub struct Whole {
    value: i128,
}

impl Model for Whole {
    ghost Value = { ℤ };

    ghost view = { λ w. w.value };

    ghost invariant = { λ w. unsigned_abs w.value < 2 ^ 127 };

    ghost inverse = { λ z. record { value = z } };
}

impl Whole {
    /// The whole number `value`.
    pub fn new(value: i128) -> Whole
        requires { unsigned_abs value < 2 ^ 127 }
        ensures { result ≡ value }
    {
        Whole { value }
    }

    /// That it is in range: a fact for the caller.
    pub fn has_room(self)
        ensures { unsigned_abs self < 2 ^ 127 }
    {
        let _ = &self.value;
    }

    /// Its distance from 0.
    pub fn size(self) -> u128
        ensures value { result ≡ unsigned_abs self }
        ensures range { result < 2 ^ 127 }
    {
        self.value.unsigned_abs()
    }

    /// Whether it has 63 bits.
    fn is_short(self) -> bool
        ensures { IsTrue result ↔ (unsigned_abs self < 2 ^ 63) }
    {
        self.value.unsigned_abs() < 1 << 63
    }

    /// Whether it is below 0.
    pub fn is_negative(self) -> bool
        ensures { IsTrue result ↔ (self <ℤ pos 0) }
    {
        self.value < 0
    }

    /// Whether it is above 0.
    pub fn is_positive(self) -> bool
        ensures { IsTrue result ↔ (pos 0 <ℤ self) }
    {
        self.value > 0
    }

    /// The sum.
    ///
    /// # Errors
    /// [`Past`] exactly where it is out of range.
    pub fn plus(self, other: Whole) -> Result<Whole, Past>
        ensures { OkIff result (unsigned_abs (self +ℤ other) < 2 ^ 127) (self +ℤ other) }
    {
        match self.value.checked_add(other.value) {
            Some(sum) if sum != i128::MIN => Ok(Whole { value: sum }),
            _ => Err(Past),
        }
    }

    /// The product.
    ///
    /// # Errors
    /// [`Past`] exactly where it is out of range.
    pub fn times(self, other: Whole) -> Result<Whole, Past>
        ensures { OkIff result (unsigned_abs (self *ℤ other) < 2 ^ 127) (self *ℤ other) }
    {
        if self.is_short() && other.is_short() {
            let value = self.value as i64 as i128 * other.value as i64 as i128;
            return Ok(Whole { value });
        }
        match self.value.checked_mul(other.value) {
            Some(product) if product != i128::MIN => Ok(Whole { value: product }),
            _ => Err(Past),
        }
    }

    /// The product with a natural number.
    ///
    /// # Errors
    /// [`Past`] exactly where it is out of range.
    pub fn scaled(self, k: u128) -> Result<Whole, Past>
        requires { k < 2 ^ 127 }
        ensures { OkIff result (unsigned_abs (self *ℤ pos k) < 2 ^ 127) (self *ℤ pos k) }
    {
        if k == 1 {
            return Ok(self);
        }
        self.times(Whole::natural(k))
    }

    /// The quotient by a natural number that divides it.
    pub fn over(self, k: u128) -> Whole
        requires positive { 0 < k }
        requires divides { k ∣ unsigned_abs self }
        ensures exact { result *ℤ pos k ≡ self }
        ensures in_range { unsigned_abs result < 2 ^ 127 }
    {
        if k == 1 {
            return self;
        }
        let part = Whole::natural(quotient(self.size(), k));
        if self.is_negative() {
            part.negated()
        } else {
            part
        }
    }

    /// How it compares with another.
    pub fn compare(self, other: Whole) -> Ordering
        ensures { result ≡ int_cmp self other }
    {
        self.value.cmp(&other.value)
    }

    /// The negative.
    pub fn negated(self) -> Whole
        ensures { result ≡ neg_ℤ self }
    {
        Whole { value: -self.value }
    }

    /// The natural number k.
    pub fn natural(k: u128) -> Whole
        requires { k < 2 ^ 127 }
        ensures { result ≡ pos k }
    {
        Whole { value: k as i128 }
    }

    /// -k - 1.
    pub fn below_zero(k: u128) -> Whole
        requires { k + 1 < 2 ^ 127 }
        ensures { result ≡ negsuc k }
    {
        Whole {
            value: -(k as i128) - 1,
        }
    }
}
