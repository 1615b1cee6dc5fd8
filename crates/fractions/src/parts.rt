//! Sums and products of numbers by their numerators and denominators.

ghost use Rattle.std.specs.Prelude.{◌≡◌, ◌≢◌, ℕ, ◌^◌, ◌<◌, ◌*ℤ◌, pos, unsigned_abs, IfOk, IfSome, IsOk, ◌↔◌};
ghost use Rattle.std.specs.Ordering.{int_cmp};
ghost use Rattle.fractions.specs.FracWords.{StepsFit};
ghost use Rattle.fractions.specs.Lowest.{ratio, IsLowest, Fits};
ghost use Rattle.fractions.specs.Division.{inv_ℚ};
ghost use Rattle.fractions.specs.Floor.{floor_by};
ghost use Rattle.fractions.specs.Number.{◌+ℚ◌, ◌*ℚ◌, of_ℤ};

use crate::compare::compare_products;
use crate::divisor::{gcd, quotient};
use crate::whole::Whole;
use crate::{Past, product};
use std::cmp::Ordering;

/// A numerator over a denominator.
#[derive(Clone, Copy, Debug, PartialEq, Eq)]
pub struct Parts {
    /// The numerator.
    pub num: Whole,
    /// The denominator.
    pub den: u128,
}

/// The sum with numbers of any denominators.
fn long_sum(a: Parts, b: Parts) -> Result<Parts, Past>
    requires left { IsLowest a.num a.den }
    requires right { IsLowest b.num b.den }
    ensures lowest { IfOk result (λ r. IsLowest r.num r.den) }
    ensures value { IfOk result (λ r. ratio r.num r.den ≡ ratio a.num a.den +ℚ ratio b.num b.den) }
    ensures fits { IsOk result ↔ StepsFit a.num a.den b.num b.den }
{
    let common = gcd(a.den, b.den);
    let a_part = quotient(a.den, common);
    let b_part = quotient(b.den, common);
    let left = a.num.scaled(b_part)?;
    let right = b.num.scaled(a_part)?;
    let sum = left.plus(right)?;
    let again = gcd(sum.size(), common);
    let den = product(a_part, quotient(b.den, again))?;
    Ok(Parts {
        num: sum.over(again),
        den,
    })
}

/// The product with numbers of any denominators.
fn long_product(a: Parts, b: Parts) -> Result<Parts, Past>
    requires left { IsLowest a.num a.den }
    requires right { IsLowest b.num b.den }
    ensures lowest { IfOk result (λ r. IsLowest r.num r.den) }
    ensures value { IfOk result (λ r. ratio r.num r.den ≡ ratio a.num a.den *ℚ ratio b.num b.den) }
    ensures fits { IsOk result ↔ Fits (ratio a.num a.den *ℚ ratio b.num b.den) }
{
    let across = gcd(a.num.size(), b.den);
    let back = gcd(b.num.size(), a.den);
    let left = a.num.over(across);
    let right = b.num.over(back);
    let num = left.times(right)?;
    let den = product(quotient(a.den, back), quotient(b.den, across))?;
    Ok(Parts { num, den })
}

/// The sum, in lowest terms.
///
/// # Errors
/// [`Past`] exactly where a step of the sum or its denominator is out of range.
pub fn sum_parts(a: Parts, b: Parts) -> Result<Parts, Past>
    requires left { IsLowest a.num a.den }
    requires right { IsLowest b.num b.den }
    ensures lowest { IfOk result (λ r. IsLowest r.num r.den) }
    ensures value { IfOk result (λ r. ratio r.num r.den ≡ ratio a.num a.den +ℚ ratio b.num b.den) }
    ensures fits { IsOk result ↔ StepsFit a.num a.den b.num b.den }
{
    if a.den != 1 || b.den != 1 {
        return long_sum(a, b);
    }
    let num = a.num.plus(b.num)?;
    Ok(Parts { num, den: 1 })
}

/// The product, in lowest terms.
///
/// # Errors
/// [`Past`] exactly where its lowest terms are out of range.
pub fn product_parts(a: Parts, b: Parts) -> Result<Parts, Past>
    requires left { IsLowest a.num a.den }
    requires right { IsLowest b.num b.den }
    ensures lowest { IfOk result (λ r. IsLowest r.num r.den) }
    ensures value { IfOk result (λ r. ratio r.num r.den ≡ ratio a.num a.den *ℚ ratio b.num b.den) }
    ensures fits { IsOk result ↔ Fits (ratio a.num a.den *ℚ ratio b.num b.den) }
{
    if a.den != 1 || b.den != 1 {
        return long_product(a, b);
    }
    let num = a.num.times(b.num)?;
    Ok(Parts { num, den: 1 })
}

/// How `a` compares with `b`, by cross multiplication in 128 bits; none where these are too few.
fn compare_within(a: &Parts, b: &Parts) -> Option<Ordering>
    requires left { IsLowest a.now.num a.now.den }
    requires right { IsLowest b.now.num b.now.den }
    ensures { IfSome result (λ order. order ≡ int_cmp (a.now.num *ℤ pos b.now.den) (b.now.num *ℤ pos a.now.den)) }
{
    let Ok(left) = a.num.scaled(b.den) else {
        return None;
    };
    let Ok(right) = b.num.scaled(a.den) else {
        return None;
    };
    Some(left.compare(right))
}

/// How `a` compares with `b`, by cross multiplication in 256 bits.
fn long_comparison(a: Parts, b: Parts) -> Ordering
    requires left { 0 < a.den }
    requires right { 0 < b.den }
    ensures { result ≡ int_cmp (a.num *ℤ pos b.den) (b.num *ℤ pos a.den) }
{
    match (a.num.is_negative(), b.num.is_negative()) {
        (false, false) => compare_products(a.num.size(), b.den, b.num.size(), a.den),
        (true, true) => compare_products(b.num.size(), a.den, a.num.size(), b.den),
        (true, false) => Ordering::Less,
        (false, true) => Ordering::Greater,
    }
}

/// How `a` compares with `b`, by cross multiplication.
pub fn compare_parts(a: Parts, b: Parts) -> Ordering
    requires left { IsLowest a.num a.den }
    requires right { IsLowest b.num b.den }
    ensures { result ≡ int_cmp (a.num *ℤ pos b.den) (b.num *ℤ pos a.den) }
{
    if a.den == b.den {
        return a.num.compare(b.num);
    }
    match compare_within(&a, &b) {
        Some(order) => order,
        None => long_comparison(a, b),
    }
}

/// The greatest whole number that is at most `a`.
pub fn floor_parts(a: Parts) -> Whole
    requires { IsLowest a.num a.den }
    ensures value { result ≡ floor_by a.num a.den }
    ensures in_range { unsigned_abs result < 2 ^ 127 }
{
    if a.num.is_negative() {
        Whole::below_zero(quotient(a.num.size() - 1, a.den))
    } else {
        Whole::natural(quotient(a.num.size(), a.den))
    }
}

/// One over `a`, in lowest terms.
pub fn inverse_parts(a: Parts) -> Parts
    requires lowest { IsLowest a.num a.den }
    requires not_zero { ratio a.num a.den ≢ of_ℤ (pos 0) }
    ensures lowest { IsLowest result.num result.den }
    ensures value { ratio result.num result.den ≡ inv_ℚ (ratio a.num a.den) }
{
    let upper = Whole::natural(a.den);
    let num = if a.num.is_negative() {
        upper.negated()
    } else {
        upper
    };
    Parts {
        num,
        den: a.num.size(),
    }
}
