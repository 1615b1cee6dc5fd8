//! What a row's terms come to, over the least denominator that they have in common.

ghost use Prim.Native.Nat.{◌∣◌};
ghost use Rattle.std.specs.Prelude.{◌≡◌, ℕ, ◌+◌, ◌<◌, ◌≤◌, ◌^◌, ◌∷◌, [], Some, None, IfSome, IfNone, unsigned_abs};
ghost use Rattle.row_spans.specs.Spans.{end_at};
ghost use Rattle.kept_sums.specs.CommonSums.{numerator, AreOver, EndOver};
ghost use Rattle.kept_sums.specs.RowTotals.{both_ends, ArePastWith, AreSumsWith, AreTooHeavy, HaveRoomOver, IsLeastMultiple, IsLeastWith, IsPastWith, IsSumWith, IsWithin, no_sums};

use fractions::divisor::{gcd, quotient};
use fractions::frac::Frac;
use fractions::whole::Whole;
use row_spans::{Extreme, Span, end_of};

/// What a row's terms come to over their least common denominator.
#[derive(Clone, Copy, Debug, PartialEq, Eq)]
pub struct RowTotals {
    /// The least denominator that all finite terms have in common.
    pub denominator: u128,
    /// The sum of the numerators of the least terms.
    pub least: i128,
    /// The sum of the numerators of the greatest terms.
    pub greatest: i128,
    /// How many of the least terms are infinite.
    pub least_infinite: u32,
    /// How many of the greatest terms are infinite.
    pub greatest_infinite: u32,
}

/// A sum of terms over a denominator.
#[derive(Clone, Copy)]
pub struct EndSum {
    /// The sum of the numerators of the finite terms.
    pub total: i128,
    /// The sum of the absolute values of these.
    pub sizes: u128,
    /// How many terms are infinite.
    pub infinite: u32,
}

/// The sums of the least and of the greatest terms of a row over a denominator.
#[derive(Clone, Copy)]
pub struct RowSums {
    /// The sum of the least terms.
    pub least: EndSum,
    /// The sum of the greatest.
    pub greatest: EndSum,
}

/// The least common multiple. `None` exactly where it is above 2^63.
fn least_multiple(common: u128, other: u128) -> Option<u128>
    requires common { 0 < common }
    requires other { 0 < other }
    ensures some { IfSome result (IsLeastMultiple common other) }
    ensures none { IfNone result ((m : ℕ) → 0 < m → common ∣ m → other ∣ m → 2 ^ 63 < m) }
{
    let part = quotient(other, gcd(common, other));
    let multiple = common.checked_mul(part)?;
    if multiple > 1 << 63 {
        return None;
    }
    Some(multiple)
}

/// The least multiple of a denominator over which one end of a span can be written. `None` only where this, or a numerator over it, is
/// above 2^63.
fn denominator_with_end(common: u128, extreme: Extreme, span: &Span) -> Option<u128>
    requires positive { 0 < common }
    requires short { common ≤ 2 ^ 63 }
    ensures some { IfSome result (IsLeastWith common (end_at extreme span.now ∷ [])) }
    ensures none { IfNone result (IsPastWith common (end_at extreme span.now)) }
{
    let Ok(end) = end_of(extreme, span) else {
        return None;
    };
    match end.number() {
        None => Some(common),
        Some(number) => least_multiple(common, number.parts().den),
    }
}

/// The least multiple of a denominator over which both ends of a span can be written. `None` only where this, or a numerator over it, is
/// above 2^63.
pub fn denominator_with(common: u128, span: &Span) -> Option<u128>
    requires positive { 0 < common }
    requires short { common ≤ 2 ^ 63 }
    ensures some { IfSome result (IsLeastWith common (both_ends (span.now ∷ []))) }
    ensures none { IfNone result (ArePastWith common (span.now ∷ [])) }
{
    let least = denominator_with_end(common, Extreme::Least, span)?;
    denominator_with_end(least, Extreme::Greatest, span)
}

/// A whole number as one of 128 bits.
fn signed(number: Whole) -> i128
    ensures { result ≡ number }
{
    let size = number.size() as i128;
    if number.is_negative() { -size } else { size }
}

/// A sum with one finite term more over the denominator. `None` exactly where the sum of the sizes is above 2^63.
fn sum_with_number(sum: &EndSum, denominator: u128, number: &Frac) -> Option<EndSum>
    requires positive { 0 < denominator }
    requires short { denominator ≤ 2 ^ 63 }
    requires within { IsWithin sum.now }
    ensures some { IfSome result (IsSumWith denominator (Some number.now ∷ []) sum.now) }
    ensures none { IfNone result (2 ^ 63 < sum.now.sizes + unsigned_abs (numerator denominator (Some number.now))) }
{
    let parts = number.parts();
    let Ok(term) = parts.num.scaled(quotient(denominator, parts.den)) else {
        return None;
    };
    let sizes = sum.sizes + term.size();
    if sizes > 1 << 63 {
        return None;
    }
    Some(EndSum {
        total: sum.total + signed(term),
        sizes,
        infinite: sum.infinite,
    })
}

/// A sum with one infinite term more.
fn sum_with_infinite(sum: &EndSum, denominator: u128) -> EndSum
    requires within { IsWithin sum.now }
    requires few { sum.now.infinite + 1 < 2 ^ 32 }
    ensures { IsSumWith denominator (None ∷ []) sum.now result }
{
    EndSum {
        total: sum.total,
        sizes: sum.sizes,
        infinite: sum.infinite + 1,
    }
}

/// A sum with one end of a span more over the denominator. `None` exactly where the sum of the sizes is above 2^63.
fn sum_with(sum: &EndSum, denominator: u128, extreme: Extreme, span: &Span) -> Option<EndSum>
    requires positive { 0 < denominator }
    requires short { denominator ≤ 2 ^ 63 }
    requires over { EndOver denominator (end_at extreme span.now) }
    requires within { IsWithin sum.now }
    requires few { sum.now.infinite + 1 < 2 ^ 32 }
    ensures some { IfSome result (IsSumWith denominator (end_at extreme span.now ∷ []) sum.now) }
    ensures none { IfNone result (2 ^ 63 < sum.now.sizes + unsigned_abs (numerator denominator (end_at extreme span.now))) }
{
    let Ok(end) = end_of(extreme, span) else {
        return None;
    };
    match end.number() {
        None => Some(sum_with_infinite(sum, denominator)),
        Some(number) => sum_with_number(sum, denominator, &number),
    }
}

impl RowSums {
    /// The sums of no terms.
    pub fn none() -> RowSums
        ensures { result ≡ no_sums }
    {
        let none = EndSum {
            total: 0,
            sizes: 0,
            infinite: 0,
        };
        RowSums {
            least: none,
            greatest: none,
        }
    }

    /// The sums with both ends of a span more over a denominator. `None` exactly where a sum of sizes is above 2^63.
    pub fn with(&self, denominator: u128, span: &Span) -> Option<RowSums>
        requires room { HaveRoomOver denominator self.now }
        requires over { AreOver denominator (both_ends (span.now ∷ [])) }
        ensures some { IfSome result (AreSumsWith denominator (span.now ∷ []) self.now) }
        ensures none { IfNone result (AreTooHeavy denominator (span.now ∷ []) self.now) }
    {
        Some(RowSums {
            least: sum_with(&self.least, denominator, Extreme::Least, span)?,
            greatest: sum_with(&self.greatest, denominator, Extreme::Greatest, span)?,
        })
    }
}
