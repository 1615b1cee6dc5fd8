//! The limits of one value.

ghost use Rattle.std.specs.Prelude.{◌≡◌, ◌↔◌, IsTrue, Some, MatchOption};
ghost use Rattle.fractions.specs.Order.{◌<ℚ◌};
ghost use Rattle.fractions.specs.Ends.{AtLeast, AtMost};
ghost use Rattle.fractions.specs.Floor.{IsWhole};
ghost use Rattle.lp_check.specs.Limits.{Keeps, Breaks};

use crate::verdicts::Limit;
use exact_numbers::Exact;
use fractions::ext::Ext;
use fractions::frac::Frac;

/// The lower end, where a value is below it.
fn end_above<T: Exact>(lower: &Ext, value: &T) -> Option<Frac>
    ensures { MatchOption result (AtLeast lower.now (T.number value.now)) (λ e. (lower.now ≡ Some e) × (T.number value.now <ℚ e)) }
{
    match lower.number() {
        Some(end) if value.is_below(&end) => Some(end),
        _ => None,
    }
}

/// The upper end, where a value is above it.
fn end_below<T: Exact>(upper: &Ext, value: &T) -> Option<Frac>
    ensures { MatchOption result (AtMost upper.now (T.number value.now)) (λ e. (upper.now ≡ Some e) × (e <ℚ T.number value.now)) }
{
    match upper.number() {
        Some(end) if value.is_above(&end) => Some(end),
        _ => None,
    }
}

/// Whether a value is whole.
fn is_whole<T: Exact>(value: &T) -> bool
    ensures { IsTrue result ↔ IsWhole (T.number value.now) }
{
    value.is_whole()
}

/// The first limit that a value breaks: below the lower end, above the upper end, not whole.
pub fn broken_limit<T: Exact>(lower: &Ext, upper: &Ext, whole: bool, value: &T) -> Option<Limit>
    ensures { MatchOption result (Keeps lower.now upper.now whole (T.number value.now)) (λ limit. Breaks lower.now upper.now whole (T.number value.now) limit) }
{
    if let Some(end) = end_above(lower, value) {
        return Some(Limit::Below(end));
    }
    if let Some(end) = end_below(upper, value) {
        return Some(Limit::Above(end));
    }
    if whole && !is_whole(value) {
        return Some(Limit::NotWhole);
    }
    None
}
