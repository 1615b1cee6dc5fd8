//! Sums of fractions over one denominator that have room in whatever order they are made.

ghost use Rattle.std.specs.Prelude.{◌≡◌, ◌<◌, ◌^◌, ◌++◌, ◌∷◌, [], ◌+ℤ◌, neg_ℤ, List, Option, IfSome, Some, None, Ok};
ghost use Rattle.fractions.specs.Number.{Number, ◌*ℚ◌};
ghost use Rattle.fractions.specs.Lowest.{over_of, under_of};
ghost use Rattle.row_spans.specs.Spans.{end_at, ends_at};
ghost use Rattle.row_spans.specs.RowSums.{row_sum};
ghost use Rattle.kept_sums.specs.CommonSums.{HasRoom, numerator, IsCommonMultiple, IsCommonSum};

use fractions::divisor::{gcd, quotient};
use fractions::ext::Ext;
use fractions::frac::Frac;
use fractions::whole::Whole;
use row_spans::exact::product;
use row_spans::{Extreme, Span, bound_at, end_of};

/// A sum of finite terms over one denominator, and how many further ones are infinite.
#[derive(Clone, Copy)]
pub struct CommonSum {
    /// A denominator of all finite terms.
    pub denominator: u128,
    /// The sum of their numerators over it.
    pub total: Whole,
    /// The sum of the absolute values of these.
    pub sizes: u128,
    /// How many terms are infinite.
    pub infinite: usize,
}

/// The sum of no terms.
pub(crate) fn no_terms() -> CommonSum
    ensures { IsCommonSum [] result }
{
    CommonSum {
        denominator: 1,
        total: Whole::new(0),
        sizes: 0,
        infinite: 0,
    }
}

/// A common multiple, if it has room.
pub(crate) fn common_multiple(common: u128, other: u128) -> Option<u128>
    requires common { 0 < common }
    requires short { common < 2 ^ 127 }
    requires other { 0 < other }
    ensures { IfSome result (IsCommonMultiple common other) }
{
    let part = quotient(other, gcd(common, other));
    match common.checked_mul(part) {
        Some(all) if all < 1 << 127 => Some(all),
        _ => None,
    }
}

/// A sum with one number more that is written over its denominator, with this numerator, if it has room.
fn plus_numerator(sum: &CommonSum, numerator: Whole) -> Option<CommonSum>
    requires positive { 0 < sum.now.denominator }
    requires short { sum.now.denominator < 2 ^ 127 }
    ensures room { IfSome result (λ t. HasRoom t) }
    ensures value { IfSome result (λ t. (q : Number) (a b : List (Option Number)) → under_of q ≡ sum.now.denominator → over_of q ≡ numerator → IsCommonSum (a ++ b) sum.now → IsCommonSum (a ++ Some q ∷ b) t) }
{
    let Ok(total) = sum.total.plus(numerator) else {
        return None;
    };
    let sizes = sum.sizes.checked_add(numerator.size())?;
    if sizes >= 1 << 127 {
        return None;
    }
    Some(CommonSum {
        denominator: sum.denominator,
        total,
        sizes,
        infinite: sum.infinite,
    })
}

/// A sum with one number more, if it has room.
fn plus_number(sum: &CommonSum, number: &Frac) -> Option<CommonSum>
    requires positive { 0 < sum.now.denominator }
    requires short { sum.now.denominator < 2 ^ 127 }
    ensures room { IfSome result (λ t. HasRoom t) }
    ensures value { IfSome result (λ t. (a b : List (Option Number)) → IsCommonSum (a ++ b) sum.now → IsCommonSum (a ++ Some number.now ∷ b) t) }
{
    let parts = number.parts();
    if parts.den == sum.denominator {
        return plus_numerator(sum, parts.num);
    }
    let denominator = common_multiple(sum.denominator, parts.den)?;
    let Ok(term) = parts.num.scaled(quotient(denominator, parts.den)) else {
        return None;
    };
    let scale = quotient(denominator, sum.denominator);
    let Ok(before) = sum.total.scaled(scale) else {
        return None;
    };
    let Ok(total) = before.plus(term) else {
        return None;
    };
    let sizes = sum.sizes.checked_mul(scale)?.checked_add(term.size())?;
    if sizes >= 1 << 127 {
        return None;
    }
    Some(CommonSum {
        denominator,
        total,
        sizes,
        infinite: sum.infinite,
    })
}

/// The same sum over a common multiple of its denominator and another one, if it has room.
pub(crate) fn raised(sum: &CommonSum, other: u128) -> Option<CommonSum>
    requires positive { 0 < sum.now.denominator }
    requires short { sum.now.denominator < 2 ^ 127 }
    requires other { 0 < other }
    ensures room { IfSome result (λ t. HasRoom t) }
    ensures value { IfSome result (λ t. (es : List (Option Number)) → IsCommonSum es sum.now → IsCommonSum es t) }
{
    if sum.denominator == other {
        return Some(*sum);
    }
    let denominator = common_multiple(sum.denominator, other)?;
    let scale = quotient(denominator, sum.denominator);
    let Ok(total) = sum.total.scaled(scale) else {
        return None;
    };
    let spread = sum.sizes.checked_mul(scale)?;
    if spread >= 1 << 127 {
        return None;
    }
    Some(CommonSum {
        denominator,
        total,
        sizes: spread,
        infinite: sum.infinite,
    })
}

/// A sum with one infinite term more.
fn plus_infinite(sum: &CommonSum) -> Option<CommonSum>
    requires positive { 0 < sum.now.denominator }
    requires short { sum.now.denominator < 2 ^ 127 }
    ensures room { IfSome result (λ t. HasRoom t) }
    ensures value { IfSome result (λ t. (a b : List (Option Number)) → IsCommonSum (a ++ b) sum.now → IsCommonSum (a ++ None ∷ b) t) }
{
    Some(CommonSum {
        denominator: sum.denominator,
        total: sum.total,
        sizes: sum.sizes,
        infinite: sum.infinite.checked_add(1)?,
    })
}

/// A sum with one term more, if it has room.
pub(crate) fn plus_term(sum: &CommonSum, extreme: Extreme, span: &Span) -> Option<CommonSum>
    requires positive { 0 < sum.now.denominator }
    requires short { sum.now.denominator < 2 ^ 127 }
    ensures room { IfSome result (λ t. HasRoom t) }
    ensures value { IfSome result (λ t. (a b : List (Option Number)) → IsCommonSum (a ++ b) sum.now → IsCommonSum (a ++ end_at extreme span.now ∷ b) t) }
{
    let Ok(end) = end_of(extreme, span) else {
        return None;
    };
    match end.number() {
        None => plus_infinite(sum),
        Some(number) => plus_number(sum, &number),
    }
}

/// The same where the term comes last.
fn plus_last(sum: &CommonSum, extreme: Extreme, span: &Span) -> Option<CommonSum>
    requires positive { 0 < sum.now.denominator }
    requires short { sum.now.denominator < 2 ^ 127 }
    ensures { IfSome result (λ t. (es : List (Option Number)) → IsCommonSum es sum.now → IsCommonSum (es ++ end_at extreme span.now ∷ []) t) }
{
    plus_term(sum, extreme, span)
}

/// The sum of a row's terms, if it has room in whatever order it is made.
pub fn common_sum(extreme: Extreme, spans: &[Span]) -> Option<CommonSum>
    ensures { IfSome result (IsCommonSum (ends_at extreme spans.now)) }
{
    let mut sum = no_terms();
    for span in spans {
        sum = plus_last(&sum, extreme, span)?;
    }
    Some(sum)
}

/// The activity of which a sum tells.
pub fn told_activity(sum: &CommonSum) -> Ext
    requires positive { 0 < sum.now.denominator }
    requires short { sum.now.denominator < 2 ^ 127 }
    ensures { (es : List (Option Number)) → IsCommonSum es sum.now → row_sum es ≡ Ok result }
{
    if sum.infinite == 0 {
        Ext::at(Frac::ratio_of(sum.total, sum.denominator))
    } else {
        Ext::none()
    }
}

/// The numerator of a number over a denominator, if it has room.
fn numerator_over(denominator: u128, number: &Frac) -> Option<Whole>
    requires positive { 0 < denominator }
    requires short { denominator < 2 ^ 127 }
    ensures { IfSome result (λ z. z ≡ numerator denominator (Some number.now)) }
{
    let parts = number.parts();
    match parts.num.scaled(quotient(denominator, parts.den)) {
        Ok(term) => Some(term),
        Err(_) => None,
    }
}

/// The numerator of the sum without one of its finite terms, if it has room.
pub(crate) fn less_numerator(sum: &CommonSum, number: &Frac) -> Option<Whole>
    requires positive { 0 < sum.now.denominator }
    requires short { sum.now.denominator < 2 ^ 127 }
    ensures { IfSome result (λ z. z ≡ sum.now.total +ℤ neg_ℤ (numerator sum.now.denominator (Some number.now))) }
{
    let term = numerator_over(sum.denominator, number)?;
    match sum.total.plus(term.negated()) {
        Ok(rest) => Some(rest),
        Err(_) => None,
    }
}

/// A sum without one of its finite terms, to be mended.
fn without_number(sum: &CommonSum, number: &Frac) -> Option<CommonSum>
    requires positive { 0 < sum.now.denominator }
    requires short { sum.now.denominator < 2 ^ 127 }
    ensures room { IfSome result (λ t. HasRoom t) }
    ensures value { IfSome result (λ t. (a b : List (Option Number)) → IsCommonSum (a ++ Some number.now ∷ b) sum.now → IsCommonSum (a ++ b) t) }
{
    let total = less_numerator(sum, number)?;
    let term = numerator_over(sum.denominator, number)?;
    Some(CommonSum {
        denominator: sum.denominator,
        total,
        sizes: sum.sizes.checked_sub(term.size())?,
        infinite: sum.infinite,
    })
}

/// A sum without one of its infinite terms, to be mended.
fn without_infinite(sum: &CommonSum) -> Option<CommonSum>
    requires positive { 0 < sum.now.denominator }
    requires short { sum.now.denominator < 2 ^ 127 }
    ensures room { IfSome result (λ t. HasRoom t) }
    ensures value { IfSome result (λ t. (a b : List (Option Number)) → IsCommonSum (a ++ None ∷ b) sum.now → IsCommonSum (a ++ b) t) }
{
    Some(CommonSum {
        denominator: sum.denominator,
        total: sum.total,
        sizes: sum.sizes,
        infinite: sum.infinite.checked_sub(1)?,
    })
}

/// A sum without one of its terms.
pub(crate) fn less_term(sum: &CommonSum, extreme: Extreme, span: &Span) -> Option<CommonSum>
    requires positive { 0 < sum.now.denominator }
    requires short { sum.now.denominator < 2 ^ 127 }
    ensures room { IfSome result (λ t. HasRoom t) }
    ensures value { IfSome result (λ t. (a b : List (Option Number)) → IsCommonSum (a ++ end_at extreme span.now ∷ b) sum.now → IsCommonSum (a ++ b) t) }
{
    let Ok(end) = end_of(extreme, span) else {
        return None;
    };
    match end.number() {
        None => without_infinite(sum),
        Some(number) => without_number(sum, &number),
    }
}

/// The sum without one of its terms, where all are finite.
fn less_number(sum: &CommonSum, number: &Frac) -> Option<Ext>
    requires positive { 0 < sum.now.denominator }
    requires short { sum.now.denominator < 2 ^ 127 }
    requires finite { sum.now.infinite ≡ 0 }
    ensures { IfSome result (λ e. (a b : List (Option Number)) → IsCommonSum (a ++ Some number.now ∷ b) sum.now → row_sum (a ++ b) ≡ Ok e) }
{
    let rest = less_numerator(sum, number)?;
    Some(Ext::at(Frac::ratio_of(rest, sum.denominator)))
}

/// The sum without one of its terms that is a product, which is not made where another term is infinite.
fn less_product(sum: &CommonSum, value: &Frac, bound: &Frac) -> Option<Ext>
    requires positive { 0 < sum.now.denominator }
    requires short { sum.now.denominator < 2 ^ 127 }
    ensures { IfSome result (λ e. (a b : List (Option Number)) → IsCommonSum (a ++ Some (value.now *ℚ bound.now) ∷ b) sum.now → row_sum (a ++ b) ≡ Ok e) }
{
    if sum.infinite != 0 {
        return Some(Ext::none());
    }
    match product(value, bound) {
        Ok(term) => less_number(sum, &term),
        Err(_) => None,
    }
}

/// The sum without one of its infinite terms.
fn less_infinite(sum: &CommonSum) -> Ext
    requires positive { 0 < sum.now.denominator }
    requires short { sum.now.denominator < 2 ^ 127 }
    ensures { (a b : List (Option Number)) → IsCommonSum (a ++ None ∷ b) sum.now → row_sum (a ++ b) ≡ Ok result }
{
    if sum.infinite == 1 {
        Ext::at(Frac::ratio_of(sum.total, sum.denominator))
    } else {
        Ext::none()
    }
}

/// The activity of which a sum tells where one of a row's entries is left out.
pub fn told_rest(sum: &CommonSum, extreme: Extreme, span: &Span) -> Option<Ext>
    requires positive { 0 < sum.now.denominator }
    requires short { sum.now.denominator < 2 ^ 127 }
    ensures { IfSome result (λ e. (a b : List (Option Number)) → IsCommonSum (a ++ end_at extreme span.now ∷ b) sum.now → row_sum (a ++ b) ≡ Ok e) }
{
    match bound_at(extreme, span).number() {
        None => Some(less_infinite(sum)),
        Some(bound) => less_product(sum, &span.value, &bound),
    }
}
