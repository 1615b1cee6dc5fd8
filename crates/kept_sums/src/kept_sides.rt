//! Whether a row keeps a side with one of its columns at its other end, by one comparison over the denominator of its sum.

ghost use Rattle.std.specs.Prelude.{◌≡◌, ◌<◌, ◌^◌, ◌++◌, ◌∷◌, ◌*ℤ◌, pos, List, Option, None, Ok, IfSome, IsTrue};
ghost use Rattle.std.specs.Ordering.{int_cmp};
ghost use Rattle.fractions.specs.Number.{Number, ◌*ℚ◌};
ghost use Rattle.fractions.specs.Compare.{le_ℚ};
ghost use Rattle.fractions.specs.Lowest.{ratio};
ghost use Rattle.row_spans.specs.RowSums.{row_sum};
ghost use Rattle.row_spans.specs.Spans.{end_at};
ghost use Rattle.row_spans.specs.declared.span.Span.{Span as SpanValue};
ghost use Rattle.row_spans.specs.declared.span.Extreme.{Extreme as ExtremeValue};
ghost use Rattle.row_spans.specs.declared.span.Extreme.TheVariants as extreme_of;
ghost use Rattle.kept_sums.specs.CommonSums.{IsCommonSum};
ghost use Rattle.kept_sums.specs.KeptSides.{EndIs, EndKept, IsNumerator, IsQuiet, IsTurned, Keeps, opposite as opposite_of};

use crate::common::{CommonSum, told_rest};
use fractions::divisor::quotient;
use fractions::ext::Ext;
use fractions::frac::Frac;
use fractions::parts::Parts;
use fractions::whole::Whole;
use row_spans::exact::product;
use row_spans::{Extreme, Span, bound_at};
use std::cmp::Ordering;

/// The product of two numerators, if it has room.
fn times_numerator(first: Whole, second: Whole) -> Option<Whole>
    ensures { IfSome result (λ z. z ≡ first *ℤ second) }
{
    match first.times(second) {
        Ok(numerator) => Some(numerator),
        Err(_) => None,
    }
}

/// The numerator of a product over a denominator, if the product of both denominators divides it and the numbers have room.
fn plain_numerator(denominator: u128, value: &Frac, bound: &Frac) -> Option<Whole>
    requires positive { 0 < denominator }
    requires short { denominator < 2 ^ 127 }
    ensures { IfSome result (λ z. IsNumerator denominator (value.now *ℚ bound.now) z) }
{
    let first = value.parts();
    let second = bound.parts();
    if first.den == denominator && second.den == 1 {
        return times_numerator(first.num, second.num);
    }
    let both = first.den.checked_mul(second.den)?;
    let part = quotient(denominator, both);
    if part.checked_mul(both)? != denominator {
        return None;
    }
    let Ok(numerator) = first.num.times(second.num) else {
        return None;
    };
    match numerator.scaled(part) {
        Ok(scaled) => Some(scaled),
        Err(_) => None,
    }
}

/// The same by the product in lowest terms, if its denominator divides the one that is given.
fn lowest_numerator(denominator: u128, value: &Frac, bound: &Frac) -> Option<Whole>
    requires positive { 0 < denominator }
    requires short { denominator < 2 ^ 127 }
    ensures { IfSome result (λ z. IsNumerator denominator (value.now *ℚ bound.now) z) }
{
    let Ok(term) = product(value, bound) else {
        return None;
    };
    let parts = term.parts();
    let part = quotient(denominator, parts.den);
    if part.checked_mul(parts.den)? != denominator {
        return None;
    }
    match parts.num.scaled(part) {
        Ok(scaled) => Some(scaled),
        Err(_) => None,
    }
}

/// The numerator of a product over a denominator, if it can be written over it and has room.
fn numerator_at(denominator: u128, value: &Frac, bound: &Frac) -> Option<Whole>
    requires positive { 0 < denominator }
    requires short { denominator < 2 ^ 127 }
    ensures { IfSome result (λ z. IsNumerator denominator (value.now *ℚ bound.now) z) }
{
    match plain_numerator(denominator, value, bound) {
        Some(scaled) => Some(scaled),
        None => lowest_numerator(denominator, value, bound),
    }
}

/// The other one.
fn opposite(extreme: Extreme) -> Extreme
    ensures { result ≡ opposite_of extreme }
{
    match extreme {
        Extreme::Least => Extreme::Greatest,
        Extreme::Greatest => Extreme::Least,
    }
}

/// What an entry gives its row, over a denominator, if it is finite, can be written over it and has room.
fn end_over(denominator: u128, extreme: Extreme, span: &Span) -> Option<Whole>
    requires positive { 0 < denominator }
    requires short { denominator < 2 ^ 127 }
    ensures { IfSome result (λ z. EndIs denominator (end_at extreme span.now) z) }
{
    let bound = bound_at(extreme, span).number()?;
    numerator_at(denominator, &span.value, &bound)
}

/// The numerator of a sum with one of its entries, which has these numerators, at its other end, if all its terms are finite and the number
/// has room.
fn turned_by(sum: &CommonSum, own: Whole, other: Whole) -> Option<Whole>
    requires positive { 0 < sum.now.denominator }
    requires short { sum.now.denominator < 2 ^ 127 }
    ensures { IfSome result (λ z. (x : ExtremeValue) (s : SpanValue) (a b : List (Option Number)) → EndIs sum.now.denominator (end_at x s) own → EndIs sum.now.denominator (end_at (opposite_of x) s) other → IsCommonSum (a ++ end_at x s ∷ b) sum.now → IsTurned x s (ratio z sum.now.denominator) (row_sum (a ++ b))) }
{
    if sum.infinite != 0 {
        return None;
    }
    let Ok(rest) = sum.total.plus(own.negated()) else {
        return None;
    };
    match rest.plus(other) {
        Ok(numerator) => Some(numerator),
        Err(_) => None,
    }
}

/// How a number compares with another one, by cross multiplication; none where a product has no room.
fn order_within(a: &Parts, b: &Parts) -> Option<Ordering>
    requires left { a.now.den < 2 ^ 127 }
    requires right { b.now.den < 2 ^ 127 }
    ensures { IfSome result (λ order. order ≡ int_cmp (a.now.num *ℤ pos b.now.den) (b.now.num *ℤ pos a.now.den)) }
{
    let Ok(left) = a.num.scaled(b.den) else {
        return None;
    };
    let Ok(right) = b.num.scaled(a.den) else {
        return None;
    };
    Some(left.compare(right))
}

/// Whether a number is at most another one, by their numerators and denominators.
fn is_at_most(a: Parts, b: Parts) -> bool
    requires left { 0 < a.den }
    requires left_short { a.den < 2 ^ 127 }
    requires right { 0 < b.den }
    requires right_short { b.den < 2 ^ 127 }
    ensures { result ≡ le_ℚ (ratio a.num a.den) (ratio b.num b.den) }
{
    match order_within(&a, &b) {
        Some(order) => order.is_le(),
        None => Frac::ratio_of(a.num, a.den).le(&Frac::ratio_of(b.num, b.den)),
    }
}

/// Whether a number keeps a side.
fn is_kept(extreme: Extreme, side: &Frac, number: Parts) -> bool
    requires positive { 0 < number.den }
    requires short { number.den < 2 ^ 127 }
    ensures { IsTrue result → Keeps extreme side.now (ratio number.num number.den) }
{
    match extreme {
        Extreme::Least => is_at_most(number, side.parts()),
        Extreme::Greatest => is_at_most(side.parts(), number),
    }
}

/// Whether a side, if it is finite, is kept by a sum with one of its entries, which has these numerators, at its other end: `false` where a
/// number has no room.
fn keeps_end(sum: &CommonSum, extreme: Extreme, own: Whole, other: Whole, side: &Ext) -> bool
    requires positive { 0 < sum.now.denominator }
    requires short { sum.now.denominator < 2 ^ 127 }
    ensures { (s : SpanValue) (a b : List (Option Number)) → EndIs sum.now.denominator (end_at extreme s) own → EndIs sum.now.denominator (end_at (opposite_of extreme) s) other → IsCommonSum (a ++ end_at extreme s ∷ b) sum.now → IsTrue result → EndKept extreme side.now s (row_sum (a ++ b)) }
{
    let Some(number) = side.number() else {
        return true;
    };
    match turned_by(sum, own, other) {
        None => false,
        Some(num) => is_kept(
            extreme,
            &number,
            Parts {
                num,
                den: sum.denominator,
            },
        ),
    }
}

/// What an entry gives its row at either end, over a denominator.
#[derive(Clone, Copy)]
struct Ends {
    least: Whole,
    greatest: Whole,
}

/// Both ends of an entry over a denominator, if they are finite, can be written over it and have room.
fn ends_over(denominator: u128, span: &Span) -> Option<Ends>
    requires positive { 0 < denominator }
    requires short { denominator < 2 ^ 127 }
    ensures least { IfSome result (λ e. EndIs denominator (end_at extreme_of.Least span.now) e.least) }
    ensures greatest { IfSome result (λ e. EndIs denominator (end_at extreme_of.Greatest span.now) e.greatest) }
{
    Some(Ends {
        least: end_over(denominator, Extreme::Least, span)?,
        greatest: end_over(denominator, Extreme::Greatest, span)?,
    })
}

/// Whether the other terms of a sum than an entry's are not all finite.
fn is_rest_infinite(sum: &CommonSum, extreme: Extreme, span: &Span) -> bool
    requires positive { 0 < sum.now.denominator }
    requires short { sum.now.denominator < 2 ^ 127 }
    ensures { (a b : List (Option Number)) → IsCommonSum (a ++ end_at extreme span.now ∷ b) sum.now → IsTrue result → row_sum (a ++ b) ≡ Ok None }
{
    match told_rest(sum, extreme, span) {
        Some(rest) => rest.is_none(),
        None => false,
    }
}

/// Whether a side is kept by a sum with one of its entries, which has these ends, at its other end: `false` where they are not told.
fn is_kept_by(sum: &CommonSum, extreme: Extreme, ends: &Option<Ends>, side: &Ext) -> bool
    requires positive { 0 < sum.now.denominator }
    requires short { sum.now.denominator < 2 ^ 127 }
    ensures { (s : SpanValue) (a b : List (Option Number)) → IfSome ends.now (λ e. EndIs sum.now.denominator (end_at extreme_of.Least s) e.least) → IfSome ends.now (λ e. EndIs sum.now.denominator (end_at extreme_of.Greatest s) e.greatest) → IsCommonSum (a ++ end_at extreme s ∷ b) sum.now → IsTrue result → EndKept extreme side.now s (row_sum (a ++ b)) }
{
    let Some(ends) = ends else {
        return false;
    };
    match extreme {
        Extreme::Least => keeps_end(sum, extreme, ends.least, ends.greatest, side),
        Extreme::Greatest => keeps_end(sum, extreme, ends.greatest, ends.least, side),
    }
}

/// Whether a side tells of no better bound of an entry's column: it is infinite, or kept with the entry at its other end, or another term of
/// the sum is infinite. `false` where that is not told.
fn is_quiet(sum: &CommonSum, extreme: Extreme, span: &Span, ends: &Option<Ends>, side: &Ext) -> bool
    requires positive { 0 < sum.now.denominator }
    requires short { sum.now.denominator < 2 ^ 127 }
    requires least { IfSome ends.now (λ e. EndIs sum.now.denominator (end_at extreme_of.Least span.now) e.least) }
    requires greatest { IfSome ends.now (λ e. EndIs sum.now.denominator (end_at extreme_of.Greatest span.now) e.greatest) }
    ensures { (a b : List (Option Number)) → IsCommonSum (a ++ end_at extreme span.now ∷ b) sum.now → IsTrue result → IsQuiet extreme side.now span.now (row_sum (a ++ b)) }
{
    if side.is_none() {
        return true;
    }
    if sum.infinite == 0 {
        return is_kept_by(sum, extreme, ends, side);
    }
    is_rest_infinite(sum, extreme, span)
}

/// Which sides of a row tell of no better bound of a column.
#[derive(Clone, Copy)]
pub struct QuietSides {
    pub lower: bool,
    pub upper: bool,
}

/// Which sides of a row tell of no better bound of an entry's column, by its sums: none where these are over two denominators, and where a
/// number has no room. What the entry gives at either end is looked for once.
pub fn quiet_sides(
    least: &CommonSum,
    greatest: &CommonSum,
    span: &Span,
    lower: &Ext,
    upper: &Ext,
) -> QuietSides
    requires least_positive { 0 < least.now.denominator }
    requires least_short { least.now.denominator < 2 ^ 127 }
    requires greatest_positive { 0 < greatest.now.denominator }
    requires greatest_short { greatest.now.denominator < 2 ^ 127 }
    ensures lower { (a b : List (Option Number)) → IsCommonSum (a ++ end_at extreme_of.Greatest span.now ∷ b) greatest.now → IsTrue result.lower → IsQuiet extreme_of.Greatest lower.now span.now (row_sum (a ++ b)) }
    ensures upper { (a b : List (Option Number)) → IsCommonSum (a ++ end_at extreme_of.Least span.now ∷ b) least.now → IsTrue result.upper → IsQuiet extreme_of.Least upper.now span.now (row_sum (a ++ b)) }
{
    if least.denominator != greatest.denominator {
        return QuietSides {
            lower: false,
            upper: false,
        };
    }
    let ends = ends_over(least.denominator, span);
    QuietSides {
        lower: is_quiet(greatest, Extreme::Greatest, span, &ends, lower),
        upper: is_quiet(least, Extreme::Least, span, &ends, upper),
    }
}
