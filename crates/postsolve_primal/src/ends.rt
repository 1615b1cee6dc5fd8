//! Ends of ranges, and the number of a range that is nearest to 0.

ghost use Rattle.std.specs.Prelude.{◌≡◌, ◌≢◌, IfOk, IfErr, IsOk, Option, Some, None, option_map};
ghost use Rattle.fractions.specs.Number.{zero_ℚ};
ghost use Rattle.fractions.specs.Ends.{less, minus_ends, over, meet_low, meet_high};
ghost use Rattle.undo_records.specs.Near.{near as near_of, zero_or_below as zero_or_below_of, low_over, high_over, near_within as near_within_of};
ghost use Rattle.undo_records.specs.Fitting.{EndLessFits, LessEndFits, EndOverFits, SlackFits, ShareFits};

use exact_numbers::Exact;
use fractions::ext::Ext;
use fractions::frac::Frac;
use std::alloc::Global;
use std::marker::Model;

/// A lower and an upper end of a record.
#[derive(Clone, Copy)]
pub struct Range {
    pub lower: Ext,
    pub upper: Ext,
}

impl Range {
    /// The range between two ends.
    pub fn between(lower: &Ext, upper: &Ext) -> Range
        ensures { result ≡ record { lower = lower.now; upper = upper.now } }
    {
        Range {
            lower: *lower,
            upper: *upper,
        }
    }
}

/// An end that is computed: a number of a kind, or none.
#[derive(Drop)]
struct End<T: Exact> {
    number: Option<T>,
}

impl<T: Exact> Model for End<T> {
    ghost use Rattle.std.specs.Prelude.{Option, option_map};
    ghost use Rattle.std.specs.Coded.{codes};
    ghost use Rattle.fractions.specs.Lowest.{number_code};
    ghost use Rattle.fractions.specs.Number.{Number};

    ghost Value = { Option Number };

    ghost coded = { Prim.hlevel (codes, number_code) };

    ghost view = { λ end. option_map T.number end.number };
}

impl<T: Exact> End<T> {
    /// No end.
    fn none() -> End<T>
        ensures { result ≡ None }
    {
        End { number: None }
    }

    /// An end at a number.
    fn at(number: T) -> End<T>
        ensures { result ≡ Some (T.number number) }
    {
        End {
            number: Some(number),
        }
    }
}

/// A lower and an upper end that are computed.
#[derive(Drop)]
struct Ends<T: Exact> {
    lower: End<T>,
    upper: End<T>,
}

/// An end less a number. No end stays none.
fn end_less<T: Exact>(alloc: Global, end: &Ext, number: &T) -> Result<End<T>, T::Refusal>
    ensures value { IfOk result (λ r. r ≡ less end.now (T.number number.now)) }
    ensures fits { IsOk result → EndLessFits T.room end.now (T.number number.now) }
    ensures past { IfErr result (λ why. T.is_past why → EndLessFits T.room end.now (T.number number.now) → ⊥) }
{
    match end.number() {
        None => Ok(End::none()),
        Some(before) => Ok(End::at(T::of(&before).minus(alloc, number)?)),
    }
}

/// A number less an end. No end stays none.
fn less_end<T: Exact>(alloc: Global, number: &T, end: &Ext) -> Result<End<T>, T::Refusal>
    ensures value { IfOk result (λ r. r ≡ minus_ends (Some (T.number number.now)) end.now) }
    ensures fits { IsOk result → LessEndFits T.room (T.number number.now) end.now }
    ensures past { IfErr result (λ why. T.is_past why → LessEndFits T.room (T.number number.now) end.now → ⊥) }
{
    match end.number() {
        None => Ok(End::none()),
        Some(taken) => Ok(End::at(number.minus(alloc, &T::of(&taken))?)),
    }
}

/// An end over a number. No end stays none.
fn end_over<T: Exact>(alloc: Global, end: &End<T>, divisor: &Frac) -> Result<End<T>, T::Refusal>
    requires { divisor.now ≢ zero_ℚ }
    ensures value { IfOk result (λ r. r ≡ over end.now divisor.now) }
    ensures fits { IsOk result → EndOverFits T.room end.now divisor.now }
    ensures past { IfErr result (λ why. T.is_past why → EndOverFits T.room end.now divisor.now → ⊥) }
{
    match &end.number {
        None => Ok(End::none()),
        Some(number) => Ok(End::at(number.over(alloc, divisor)?)),
    }
}

/// Both ends over a number, changed over where it is below 0.
fn ends_over<T: Exact>(alloc: Global, divisor: &Frac, ends: &Ends<T>) -> Result<Ends<T>, T::Refusal>
    requires { divisor.now ≢ zero_ℚ }
    ensures lower { IfOk result (λ r. r.lower ≡ low_over divisor.now ends.now.lower ends.now.upper) }
    ensures upper { IfOk result (λ r. r.upper ≡ high_over divisor.now ends.now.lower ends.now.upper) }
    ensures fits { IsOk result → (EndOverFits T.room ends.now.lower divisor.now × EndOverFits T.room ends.now.upper divisor.now) }
    ensures past { IfErr result (λ why. T.is_past why → (EndOverFits T.room ends.now.lower divisor.now × EndOverFits T.room ends.now.upper divisor.now) → ⊥) }
{
    let low = end_over(alloc, &ends.lower, divisor)?;
    let high = end_over(alloc, &ends.upper, divisor)?;
    if divisor.is_positive() {
        Ok(Ends {
            lower: low,
            upper: high,
        })
    } else {
        Ok(Ends {
            lower: high,
            upper: low,
        })
    }
}

/// The greater of two lower ends.
fn greater_lower<T: Exact>(bound: &Ext, end: End<T>) -> End<T>
    ensures { result ≡ meet_low bound.now end }
{
    let Some(low) = bound.number() else {
        return end;
    };
    let low = T::of(&low);
    match end.number {
        None => End::at(low),
        Some(number) => {
            if low.is_at_most(&number) {
                End::at(number)
            } else {
                End::at(low)
            }
        }
    }
}

/// The less of two upper ends.
fn lesser_upper<T: Exact>(bound: &Ext, end: End<T>) -> End<T>
    ensures { result ≡ meet_high bound.now end }
{
    let Some(high) = bound.number() else {
        return end;
    };
    let high = T::of(&high);
    match end.number {
        None => End::at(high),
        Some(number) => {
            if high.is_at_most(&number) {
                End::at(high)
            } else {
                End::at(number)
            }
        }
    }
}

/// An upper end below 0, else 0.
fn zero_or_below<T: Exact>(upper: End<T>) -> T
    ensures { T.number result ≡ zero_or_below_of upper }
{
    match upper.number {
        None => T::zero(),
        Some(high) => { if high.is_negative() { high } else { T::zero() } }
    }
}

/// The number between two ends that is nearest to 0.
fn near<T: Exact>(lower: End<T>, upper: End<T>) -> T
    ensures { T.number result ≡ near_of lower upper }
{
    match lower.number {
        None => zero_or_below(upper),
        Some(low) => {
            if low.is_positive() {
                low
            } else {
                zero_or_below(upper)
            }
        }
    }
}

/// The number nearest to 0 within the bounds whose product with the factor is between the ends.
///
/// # Errors
/// Where an end over the factor has no room, or there is no memory for it.
fn near_within<T: Exact>(
    alloc: Global,
    factor: &Frac,
    ends: &Ends<T>,
    bounds: Range,
) -> Result<T, T::Refusal>
    requires { factor.now ≢ zero_ℚ }
    ensures value { IfOk result (λ r. T.number r ≡ near_within_of factor.now ends.now.lower ends.now.upper bounds.lower bounds.upper) }
    ensures fits { IsOk result → (EndOverFits T.room ends.now.lower factor.now × EndOverFits T.room ends.now.upper factor.now) }
    ensures past { IfErr result (λ why. T.is_past why → (EndOverFits T.room ends.now.lower factor.now × EndOverFits T.room ends.now.upper factor.now) → ⊥) }
{
    let quotients = ends_over(alloc, factor, ends)?;
    let lower = greater_lower(&bounds.lower, quotients.lower);
    let upper = lesser_upper(&bounds.upper, quotients.upper);
    Ok(near(lower, upper))
}

/// Both sides less a number.
fn sides_less<T: Exact>(alloc: Global, sides: Range, rest: &T) -> Result<Ends<T>, T::Refusal>
    ensures lower { IfOk result (λ r. r.lower ≡ less sides.lower (T.number rest.now)) }
    ensures upper { IfOk result (λ r. r.upper ≡ less sides.upper (T.number rest.now)) }
    ensures fits { IsOk result → (EndLessFits T.room sides.lower (T.number rest.now) × EndLessFits T.room sides.upper (T.number rest.now)) }
    ensures past { IfErr result (λ why. T.is_past why → (EndLessFits T.room sides.lower (T.number rest.now) × EndLessFits T.room sides.upper (T.number rest.now)) → ⊥) }
{
    let lower = end_less(alloc, &sides.lower, rest)?;
    let upper = end_less(alloc, &sides.upper, rest)?;
    Ok(Ends { lower, upper })
}

/// What bounds leave of a number: from it less the upper one to it less the lower one.
fn left_by<T: Exact>(alloc: Global, number: &T, bounds: Range) -> Result<Ends<T>, T::Refusal>
    ensures lower { IfOk result (λ r. r.lower ≡ minus_ends (Some (T.number number.now)) bounds.upper) }
    ensures upper { IfOk result (λ r. r.upper ≡ minus_ends (Some (T.number number.now)) bounds.lower) }
    ensures fits { IsOk result → (LessEndFits T.room (T.number number.now) bounds.upper × LessEndFits T.room (T.number number.now) bounds.lower) }
    ensures past { IfErr result (λ why. T.is_past why → (LessEndFits T.room (T.number number.now) bounds.upper × LessEndFits T.room (T.number number.now) bounds.lower) → ⊥) }
{
    let lower = less_end(alloc, number, &bounds.upper)?;
    let upper = less_end(alloc, number, &bounds.lower)?;
    Ok(Ends { lower, upper })
}

/// The number nearest to 0 within a slack column's bounds with which its row, the rest of which is given, is within its sides.
///
/// # Errors
/// Where a side less the rest, or that over the entry, has no room, or there is no memory for it.
pub fn slack<T: Exact>(
    alloc: Global,
    entry: &Frac,
    sides: Range,
    rest: &T,
    bounds: Range,
) -> Result<T, T::Refusal>
    requires { entry.now ≢ zero_ℚ }
    ensures value { IfOk result (λ r. T.number r ≡ near_within_of entry.now (less sides.lower (T.number rest.now)) (less sides.upper (T.number rest.now)) bounds.lower bounds.upper) }
    ensures fits { IsOk result → SlackFits T.room entry.now sides.lower sides.upper (T.number rest.now) }
    ensures past { IfErr result (λ why. T.is_past why → SlackFits T.room entry.now sides.lower sides.upper (T.number rest.now) → ⊥) }
{
    let ends = sides_less(alloc, sides, rest)?;
    near_within(alloc, entry, &ends, bounds)
}

/// The number nearest to 0 within the bounds of a column merged into another, with which the other one is within its own bounds.
///
/// # Errors
/// Where the merged number less a bound of the other column, or that over the factor, has no room, or there is no memory for it.
pub fn share<T: Exact>(
    alloc: Global,
    factor: &Frac,
    merged: &T,
    kept_bounds: Range,
    bounds: Range,
) -> Result<T, T::Refusal>
    requires { factor.now ≢ zero_ℚ }
    ensures value { IfOk result (λ r. T.number r ≡ near_within_of factor.now (minus_ends (Some (T.number merged.now)) kept_bounds.upper) (minus_ends (Some (T.number merged.now)) kept_bounds.lower) bounds.lower bounds.upper) }
    ensures fits { IsOk result → ShareFits T.room factor.now kept_bounds.lower kept_bounds.upper (T.number merged.now) }
    ensures past { IfErr result (λ why. T.is_past why → ShareFits T.room factor.now kept_bounds.lower kept_bounds.upper (T.number merged.now) → ⊥) }
{
    let ends = left_by(alloc, merged, kept_bounds)?;
    near_within(alloc, factor, &ends, bounds)
}
