//! Tests of numbers and ends that are to be written.

ghost use Rattle.std.specs.Prelude.{◌≡◌, ◌↔◌, IsTrue, Some, IfSome, IfOk, IsOk};
ghost use Rattle.fractions.specs.Order.{◌<ℚ◌};
ghost use Rattle.lp_model.specs.Writable.{IsNear, WritableNumber};
ghost use Rattle.lp_model.specs.Ends.{width, AreNear, IsWritten, WidthFits};

use fractions::ext::Ext;
use fractions::frac::Frac;
use fractions::places::is_decimal;
use fractions::whole::Whole;
use fractions::{Numbers, Past};

/// Whether a number is below another.
fn is_below(number: &Frac, limit: &Frac) -> bool
    ensures { IsTrue result ↔ (number.now <ℚ limit.now) }
{
    number.lt(limit)
}

/// Whether a number's magnitude is below 10^20.
pub fn is_near(number: &Frac) -> bool
    ensures { IsTrue result ↔ IsNear number.now }
{
    let limit = Frac::whole(Whole::natural(100_000_000_000_000_000_000));
    is_below(&limit.neg(), number) && is_below(number, &limit)
}

/// Whether a finite bound's magnitude is below 10^20.
fn is_near_end(end: &Ext) -> bool
    ensures { IsTrue result ↔ IfSome end.now IsNear }
{
    match end.number() {
        None => true,
        Some(number) => is_near(&number),
    }
}

/// Whether a number may be written.
pub fn can_write(numbers: Numbers, number: &Frac) -> bool
    ensures { IsTrue result ↔ WritableNumber numbers number.now }
{
    let _ = number.parts();
    match numbers {
        Numbers::Decimal => is_decimal(number),
        Numbers::Fractions => true,
    }
}

/// Whether an end may be written.
pub fn can_write_end(numbers: Numbers, end: &Ext) -> bool
    ensures { IsTrue result ↔ IfSome end.now (WritableNumber numbers) }
{
    match end.number() {
        None => true,
        Some(number) => can_write(numbers, &number),
    }
}

/// Whether no bound is 10^20 or more in magnitude.
pub fn are_near(lower: &Ext, upper: &Ext) -> bool
    ensures { IsTrue result ↔ AreNear lower.now upper.now }
{
    is_near_end(lower) && is_near_end(upper)
}

/// Whether both ends may be written.
pub fn can_write_both(numbers: Numbers, lower: &Ext, upper: &Ext) -> bool
    ensures { IsTrue result ↔ IsWritten numbers lower.now upper.now }
{
    can_write_end(numbers, lower) && can_write_end(numbers, upper)
}

/// The width between two numbers, if they differ. Past where it is, or where the lower one plus the width is.
fn finite_width(from: &Frac, to: &Frac) -> Result<Ext, Past>
    ensures value { IfOk result (λ w. w ≡ width (Some from.now) (Some to.now)) }
    ensures fits { IsOk result ↔ WidthFits (Some from.now) (Some to.now) }
{
    if from.is_same(to) {
        return Ok(Ext::none());
    }
    let width = to.sub(from)?;
    let _ = from.add(&width)?;
    Ok(Ext::at(width))
}

/// The width between a number and an end, if that is finite and differs.
fn width_up(from: &Frac, upper: &Ext) -> Result<Ext, Past>
    ensures value { IfOk result (λ w. w ≡ width (Some from.now) upper.now) }
    ensures fits { IsOk result ↔ WidthFits (Some from.now) upper.now }
{
    match upper.number() {
        None => Ok(Ext::none()),
        Some(to) => finite_width(from, &to),
    }
}

/// The width between two finite ends that differ.
pub fn width_of(lower: &Ext, upper: &Ext) -> Result<Ext, Past>
    ensures value { IfOk result (λ w. w ≡ width lower.now upper.now) }
    ensures fits { IsOk result ↔ WidthFits lower.now upper.now }
{
    match lower.number() {
        None => Ok(Ext::none()),
        Some(from) => width_up(&from, upper),
    }
}
