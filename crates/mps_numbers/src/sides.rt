//! The sides of rows and the bounds of columns.

ghost use Rattle.std.specs.Prelude.{◌≡◌};
ghost use Rattle.number_texts.specs.Read.{is_taken};
ghost use Rattle.mps_profile.specs.Sides.{magnitude, sides_of, default_lower};
ghost use Rattle.mps_numbers.specs.Ranges.{sum_in, raised, lowered, range_in};

use fractions::ext::Ext;
use fractions::frac::Frac;
use fractions::places::is_decimal;
use fractions::{Numbers, Past};
use mps_profile::row_kinds::{Interval, RowKind};

/// The magnitude.
fn magnitude(range: &Frac) -> Frac
    ensures { result ≡ magnitude range.now }
{
    if range.is_negative() {
        range.neg()
    } else {
        *range
    }
}

/// Whether a number is among those that are taken.
fn is_taken(numbers: Numbers, number: &Frac) -> bool
    ensures { result ≡ is_taken numbers number.now }
{
    match numbers {
        Numbers::Decimal => is_decimal(number),
        Numbers::Fractions => true,
    }
}

/// The sum of two numbers, where it has room and is among those that are taken.
fn sum_in(numbers: Numbers, left: &Frac, right: &Frac) -> Result<Frac, Past>
    ensures { result ≡ sum_in numbers left.now right.now }
{
    let sum = left.add(right)?;
    if is_taken(numbers, &sum) {
        Ok(sum)
    } else {
        Err(Past)
    }
}

/// Between a right side and that much more.
fn raised(numbers: Numbers, side: &Frac, size: &Frac) -> Result<Option<Interval>, Past>
    ensures { result ≡ raised numbers side.now size.now }
{
    let upper = sum_in(numbers, side, size)?;
    Ok(Some(Interval {
        lower: *side,
        upper,
    }))
}

/// Between a right side and that much less.
fn lowered(numbers: Numbers, side: &Frac, size: &Frac) -> Result<Option<Interval>, Past>
    ensures { result ≡ lowered numbers side.now size.now }
{
    let lower = sum_in(numbers, side, &size.neg())?;
    Ok(Some(Interval {
        lower,
        upper: *side,
    }))
}

/// The two sides that a range gives a row with a right side: between the right side and the range's
/// magnitude less for an L row, or more for a G row; for an E row less where the range is negative,
/// else more. An N row takes none.
///
/// # Errors
/// [`Past`] exactly where the side that the range makes has no room, or is not among the numbers
/// that are taken.
pub fn ranged(
    kind: RowKind,
    side: &Frac,
    range: &Frac,
    numbers: Numbers,
) -> Result<Option<Interval>, Past>
    ensures { result ≡ range_in numbers kind side.now range.now }
{
    let size = magnitude(range);
    match kind {
        RowKind::Free => Ok(None),
        RowKind::AtMost => lowered(numbers, side, &size),
        RowKind::AtLeast => raised(numbers, side, &size),
        RowKind::Equal => {
            if range.is_negative() {
                lowered(numbers, side, &size)
            } else {
                raised(numbers, side, &size)
            }
        }
    }
}

/// The lower and the upper side of a row with a right side and perhaps the sides of its range: none
/// for an N row. A side that is infinite is [`Ext::none`].
pub fn sides(kind: RowKind, side: Frac, range: Option<Interval>) -> Option<(Ext, Ext)>
    ensures { result ≡ sides_of kind side range }
{
    let end = Ext::at(side);
    match (kind, range) {
        (RowKind::Free, _) => None,
        (_, Some(range)) => Some((Ext::at(range.lower), Ext::at(range.upper))),
        (RowKind::AtMost, None) => Some((Ext::none(), end)),
        (RowKind::AtLeast, None) => Some((end, Ext::none())),
        (RowKind::Equal, None) => Some((end, end)),
    }
}

/// The lower bound of a column that no card sets, by its upper bound: 0, but -inf under a negative
/// upper bound.
pub fn default_lower(upper: Ext) -> Ext
    ensures { result ≡ default_lower upper }
{
    match upper.number() {
        Some(upper) if upper.is_negative() => Ext::none(),
        _ => Ext::at(Frac::zero()),
    }
}
