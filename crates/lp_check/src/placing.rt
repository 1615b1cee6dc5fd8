//! Whether a value is at the end that the sign of a multiplier asks for.

ghost use Rattle.std.specs.Prelude.{◌≡◌, ◌↔◌, IfOk, IsTrue, Some, MatchOption};
ghost use Rattle.lp_model.specs.Senses.{Sits};
ghost use Rattle.lp_check.specs.Placing.{AsksLower, AsksUpper, IsAway};
ghost use Rattle.lp_check.specs.DecidingPairs.{IsMisplaced};
ghost use Rattle.lp_check.specs.Numbered.{numbered_found};

use crate::copies::copy_of;
use crate::pair_verdicts::{End, Misplaced};
use exact_numbers::Exact;
use fractions::ext::Ext;
use lp_model::Sense;
use std::alloc::{AllocError, Global};

/// Whether the sign of a multiplier asks for the lower end.
fn asks_lower<T: Exact>(sense: Sense, multiplier: &T) -> bool
    ensures { IsTrue result ↔ AsksLower sense (T.number multiplier.now) }
{
    match sense {
        Sense::Min => multiplier.is_positive(),
        Sense::Max => multiplier.is_negative(),
    }
}

/// Whether the sign of a multiplier asks for the upper end.
fn asks_upper<T: Exact>(sense: Sense, multiplier: &T) -> bool
    ensures { IsTrue result ↔ AsksUpper sense (T.number multiplier.now) }
{
    match sense {
        Sense::Min => multiplier.is_negative(),
        Sense::Max => multiplier.is_positive(),
    }
}

/// Whether a value is at an end.
fn is_at<T: Exact>(end: &Ext, value: &T) -> bool
    ensures { IsTrue result ↔ (end.now ≡ Some (T.number value.now)) }
{
    match end.number() {
        Some(number) => value.is_fraction(&number),
        None => false,
    }
}

/// The end that the sign of a multiplier asks for, where the value is not there.
fn missed_end<T: Exact>(
    sense: Sense,
    multiplier: &T,
    value: &T,
    lower: &Ext,
    upper: &Ext,
) -> Option<End>
    ensures { MatchOption result (Sits sense lower.now upper.now (T.number value.now) (T.number multiplier.now)) (λ end. IsAway sense lower.now upper.now (T.number value.now) (T.number multiplier.now) end) }
{
    if asks_lower(sense, multiplier) && !is_at(lower, value) {
        return Some(End::Lower(*lower));
    }
    if asks_upper(sense, multiplier) && !is_at(upper, value) {
        return Some(End::Upper(*upper));
    }
    None
}

/// A multiplier, the value and the end, where the multiplier's sign asks for an end at which the value is not.
///
/// # Errors
/// [`AllocError`] where there is no memory for the numbers.
pub fn misplaced<T: Exact>(
    alloc: Global,
    sense: Sense,
    multiplier: &T,
    value: &T,
    lower: &Ext,
    upper: &Ext,
) -> Result<Option<Misplaced<T>>, AllocError>
    ensures { IfOk result (λ found. MatchOption found (Sits sense lower.now upper.now (T.number value.now) (T.number multiplier.now))
        (λ found. IsMisplaced sense (T.number multiplier.now) (T.number value.now) lower.now upper.now (numbered_found T.number found))) }
{
    let Some(end) = missed_end(sense, multiplier, value, lower, upper) else {
        return Ok(None);
    };
    Ok(Some(Misplaced {
        multiplier: copy_of(alloc, multiplier)?,
        value: copy_of(alloc, value)?,
        end,
    }))
}
