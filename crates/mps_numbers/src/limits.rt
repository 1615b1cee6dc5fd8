//! Bounds of fields.

ghost use Rattle.std.specs.Prelude.{◌≡◌};
ghost use Rattle.number_texts.specs.Form.{terms_of};
ghost use Rattle.mps_profile.specs.Numerals.{is_far, is_far_form, is_infinity, infinity, limit_at, limit_on};

use crate::numerals::read_number;
use fractions::frac::Frac;
use fractions::whole::Whole;
use mps_profile::bounds::Limit;
use mps_profile::dialect::Dialect;
use number_texts::form::sign;
use number_texts::{ReadNumber, reaches};

/// Whether a text is a name of infinity, in any case.
fn is_infinity(text: &[u8]) -> bool
    ensures { result ≡ is_infinity text.now }
{
    text.eq_ignore_ascii_case(b"inf") || text.eq_ignore_ascii_case(b"infinity")
}

/// The infinity with a sign.
fn infinity(negative: bool) -> Limit
    ensures { result ≡ infinity negative }
{
    if negative { Limit::Below } else { Limit::Above }
}

/// Whether a number's magnitude is 10^20 or more.
fn is_far(value: &Frac) -> bool
    ensures { result ≡ is_far value.now }
{
    let far = Frac::whole(Whole::natural(100_000_000_000_000_000_000));
    far.le(value) || value.le(&far.neg())
}

/// Whether an unsigned text is a number with a point and an exponent that is 10^20 or more, in
/// range or not.
#[tactic(auto, using(crate::proofs::Far::far_form))]
fn is_far_form(text: &[u8]) -> bool
    ensures { result ≡ is_far_form (terms_of text.now) }
{
    reaches(20, text)
}

/// The bound that a number is.
fn limit_at(value: Frac, negative: bool) -> Limit
    ensures { result ≡ limit_at value negative }
{
    if is_far(&value) {
        infinity(negative)
    } else {
        Limit::At(value)
    }
}

/// The bound that a field of BOUNDS means. A magnitude of 10^20 or more is infinite, also where the
/// number is past the range, and so are `inf` and `infinity` in any case with an optional sign.
///
/// # Errors
/// [`ReadNumber::NotNumber`] where the text has no form of a number and is no name of infinity.
/// [`ReadNumber::NumberPast`] where its number is past the range, or not among those that are taken,
/// and is not infinite. A number with a slash whose parts are past the range is never infinite.
pub fn read_limit(text: &[u8], dialect: Dialect) -> Result<Limit, ReadNumber>
    ensures { result ≡ limit_on dialect text.now }
{
    let (negative, size) = sign(text);
    if is_infinity(size) {
        return Ok(infinity(negative));
    }
    match read_number(text, dialect) {
        Ok(value) => Ok(limit_at(value, negative)),
        Err(ReadNumber::NotNumber) => Err(ReadNumber::NotNumber),
        Err(ReadNumber::NumberPast) => {
            if is_far_form(size) {
                Ok(infinity(negative))
            } else {
                Err(ReadNumber::NumberPast)
            }
        }
    }
}
