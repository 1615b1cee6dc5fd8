//! The numbers of two pairs.

ghost use Rattle.mps_profile.specs.Numerals.{number_on};
ghost use Rattle.mps_tables.specs.Reads.{AreRead};

use fractions::frac::Frac;
use mps_numbers::read_number;
use mps_profile::dialect::Dialect;
use number_texts::ReadNumber;

/// The numbers of two texts: the fault of both where one of them has no form of a number, and else
/// where one is past the range.
pub(crate) fn read_both(
    first: &[u8],
    second: &[u8],
    dialect: Dialect,
) -> Result<(Frac, Frac), ReadNumber>
    ensures { AreRead (number_on dialect first.now) (number_on dialect second.now) result }
{
    match (read_number(first, dialect), read_number(second, dialect)) {
        (Ok(value), Ok(other)) => Ok((value, other)),
        (Err(ReadNumber::NotNumber), _) => Err(ReadNumber::NotNumber),
        (Ok(_), Err(ReadNumber::NotNumber)) => Err(ReadNumber::NotNumber),
        (Err(ReadNumber::NumberPast), Err(ReadNumber::NotNumber)) => Err(ReadNumber::NotNumber),
        (Ok(_), Err(ReadNumber::NumberPast)) => Err(ReadNumber::NumberPast),
        (Err(ReadNumber::NumberPast), Ok(_)) => Err(ReadNumber::NumberPast),
        (Err(ReadNumber::NumberPast), Err(ReadNumber::NumberPast)) => Err(ReadNumber::NumberPast),
    }
}
