//! Numbers of fields.

ghost use Rattle.std.specs.Prelude.{◌≡◌};
ghost use Rattle.std.specs.List.{list_any};
ghost use Rattle.number_texts.specs.Form.{is_slash};
ghost use Rattle.mps_profile.specs.Numerals.{number_on};

use fractions::frac::Frac;
use mps_profile::dialect::{Dialect, Format};
use number_texts::{ReadNumber, read};

/// Whether a text has a slash.
fn has_slash(text: &[u8]) -> bool
    ensures { result ≡ list_any is_slash text.now }
{
    text.iter().any(|b| *b == b'/')
}

/// The number that a field means, exactly.
///
/// # Errors
/// [`ReadNumber::NotNumber`] where the text has no form of a number; in the fixed format a number
/// with a slash has none. [`ReadNumber::NumberPast`] where its number is past the range, or not
/// among those that are taken.
pub fn read_number(text: &[u8], dialect: Dialect) -> Result<Frac, ReadNumber>
    ensures { result ≡ number_on dialect text.now }
{
    match dialect.format {
        Format::Free => read(text, dialect.numbers),
        Format::Fixed => {
            if has_slash(text) {
                return Err(ReadNumber::NotNumber);
            }
            read(text, dialect.numbers)
        }
    }
}
