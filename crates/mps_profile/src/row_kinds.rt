//! Types of rows.

ghost use Rattle.std.specs.Prelude.{◌≡◌};
ghost use Rattle.std.specs.Option.{ok_or};
ghost use Rattle.mps_profile.specs.Words.{kind_named};
ghost use Rattle.mps_profile.specs.declared.faults.MpsFaultKind.TheVariants.{BadRowType};

use crate::faults::MpsFaultKind;
use fractions::frac::Frac;

/// The type of a row.
#[derive(Clone, Copy, PartialEq, Eq)]
pub enum RowKind {
    Free,
    AtMost,
    AtLeast,
    Equal,
}

/// The type that a word names.
pub fn row_kind(word: &[u8]) -> Result<RowKind, MpsFaultKind>
    ensures { result ≡ ok_or (kind_named word.now) BadRowType }
{
    if word == b"N".as_slice() {
        Ok(RowKind::Free)
    } else if word == b"L".as_slice() {
        Ok(RowKind::AtMost)
    } else if word == b"G".as_slice() {
        Ok(RowKind::AtLeast)
    } else if word == b"E".as_slice() {
        Ok(RowKind::Equal)
    } else {
        Err(MpsFaultKind::BadRowType)
    }
}

/// The two sides of a row with a range.
#[derive(Clone, Copy)]
pub struct Interval {
    pub lower: Frac,
    pub upper: Frac,
}
