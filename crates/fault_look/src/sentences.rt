//! What to know about a fault.

use mps_profile::faults::MpsFaultKind;

/// A sentence for each kind of fault.
pub fn sentence_of(kind: MpsFaultKind) -> &'static str {
    match kind {
        MpsFaultKind::BadColumn => {
            "In the fixed format a byte stands outside the columns of the fields. Without --fixed the fields are split at blanks."
        }
        MpsFaultKind::FieldCount => "The number of fields is not that of a card of this section.",
        MpsFaultKind::UnknownSection => "There is no section of this name. Is this an MPS text?",
        MpsFaultKind::RefusedSection => "This section is known, and not taken here.",
        MpsFaultKind::SectionOrder => {
            "This section is out of order or stands twice, or no card may stand here."
        }
        MpsFaultKind::NoEnd => "The text ends without ENDATA. Was it cut off?",
        MpsFaultKind::BadNumber => {
            "This is no number. An infinity stands only where a bound may be infinite, and n/d only with --fractions."
        }
        MpsFaultKind::NumberPast => {
            "This number is past what is exact here, or is no decimal number. --fractions takes n/d too."
        }
        MpsFaultKind::UnknownRow => "ROWS has no row of this name.",
        MpsFaultKind::UnknownColumn => "COLUMNS has no column of this name.",
        MpsFaultKind::DuplicateName => "A row of this name is there already.",
        MpsFaultKind::DuplicateEntry => "This was named before, and an entry is named once.",
        MpsFaultKind::SplitColumn =>
            "The cards of a column stand together, and this column's began before.",
        MpsFaultKind::BadBoundType => {
            "There is no such type of bound: it is UP, LO, FX, FR, MI, PL, BV, LI or UI."
        }
        MpsFaultKind::BadMarker => "A marker is 'INTORG' or 'INTEND', in turn.",
        MpsFaultKind::NoObjective => "ROWS has no row of type N, which would be the objective.",
        MpsFaultKind::TooLong => "The text is longer than is read.",
        MpsFaultKind::BadRowType => "There is no such type of row: it is N, L, G or E.",
        MpsFaultKind::RangeOnFree => "This row has the type N, and such a row has no sides.",
    }
}
