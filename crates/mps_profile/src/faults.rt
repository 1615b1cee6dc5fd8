//! What can be wrong with a text.

ghost use Rattle.std.specs.Prelude.{◌≡◌, ◌≤◌};
ghost use Rattle.mps_profile.specs.Faults.{number_of_kind};

/// What is wrong with a text, by ascending number: M1 to M19.
#[derive(Clone, Copy, Debug, PartialEq, Eq)]
pub enum MpsFaultKind {
    /// M1: a byte outside the columns of the fixed format.
    BadColumn,
    /// M2: a card's fields are not those of its section, or OBJSENSE has none of its four words.
    FieldCount,
    /// M3: a section line with an unknown first word.
    UnknownSection,
    /// M4: a section that is known and not taken.
    RefusedSection,
    /// M5: a section out of order or a second time, or a card where none may stand.
    SectionOrder,
    /// M6: no ENDATA.
    NoEnd,
    /// M7: not a number, or an infinity that its place does not take.
    BadNumber,
    /// M8: a number that is past the range, or makes a side that is.
    NumberPast,
    /// M9: no such row.
    UnknownRow,
    /// M10: no such column in BOUNDS.
    UnknownColumn,
    /// M11: a row declared twice.
    DuplicateName,
    /// M12: a column and row, or a row in RHS or RANGES, named twice.
    DuplicateEntry,
    /// M13: a column's cards are not together.
    SplitColumn,
    /// M14: an unknown type of bound.
    BadBoundType,
    /// M15: a marker that is neither INTORG nor INTEND, opens an open run or closes none.
    BadMarker,
    /// M16: COLUMNS without an N row before it.
    NoObjective,
    /// M17: a text that is too long. Never found by the reader, which is handed short texts alone.
    TooLong,
    /// M18: a type of row that is not N, L, G or E.
    BadRowType,
    /// M19: RANGES names an N row.
    RangeOnFree,
}

impl MpsFaultKind {
    /// The number behind the M, from 1 to 19.
    pub fn number(&self) -> u8
        ensures number { result ≡ number_of_kind self.now }
        ensures least { 1 ≤ result }
        ensures most { result ≤ 19 }
    {
        match self {
            MpsFaultKind::BadColumn => 1,
            MpsFaultKind::FieldCount => 2,
            MpsFaultKind::UnknownSection => 3,
            MpsFaultKind::RefusedSection => 4,
            MpsFaultKind::SectionOrder => 5,
            MpsFaultKind::NoEnd => 6,
            MpsFaultKind::BadNumber => 7,
            MpsFaultKind::NumberPast => 8,
            MpsFaultKind::UnknownRow => 9,
            MpsFaultKind::UnknownColumn => 10,
            MpsFaultKind::DuplicateName => 11,
            MpsFaultKind::DuplicateEntry => 12,
            MpsFaultKind::SplitColumn => 13,
            MpsFaultKind::BadBoundType => 14,
            MpsFaultKind::BadMarker => 15,
            MpsFaultKind::NoObjective => 16,
            MpsFaultKind::TooLong => 17,
            MpsFaultKind::BadRowType => 18,
            MpsFaultKind::RangeOnFree => 19,
        }
    }
}
