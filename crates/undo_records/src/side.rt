//! Sides of ranges, and what became of a row.

/// A side of a row, or a bound of a column.
#[derive(Clone, Copy, Debug, PartialEq, Eq)]
pub enum Side {
    /// The lower one.
    Lower,
    /// The upper one.
    Upper,
}

/// What became of the row of a slack column.
#[derive(Clone, Copy, Debug, PartialEq, Eq)]
pub enum RowFate {
    /// It was kept: a side of it stayed finite.
    Kept,
    /// It was deleted: both its sides had become infinite.
    Dropped,
}
