//! What the rules of costs see of the ends of a row or a column.

/// Which ends a row or a column has, and how they lie: all that K10, K11 and V3 ask of them. No number is kept, so most changes of ends leave
/// it as it is.
#[derive(Clone, Copy, Debug, PartialEq, Eq)]
pub enum Form {
    /// The part has no ends, or its row or column is gone.
    NoEnds,
    /// Sides: which are infinite, and whether they are in order.
    Sides {
        no_lower: bool,
        no_upper: bool,
        in_order: bool,
    },
    /// Bounds: which are infinite, whether they are in order and differ, at which the column can be fixed (finite, and whole if the column
    /// is), and whether the column is whole.
    Bounds {
        no_lower: bool,
        no_upper: bool,
        in_order: bool,
        apart: bool,
        lower_holds: bool,
        upper_holds: bool,
        whole: bool,
    },
}
