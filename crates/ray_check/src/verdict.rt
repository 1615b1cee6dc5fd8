//! Verdicts on rays.

use fractions::frac::Frac;

/// What is said of a ray.
#[derive(Clone, Copy, Debug, PartialEq, Eq)]
pub enum RayChecked {
    /// It proves that no point is feasible.
    Yes,
    /// A weight of this row is below 0, or stands at an infinite side. No row before it has one.
    NoRow(u32),
    /// A weight of this column is below 0, or stands at an infinite bound, or the column's sum is not 0. No item before it decides.
    NoColumn(u32),
    /// The total, where it is not above 0. No item before it decides.
    NoTotal(Frac),
    /// The sum of this column has no room in a [`Frac`]. No item before it decides.
    PastColumn(u32),
    /// The total has none. No item before it decides.
    PastTotal,
}
