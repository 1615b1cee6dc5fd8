//! Coefficients that are tightened.

use fractions::frac::Frac;
use undo_records::Side;

/// A coefficient of a row with one finite side that is tightened. Times f, which is 1 for an upper side and -1 for a lower one, the row
/// has an upper side.
#[derive(Clone, Copy)]
pub struct Tightening {
    /// The side that is finite.
    pub side: Side,
    /// The coefficient, times f.
    pub coefficient: Frac,
    /// The number of the side, times f.
    pub limit: Frac,
    /// The bound of the column at which the coefficient gives f times the row the most.
    pub bound: Frac,
    /// By how much the coefficient comes closer to 0.
    pub slack: Frac,
}
