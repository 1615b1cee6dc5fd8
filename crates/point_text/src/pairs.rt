//! Points with duals, in exact numbers of a kind.

use exact_numbers::{Exact, Numbers};

/// A point, with duals where they are known, in exact numbers of a kind: a number for each column, by id, and a multiplier for each row, by
/// id.
#[derive(Drop)]
pub struct PairOf<T: Exact> {
    /// The value of each column.
    pub point: Numbers<T>,
    /// The dual of each row, in the units of the costs over the row's.
    pub duals: Option<Numbers<T>>,
}
