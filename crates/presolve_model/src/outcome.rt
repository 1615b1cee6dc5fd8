//! What became of a proposal that is committed to a book.

use crate::instance::Verdict;

/// What became of a proposal.
#[derive(Clone, Copy, Debug, PartialEq, Eq)]
pub enum Outcome {
    /// A verdict stands, and nothing is applied after it.
    Closed { verdict: Verdict },
    /// So many reductions were applied as are allowed, and the proposal is no verdict.
    Full,
    /// A part no longer stands as it was read: the first such part of the reading, by its place from 0 on.
    Stale { place: usize },
    /// A number of the change is past the range.
    Past,
    /// A number of the change is no decimal number, and fractions are not allowed.
    NotDecimal,
    /// It was applied, and stands at this place of the history, from 1 on.
    Applied { place: usize },
    /// Memory ran out.
    NoMemory,
}
