//! Verdicts on points with duals.

use crate::verdicts::Verdict;
use fractions::ext::Ext;

/// The end of a range that the sign of a multiplier asks for. It may be infinite.
#[derive(Clone, Copy, Debug)]
pub enum End {
    /// The lower side of a row, or the lower bound of a column.
    Lower(Ext),
    /// The upper side of a row, or the upper bound of a column.
    Upper(Ext),
}

/// A multiplier whose sign asks for an end at which the value is not.
#[derive(Clone, Copy, Debug, Drop)]
pub struct Misplaced<T> {
    /// The dual or the reduced cost, in the file's sense.
    pub multiplier: T,
    /// The value of the row or the column.
    pub value: T,
    pub end: End,
}

/// What is said of a point with duals, by numbers of a kind.
#[derive(Clone, Copy, Debug, Drop)]
pub enum PairVerdict<T> {
    /// What is said of the point. Where this is yes, the pair meets the optimality conditions: no feasible point has a better cost.
    /// Where it is of the cost, each dual and each reduced cost passes.
    OnPoint(Verdict<T>),
    /// The dual of this row. No item before it decides.
    Dual { row: u32, found: Misplaced<T> },
    /// The reduced cost of this column. No item before it decides.
    ReducedCost { column: u32, found: Misplaced<T> },
    /// The reduced cost of this column has no room in the kind of numbers. No item before it decides.
    PastReducedCost { column: u32 },
}
