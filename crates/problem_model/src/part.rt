//! Parts of a problem, and what was read of them.

use lp_model::Terms;
use lp_model::fractions::ext::Ext;
use lp_model::fractions::frac::Frac;

/// A part of a problem, by the original id of its row or column.
#[derive(Clone, Copy, Debug, PartialEq, Eq)]
pub enum Part {
    /// A row's entries in live columns.
    Row(u32),
    /// A row's sides.
    Sides(u32),
    /// A column's entries in live rows, and its cost.
    Col(u32),
    /// A column's bounds, and whether it is whole.
    Bounds(u32),
}

/// What a part holds. Costs are in the minimizing sense.
#[derive(Drop)]
pub enum Contents {
    /// The row or column was deleted.
    Gone,
    /// A row's entries, by column id.
    Entries(Terms),
    /// A row's lower and upper side.
    Sides(Ext, Ext),
    /// A column's entries, by row id, and its cost.
    Column(Terms, Frac),
    /// A column's lower and upper bound, and whether it is whole.
    Bounds(Ext, Ext, bool),
    /// The same of a column that is semi-continuous.
    Semi(Ext, Ext, bool),
}

/// A part as it was read.
#[derive(Drop)]
pub struct Read {
    pub part: Part,
    /// How often it had changed.
    pub changes: u64,
    /// What it held.
    pub contents: Contents,
}
