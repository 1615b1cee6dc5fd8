//! Edits.

use lp_model::fractions::ext::Ext;
use lp_model::fractions::frac::Frac;

/// One change of what a problem holds, by original ids.
#[derive(Clone, Copy)]
pub enum Edit {
    /// A row goes, with its sides.
    DeleteRow { row: u32 },
    /// A column goes, with its bounds and its cost.
    DeleteColumn { column: u32 },
    /// A row gets these sides.
    SetSides { row: u32, lower: Ext, upper: Ext },
    /// A column gets these bounds.
    SetBounds { column: u32, lower: Ext, upper: Ext },
    /// The offset gains this.
    AddOffset { amount: Frac },
    /// A column gets this cost, in the minimizing sense.
    SetCost { column: u32, cost: Frac },
    /// The coefficient of a column in a row becomes this; 0 leaves no entry there.
    SetEntry { row: u32, column: u32, value: Frac },
}
