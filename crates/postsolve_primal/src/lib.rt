//! Brings a point of the reduced program back to the original one: the records are undone last first. The numbers are of any kind of exact
//! numbers.
//!
//! What undoing makes of a point, and when its numbers have room, is defined in the specs of `undo_records`.
#![tactic(auto)]

mod buffer;
mod ends;
mod lifting;
mod sums;
mod undo;

pub use buffer::{at_columns, placed};
pub use ends::Range;
pub use lifting::{Stop, lift};
pub use sums::{less_product, sum_of_terms};
pub use undo::undo_one;
