//! The rule that joins rows that are multiples of one another (K15): whether it is enabled at two rows, and its change, as edits and a
//! record.
#![tactic(auto)]

mod factor;
mod joined_sides;
pub mod parallel_rows;

pub use parallel_column_rules;
