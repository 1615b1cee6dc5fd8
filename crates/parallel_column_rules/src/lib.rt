//! The rule that joins columns that are multiples of one another (K16): whether it is enabled at two columns, and its change, as edits
//! and a record; and the walks along the entries of two lines.
#![tactic(auto)]

mod factor;
mod joined_bounds;
mod kinds;
pub mod parallel_columns;
pub mod walks;
