//! The rule that tightens a coefficient of a whole column (K9): whether it is enabled at a row and a column, its change, as edits and a
//! record, and all columns of a row at which it is enabled.
#![tactic(auto)]

pub mod coefficient_tightening;
mod listing;
mod new_numbers;
mod values;

pub use listing::add_tightened;
