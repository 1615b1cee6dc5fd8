//! The numbers of a text that stand at a row and a column.
#![tactic(auto)]

pub mod all_rows;
pub mod single_row;

pub use all_rows::RowEntries;
pub use single_row::{Entry, Row};
