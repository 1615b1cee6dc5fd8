//! The rules of a continuous column with one entry: whether each is enabled at a column and a row, and its change, as edits and a record.
//! The column leaves with its row (K13), or as a slack of it (K14), and its cost is put into the row's other columns.
#![tactic(auto)]

pub mod free_column_singleton;
pub mod slack_column_singleton;
pub mod sole_entry;
