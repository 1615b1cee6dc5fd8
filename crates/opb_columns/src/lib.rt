//! The columns of an OPB text while it is read: their names, and what the statements say of them.
#![tactic(auto)]

mod columns;
mod sums;

pub use columns::Columns;
