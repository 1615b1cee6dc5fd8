//! Whether a program is the one that is written of a problem, looked at row by row and column by column: no second program is made.
#![tactic(auto)]

mod columns;
mod entries;
mod program;
mod rows;

pub use program::is_written_of;
