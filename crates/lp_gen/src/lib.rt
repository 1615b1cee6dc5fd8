//! Programs made from a seed, for trials: rows of each type, and three entries at most in each column.
#![tactic(auto)]

mod columns;
mod draws;
pub mod laws;
mod parts;
mod program;
mod rows;

pub use program::generate;
