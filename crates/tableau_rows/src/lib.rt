//! The rows of a tableau, with its prices and its values as rows of numbers, and what a pivot makes of them: each number exact or past.
#![tactic(auto)]

mod rows;
mod turning;

pub use rows::{Row, gain_of, move_all, move_to, number_at};
pub use turning::turn_rows;
