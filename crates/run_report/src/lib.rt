//! What is told of a run: how often each rule was applied, refused and left over, what is left enabled at the end and why, sizes by round, and
//! the records that name or change a row or a column, in words.
#![tactic(auto)]

pub mod counts;
pub mod lines;
pub mod look;
pub mod named;
pub mod rules;
pub mod sizes;
pub mod story;

pub use presolve_rounds;
