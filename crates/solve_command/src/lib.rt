//! The command `solve`: a best point of a continuous program with duals that prove it, or why there is none, by the simplex method in exact
//! numbers.
#![tactic(auto)]

mod answer;
mod command;
mod program;
mod refusal;

pub use command::solve;
