//! The command `gen`: numbers in, the size of the program that they make and the report of its presolve out.
#![tactic(auto)]

mod command;

pub use command::generate;
