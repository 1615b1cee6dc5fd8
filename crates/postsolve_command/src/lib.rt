//! The command `postsolve`: a solution of the reduced program is brought back to the original one.
#![tactic(auto)]

mod command;
mod given;
mod lifted;
mod refusal;

pub use command::postsolve;
