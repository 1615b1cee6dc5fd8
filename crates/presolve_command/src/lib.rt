//! The command `presolve`: a program's text in, the reduced program, its records and a report out.
#![tactic(auto)]

mod command;
mod reduce;

pub use command::presolve;
pub use presolve_report::presolve_rounds;
