//! The whole presolver over what its caller hands in: words, files, a sink, a gate and an onlooker.
//!
//! [`run::run`] does what the words ask for. Its contract is what the program promises: the program of `papilo_cli` only hands it the
//! system's files and standard output, and `cases` hands it files in memory.
#![tactic(auto)]

pub mod run;

pub use presolve_command::presolve_rounds;
