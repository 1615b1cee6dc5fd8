//! Presolve by workers: they race while their rounds are worth it, and a sweep on one thread closes the run.
#![tactic(auto)]

mod reduce;
mod run;

pub use reduce::presolve;
