//! Programs solved by the simplex method in exact numbers: the run, and what is answered.
//!
//! `specs/` of `simplex_laws` says what a run is and how it ends.
#![tactic(auto)]

pub mod laws;
mod runs;
mod solving;

pub use solving::{Solved, solve};
