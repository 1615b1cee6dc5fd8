//! The ray of a run that ended with no feasible point: its history is applied once more, and the ray of its verdict is taken back over the
//! records, the last one first.
#![tactic(auto)]

mod ends;
mod of_run;
mod steps;

pub use of_run::{RayError, ray};
