//! Whether records lead from a program to a reduced one, whoever made them.
#![tactic(auto)]

mod header;
mod readings;
mod steps;
mod verdict;

pub use verdict::{Verified, verify};
pub use walk_laws::{Flaw, StepFlaw};
