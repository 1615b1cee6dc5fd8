//! A step of the exact simplex method: the ends of variables, the rules by which it chooses, how far a variable can go, and the step.
//!
//! Wherever there is a choice the least variable is taken (Bland's rule).
#![tactic(auto)]

mod choices;
mod ends;
mod limits;
mod steps;

pub use ends::{lower_end, upper_end};
pub use steps::{End, look, step};
