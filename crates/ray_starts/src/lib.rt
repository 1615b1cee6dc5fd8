//! The ray with which a verdict starts: weights of the problem on which a run ends that says that no point is feasible.
#![tactic(auto)]

mod columns;
mod starts;

pub use starts::start;
