//! Rays: weights of a continuous program's sides and bounds that prove that no point is feasible, and how they go back over each
//! reduction.
//!
//! `specs/` says what a ray is, with which one each verdict starts, and what each step back makes of it. [`laws`] states what holds of
//! them. No law speaks of costs, and none of whole columns: a ray belongs to a program whose columns are continuous.
#![tactic(auto)]

pub mod laws;
mod nets;
mod ray;

pub use nets::net;
pub use ray::Ray;
