//! Records as a proof of a reduction, whoever made them: what it is that they walk from a program to a reduced one, what follows from it,
//! and the first part of it that fails. The functions here do nothing when they run: each states laws of these definitions, and its check
//! proves them.
#![tactic(auto)]

mod flaw;
pub mod laws;

pub use flaw::{Flaw, StepFlaw};
