//! Laws of rays by records: what undoing a record makes of weights is the step back of its reduction, and lifts join. The functions here do
//! nothing when they run.
#![tactic(auto)]

pub mod laws;
