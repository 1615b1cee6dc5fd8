//! What rounds make of a book: a pass over instances in order, each looked at on the present problem, is a round of commits. The functions
//! here do nothing when they run: each states laws of the definitions in `presolve_model`, and its check proves them.
#![tactic(auto)]

pub mod passes;
