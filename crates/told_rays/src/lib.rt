//! Laws of what is told of rays. The functions here do nothing when they run: each states laws, and its check proves them.
#![tactic(auto)]

pub mod laws;
