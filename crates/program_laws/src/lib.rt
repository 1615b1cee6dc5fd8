//! Laws of the problems of programs and of the programs that are written of problems, of their definitions alone. The functions here
//! do nothing when they run: each states laws, and its check proves them.
#![tactic(auto)]

pub mod laws;
