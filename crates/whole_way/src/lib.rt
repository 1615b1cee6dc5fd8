//! The whole way of a program and its solution, in texts: presolve writes the reduced program and the records, a solver answers with a
//! solution of the reduced program, and postsolve brings it back. Below it stands the way back of points and pairs alone: what the records that
//! presolve concludes with make of them. The functions here do nothing when they run: each states laws of the
//! definitions, and its check proves them.
#![tactic(auto)]

pub mod laws;
pub mod way_back;
