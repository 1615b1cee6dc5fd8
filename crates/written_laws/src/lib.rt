//! Laws of written programs: the problem of a program, written, is the program; and what is left to be done is the same on a problem, with
//! its original ids, and on the problem of its written program. The functions here do nothing when they run: each states a law of the
//! definitions, and its check proves it.
#![tactic(auto)]

pub mod laws;
