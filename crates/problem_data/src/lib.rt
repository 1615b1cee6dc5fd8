//! A problem in sparse rows and columns, by the ids of the program that it was made of.
#![tactic(auto)]

mod changes;
mod ends;
mod made;
mod problem;
mod written;

pub use made::in_sense;
pub use problem::ProblemData;
