//! The MPS text of a program, in free format.
#![tactic(auto)]

mod bounds;
mod cards;
mod columns;
mod error;
mod rows;
mod writing;

pub use error::WriteError;
pub use writing::write_mps;
