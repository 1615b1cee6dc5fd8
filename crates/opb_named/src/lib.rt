//! The names in the program of an OPB text can stand in every text. The function here does nothing when it runs: it states laws of the profile's
//! definitions, and its check proves them.
#![tactic(auto)]

mod laws;

pub use laws::names_are_ordinary;
