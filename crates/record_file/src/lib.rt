//! The text of presolve's records, in both versions.
#![tactic(auto)]

mod fields;
mod records;
mod sections;
mod words;
mod writing;

pub use writing::write_records;
