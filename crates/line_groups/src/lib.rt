//! Rows and columns in groups: all that are multiples of one another stand in one group.
#![tactic(auto)]

mod groups;
mod ids;
mod keys;
pub mod laws;
mod parallels;

pub use parallels::Parallels;
