//! Commits of edits to a problem: edits are made one after the other, and then the number of each part that holds something else rises by
//! one; the parts that they touch are told. What parts hold is read and compared here too.
#![tactic(auto)]

mod commits;
mod contents;
mod edits;
mod entries;
mod notes;
mod parts;
mod raises;

pub use commits::commit;
pub use parts::{read, stands};
