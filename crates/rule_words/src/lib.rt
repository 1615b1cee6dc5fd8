//! Words that all rules share: what a rule reads, what it owes of its edits and its record, and changes as data.
#![tactic(auto)]

mod change;

pub use change::Change;
