//! Reductions applied: the change of an enabled one, prepared where its numbers may stand, and committed.
#![tactic(auto)]

mod admit;
mod applying;

pub use applying::{after, commit_prepared, prepared};
