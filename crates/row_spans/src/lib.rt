//! Entries of a row with the bounds of their columns: the least and the greatest that each gives its row, and the sums of these as they are
//! made, exactly, term by term. `specs/` says what the activities are, and `laws` what they have to do with the linear program.
#![tactic(auto)]

pub mod exact;
pub mod laws;
mod span;

pub use span::{Extreme, Span, bound_at, end_of};
