//! What undoing a record makes of a pair, a point and the duals of the rows: definitions alone, on which the rules and their laws stand.
#![tactic(auto)]

pub use undo_records;
