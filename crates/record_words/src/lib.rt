//! The lines of records in the record text: the fields of each kind, what is asked of its words together, and the record that a line is.
//!
//! What each word has to be, or a list of them, stands in `record_fields`. All words of a line are looked at, and then the record is made.
#![tactic(auto)]

mod agreement;
mod lines;
mod rules;
mod undos;

pub use agreement::word;
pub use lines::{LineError, read_records_are_sound, read_undo};
