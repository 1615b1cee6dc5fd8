//! Reading the text of presolve's records, of either version.
//!
//! The text is read line by line, in place. What a line has to be follows from the lines before it.
#![tactic(auto)]

mod draft;
mod faults;
mod headings;
mod labels;
mod line_parts;
mod matching;
mod reading;
mod stages;
mod transaction_lines;

pub use faults::{RecordError, RecordFaultKind};
pub use matching::matches;
pub use reading::{read_records, read_texts_are_sound};
