//! The text of records that a command read: its records, or the line that refuses it.
#![tactic(auto)]

mod no_records;
mod reading;

pub use no_records::NoRecords;
pub use reading::{RECORDS_LIMIT, records_of};
