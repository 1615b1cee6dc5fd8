//! Whether two records are the same as data: by their values, however these are kept.
#![tactic(auto)]

mod lists;
mod records;

pub use records::same_record;
