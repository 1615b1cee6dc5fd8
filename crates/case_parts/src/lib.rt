//! What the program `cases` prints of texts and of parts of the presolver: texts that are read and written again, one reduction by itself,
//! what scans find, and sums of rows after edits. The first line of each file says what it prints.
#![tactic(auto)]

pub mod again;
pub mod long_files;
pub mod rule;
pub mod scans;
pub mod shown;
pub mod sums;
