//! What one word of a record line says, and what one list of them does: ids, numbers, ends and names, and what is wrong with them.
//!
//! A line is cut into words in place. Each word is looked at by its field, and of all faults the one with the lowest number counts.
#![tactic(auto)]

pub mod ends;
pub mod faults;
pub mod fields;
pub mod ids;
pub mod lists;
pub mod ratios;
pub mod words;
