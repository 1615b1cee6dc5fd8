//! The parts of MPS lines: of what kind a line is, its fields, and what it says.
#![tactic(auto)]

pub mod column_texts;
pub mod fields;
mod fixed_cards;
mod free_cards;
pub mod items;
pub mod lines;
pub mod split_line;
