//! The profile of MPS text that is read: its words, cards, numbers and faults. The definitions
//! stand in `specs/`.
#![tactic(auto)]

pub mod bounds;
pub mod cards;
pub mod dialect;
pub mod faults;
pub mod progress;
pub mod row_kinds;
pub mod sections;

pub use faults::MpsFaultKind;
