//! The profile of OPB text that is read: its tokens, places and faults. The definitions stand in `specs/`.
#![tactic(auto)]

mod faults;
mod places;

pub use faults::OpbFaultKind;
pub use places::Place;
