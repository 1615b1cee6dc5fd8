//! Reads programs from OPB text.
#![tactic(auto)]

mod faults;
mod places;
mod reader;
mod reading;
mod rows;
mod sides;

pub use faults::OpbError;
pub use opb_text::OpbFaultKind;
pub use reading::read_opb;
