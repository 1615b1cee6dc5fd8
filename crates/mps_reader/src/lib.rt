//! Reads programs from MPS text.
#![tactic(auto)]

mod faults;
mod reader;
mod reading;

pub use faults::MpsError;
pub use mps_profile::MpsFaultKind;
pub use mps_profile::dialect::{Dialect, Format};
pub use reading::read_mps;
