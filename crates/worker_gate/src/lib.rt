//! What workers pass before and after each of their tasks, and the numbers that they draw.
#![tactic(auto)]

mod gate;
mod tickets;

pub use gate::{Gate, OpenGate};
pub use tickets::Tickets;
