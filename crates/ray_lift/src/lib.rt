//! Brings a ray of the last problem back to the first one: the records are undone last first.
//!
//! What undoing makes of weights, and when its numbers have room, is defined in the specs of `ray_steps`.
#![tactic(auto)]

mod bounds;
mod columns;
mod equations;
mod forcing;
mod lifting;
mod rows;
mod shares;
mod shifting;
mod weighing;

pub use lifting::lift;
pub use weighing::weigh;
