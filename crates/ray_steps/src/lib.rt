//! Rays by records: what one undone record makes of the weights of a ray, and when the numbers that it computes have room.
//!
//! `specs/` says both. That each undoing steps back over its reduction, and that lifts join, are laws of `ray_step_laws`.
#![tactic(auto)]

mod shift;
mod step;

pub use shift::Shift;
pub use step::RayStep;
