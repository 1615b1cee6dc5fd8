//! A book and its workers: each freezes the problem, proposes what it found, and commits what it proposed, in whatever order.
#![tactic(auto)]

mod event;
mod seats;
mod worker;
mod world;

pub use event::Event;
pub use world::World;
