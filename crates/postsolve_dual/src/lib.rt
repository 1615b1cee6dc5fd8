//! Brings a pair, a point and the duals of the rows, of the reduced program back to the original one: the records are undone last first.
//!
//! `specs/` says what undoing makes of a pair, and when its numbers have room.
#![tactic(auto)]

mod columns;
mod equations;
mod lifting;
mod numbers;
mod pair;
mod rows;
mod starting;
mod terms;
mod turning;
mod undo;

pub use lifting::lift_pair;
pub use pair::PairBuf;
pub use postsolve_primal::Stop;
pub use starting::Unpriced;
