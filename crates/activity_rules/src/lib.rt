//! The rules that argue with the activities of a row: whether each is enabled at an id, and its change, as edits and a record. Redundant
//! rows (K5) and sides (K6), forcing rows (K7), bound tightening (K8), and infeasible rows (V2).
#![tactic(auto)]

pub mod bound_tightening;
pub mod forcing_row;
pub mod infeasible_row;
mod infinite_ends;
pub mod redundant_row;
pub mod redundant_side;
pub mod tightened_bounds;
