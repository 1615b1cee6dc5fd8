//! Whether the weights of a ray prove that no point is feasible, by exact sums: yes, no with the first item that does not pass, or that
//! a sum on the way has no room.
//!
//! `specs/` says which item decides. [`laws`] states what a verdict says of the ray.
#![tactic(auto)]

mod checking;
mod column_sums;
mod ends;
pub mod laws;
mod verdict;
mod worths;

pub use checking::check_ray;
pub use verdict::RayChecked;
