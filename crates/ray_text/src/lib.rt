//! Rays as text: a line that starts one, then a line for each row and each column that has a weight, with its name and its two weights.
#![tactic(auto)]

mod laws;
mod ray_lines;
mod reading;
mod starting;
mod weights;
mod writing;

pub use laws::{weights_are_given, written_ray_is_read};
pub use reading::read_ray;
pub use starting::is_ray;
pub use writing::write_ray;
