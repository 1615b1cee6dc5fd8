//! The text of the ray that proves of the program of a text that it has no feasible point, by the history and the verdict of a run.
#![tactic(auto)]

mod texts;

pub use run_rays::RayError;
pub use texts::{past_text, text_of_ray};
