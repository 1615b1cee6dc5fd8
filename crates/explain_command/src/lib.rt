//! The program `explain` without its `main`: its words, a run of a program's text, and what is told of it.
#![tactic(auto)]

mod answering;
mod progress;
mod running;
mod telling;
mod words;

pub use answering::answer;
pub use running::Told;
