//! A look at a fault of a program's text: its line with the field marked, the line where a name stood first, and a sentence.
//!
//! What is marked is found by the words of the line and of the lines before it. No clause says more of it than that it is safe.
#![tactic(auto)]

mod fields;
mod look;
mod opb;
mod places;
mod sentences;

pub use look::push_look;
pub use opb::push_opb_look;
