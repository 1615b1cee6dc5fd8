//! The words of the lines of OPB text, cut off one after the other, and the tokens that they are.
#![tactic(auto)]

mod tokens;
mod words;

pub use tokens::{Token, read_token};
pub use words::{first_word, is_comment};
