//! The command `verify`: whether records lead from one program to another, whoever made them.
#![tactic(auto)]

mod command;
mod given;
mod judging;
mod refusal;
mod verdict_text;

pub use command::verify;
