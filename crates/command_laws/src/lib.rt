//! A law of the program's words, of the definitions of `command_line` and `clap` alone. The function here does nothing when it runs: it
//! states the law, and its check proves it.
#![tactic(auto)]

pub mod laws;
