//! Laws of two runs: a solution that `postsolve` brings back after a `presolve`, and commands that read the same bytes twice. The functions
//! here do nothing when they run: each states laws of what the commands say, and its check proves them.
#![tactic(auto)]

pub mod coming_back;
pub mod same_answers;
