//! The command `check`: whether the point of a solution meets a program, and whether its duals prove it a best one; or whether a ray
//! proves that no point does. All of it is exact.
#![tactic(auto)]

mod command;
mod judging;
mod pair_verdict_text;
mod ray_judging;
mod ray_verdict_text;
mod verdict_text;

pub use command::check;
