//! A problem to be minimized, by the ids of the program that it was made of, with what is kept of its rows' activities.
#![tactic(auto)]

mod kept_rows;
mod problem;
mod row_totals;

pub use problem::Problem;
