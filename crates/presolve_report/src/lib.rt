//! The report of a presolve: what it counts, and its lines.
#![tactic(auto)]

mod report;
mod sizes;

pub use presolve_rounds;
pub use report::{Change, Report, report_of};
pub use sizes::{Size, report_for, size_of};
