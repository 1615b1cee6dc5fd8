//! Whether a point meets a program, and whether duals prove it a best one, by exact sums: yes with its cost, no with the first limit
//! that it breaks or the first multiplier that is out of place, or that a sum on the way has no room.
//!
//! `specs/` says which item decides. [`laws`] states what a verdict says of the point and the duals.
#![tactic(auto)]

mod checking;
mod columns;
mod copies;
mod costs;
mod duals;
mod judging;
pub mod laws;
mod limits;
mod pair_verdicts;
mod placing;
mod reduced_costs;
mod rows;
mod sums;
mod verdicts;

pub use checking::{check_pair, check_point};
pub use columns::first_not_continuous;
pub use judging::{judge_pair, judge_point};
pub use pair_verdicts::{End, Misplaced, PairVerdict};
pub use verdicts::{Item, Limit, Verdict};
