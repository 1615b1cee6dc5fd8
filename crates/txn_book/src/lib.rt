//! The book of a run of presolve: the present problem, what was applied to it, and the two ways in which that grows: a proposal is
//! committed, or an enabled instance is applied to the present problem.
#![tactic(auto)]

mod book;
mod row_lists;
mod sharing;

pub use book::{Book, Ended};
pub use instances;
pub use instances::rule_table;
pub use row_lists::RowLists;
