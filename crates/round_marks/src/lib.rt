//! What rounds keep from one to the next: what is marked, how often parts had changed, the forms of ends, and the rows and columns where the
//! next round looks.
#![tactic(auto)]

pub mod around;
mod forms;
pub mod found;
mod ids;
mod soles;
pub mod stamps;
pub mod watch;

pub use txn_book;
pub use txn_book::{instances, rule_table};
