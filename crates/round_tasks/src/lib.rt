//! The tasks of a round of workers: the ids at which a round looks, cut into chunks; and the parts in which two versions differ.
#![tactic(auto)]

mod changes;
mod cutting;

pub use changes::changed_parts;
pub use cutting::{RoundTasks, tasks_of};
