//! What a worker does in a task: it scans a frozen version for the instances of a rule in a chunk of ids, and commits each of them under the
//! lock of the book.
#![tactic(auto)]

mod task;
mod work;

pub use task::{Task, do_task};
pub use work::Work;
