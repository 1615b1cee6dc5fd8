//! What workers do in a round, and what is marked for the next one: threads scan a frozen version, and commit what they find there under the
//! lock of the book.
#![tactic(auto)]

mod done;
mod laws;
mod marks;
mod racing;
mod round;
mod workers;

pub use done::is_all_done;
pub use laws::{freezes_in_turn, rounds_mark_all};
pub use marks::{ids_after, leave_found};
pub use racing::{RaceEnd, race};
pub use workers::{Worker, do_tasks, has_failed, hire, is_over};
