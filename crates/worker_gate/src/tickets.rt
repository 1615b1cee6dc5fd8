//! Tickets.

use std::sync::atomic::{AtomicU64, Ordering};

/// Past the number of every task.
const PAST_ALL: u64 = 1 << 63;

/// The numbers of a round's tasks, from 0 on, each drawn by one worker. They promise nothing but to return, so no result may rest on who
/// draws which.
#[derive(Drop)]
pub struct Tickets {
    next: AtomicU64,
}

impl Tickets {
    /// None is drawn yet.
    pub fn new() -> Tickets {
        Tickets {
            next: AtomicU64::new(0),
        }
    }

    /// Draws the next number. It waits for nobody.
    pub fn draw(&self) -> u64 {
        self.next.fetch_add(1, Ordering::SeqCst)
    }

    /// Lets no number be drawn any more that a task has.
    pub fn end(&self) {
        self.next.store(PAST_ALL, Ordering::SeqCst);
    }
}
