//! A gate at which two workers meet.

use std::sync::atomic::{AtomicU64, Ordering};
use worker_gate::Gate;

/// So often a worker looks whether the other one came.
const LOOKS: u32 = 200_000_000;

/// Tasks with a number below this are counted.
const COUNTED: u64 = 64;

/// Holds the worker that begins the first task of a run until the second task was answered. It counts the proposals that were answered when a
/// task of a number was answered for the first time: those of the first round, if no later one has more tasks.
#[derive(Drop)]
pub struct Meeting {
    /// How often the first task was begun.
    begun: AtomicU64,
    /// A bit for each number of a task that was answered.
    seen: AtomicU64,
    answered: AtomicU64,
    met: AtomicU64,
}

impl Meeting {
    pub fn new() -> Meeting {
        Meeting {
            begun: AtomicU64::new(0),
            seen: AtomicU64::new(0),
            answered: AtomicU64::new(0),
            met: AtomicU64::new(0),
        }
    }

    /// Whether the worker that was held saw the other's answer.
    pub fn has_met(&self) -> bool {
        self.met.load(Ordering::SeqCst) > 0
    }

    /// How many proposals were answered.
    pub fn answered(&self) -> u64 {
        self.answered.load(Ordering::SeqCst)
    }

    /// Waits until the second task was answered.
    fn wait(&self) {
        for _ in 0..LOOKS {
            if self.seen.load(Ordering::SeqCst) & 2 > 0 {
                self.met.store(1, Ordering::SeqCst);
                return;
            }
        }
    }
}

impl Gate for Meeting {
    fn at_task(&self, _worker: u32, task: u64) {
        if task == 0 && self.begun.fetch_add(1, Ordering::SeqCst) == 0 {
            self.wait();
        }
    }

    fn at_answer(&self, _worker: u32, task: u64, answered: u64) {
        if task < COUNTED {
            let bit = 1u64 << task;
            if self.seen.fetch_or(bit, Ordering::SeqCst) & bit == 0 {
                self.answered.fetch_add(answered, Ordering::SeqCst);
            }
        }
    }
}
