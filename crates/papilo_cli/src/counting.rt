//! How far workers are that race, on standard error.

use std::sync::atomic::{AtomicU64, Ordering};
use worker_gate::Gate;

/// So many proposals are answered from one line to the next.
const STEP: u64 = 10_000;

/// Counts the proposals that workers had answered and tells of them on standard error, one line over the other, where a person looks on.
#[derive(Drop)]
pub struct CountingGate<'a, R: Eprint + Sync> {
    rt: &'a R,
    is_shown: bool,
    answered: AtomicU64,
}

impl<'a, R: Eprint + Sync> CountingGate<'a, R> {
    /// None is answered yet.
    pub fn new(rt: &'a R, is_shown: bool) -> CountingGate<'a, R> {
        CountingGate {
            rt,
            is_shown,
            answered: AtomicU64::new(0),
        }
    }
}

impl<'a, R: Eprint + Sync> Gate for CountingGate<'a, R> {
    fn at_task(&self, _worker: u32, _task: u64) {}

    fn at_answer(&self, _worker: u32, _task: u64, answered: u64) {
        let before = self.answered.fetch_add(answered, Ordering::SeqCst);
        let now = before.saturating_add(answered);
        if self.is_shown && now / STEP > before / STEP {
            let _ = eprint!(self.rt; "\rworkers: {now} proposals answered\x1b[K");
        }
    }
}
