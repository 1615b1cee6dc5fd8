//! How far a run is, on standard error.

use run_report::presolve_rounds::Onlooker;
use run_report::presolve_rounds::txn_book::Book;
use run_report::sizes::SizeLog;
use std::alloc::{AllocError, Global};

/// Keeps the sizes of a run's rounds, and tells of each round where that is wanted.
#[derive(Drop)]
pub struct Progress<'a, R: Eprint> {
    rt: &'a R,
    is_shown: bool,
    log: SizeLog,
}

impl<'a, R: Eprint> Progress<'a, R> {
    /// Before the first round.
    pub fn new(rt: &'a R, alloc: Global, is_shown: bool) -> Progress<'a, R> {
        Progress {
            rt,
            is_shown,
            log: SizeLog::new(alloc),
        }
    }

    /// The sizes that were kept.
    pub fn end(self) -> SizeLog {
        self.log
    }
}

impl<'a, R: Eprint> Onlooker for Progress<'a, R> {
    fn after_round(&mut self, alloc: Global, book: &Book) -> Result<(), AllocError> {
        self.log.after_round(alloc, book)?;
        if self.is_shown {
            let round = self.log.rounds();
            let applied = book.applied();
            let _ = eprint!(self.rt; "\rround {round}: {applied} reductions");
        }
        Ok(())
    }

    fn after_run(&mut self) {
        if self.is_shown {
            let _ = eprintln!(self.rt; "");
        }
    }
}
