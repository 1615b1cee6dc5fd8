//! How far a presolve is, on standard error.

use papilo::presolve_rounds::Onlooker;
use papilo::presolve_rounds::txn_book::Book;
use sparse_problem::Problem;
use std::alloc::{AllocError, Global};

/// So many rounds at first are told of one by one.
const FIRST_ROUNDS: u64 = 10;

/// A later one is told of where so many parts of all rows and columns were worked at since: counting takes a look at each of them.
const PARTS: u64 = 64;

/// How far a run is: its rounds, and its rounds and reductions together.
#[derive(Clone, Copy)]
struct Reached {
    rounds: u64,
    work: u64,
}

/// What is left of a problem.
#[derive(Clone, Copy)]
struct Size {
    rows: u64,
    columns: u64,
    entries: u64,
}

fn size_of(problem: &Problem) -> Size {
    Size {
        rows: problem.rows().count_live(),
        columns: problem.columns().count_live(),
        entries: problem.rows().count_entries(),
    }
}

/// A number with a comma behind each thousand.
fn grouped(alloc: Global, number: u64) -> Result<String, AllocError> {
    let mut front = number;
    let mut text = String::new(alloc);
    for _ in 0..6 {
        if front >= 1000 {
            let last = front % 1000;
            text = format!(in alloc; ",{last:03}{text}")?;
            front /= 1000;
        }
    }
    format!(in alloc; "{front}{text}")
}

/// Tells of the rounds of a presolve on standard error, one line over the other, where a person looks on.
#[derive(Drop)]
pub struct Progress<'a, R: Eprint> {
    rt: &'a R,
    is_shown: bool,
    reached: Reached,
    /// As far as it was told of.
    told: Reached,
    /// The rows and columns that were left then.
    lines: u64,
}

impl<'a, R: Eprint> Progress<'a, R> {
    /// Before the first round.
    pub fn new(rt: &'a R, is_shown: bool) -> Progress<'a, R> {
        let start = Reached { rounds: 0, work: 0 };
        Progress {
            rt,
            is_shown,
            reached: start,
            told: start,
            lines: 0,
        }
    }

    /// Whether a line is due.
    fn is_due(&self) -> bool {
        let work = self.reached.work.saturating_sub(self.told.work);
        self.is_shown && (self.reached.rounds <= FIRST_ROUNDS || work >= self.lines / PARTS)
    }

    /// Tells of the last round, which left this problem.
    fn tell(&mut self, alloc: Global, problem: &Problem) -> Result<(), AllocError> {
        let size = size_of(problem);
        self.told = self.reached;
        self.lines = size.rows.saturating_add(size.columns);
        let round = grouped(alloc, self.reached.rounds)?;
        let rows = grouped(alloc, size.rows)?;
        let columns = grouped(alloc, size.columns)?;
        let entries = grouped(alloc, size.entries)?;
        let _ = eprint!(self.rt;
            "\rround {round}: {rows} rows, {columns} columns, {entries} entries\x1b[K"
        );
        Ok(())
    }
}

impl<'a, R: Eprint> Onlooker for Progress<'a, R> {
    fn after_round(&mut self, alloc: Global, book: &Book) -> Result<(), AllocError> {
        let rounds = self.reached.rounds.saturating_add(1);
        let work = rounds.saturating_add(book.applied());
        self.reached = Reached { rounds, work };
        if self.is_due() {
            self.tell(alloc, book.problem())?;
        }
        Ok(())
    }

    fn after_run(&mut self) {
        if self.is_shown {
            let _ = eprint!(self.rt; "\r\x1b[K");
        }
    }
}
