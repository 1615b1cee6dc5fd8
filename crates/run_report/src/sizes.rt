//! Sizes of a problem, round by round.

ghost use Rattle.std.specs.Prelude.{◌≡◌, ◌+◌, ◌-◌, ◌^◌, [], length, min, OnOk};
ghost use Rattle.std.specs.List.{sum_by};
ghost use Rattle.run_report.specs.Sizes.{size_at_start, size_in, with_round};

use lp_model::{ColumnDef, Program};
use presolve_rounds::Onlooker;
use presolve_rounds::txn_book::Book;
use sparse_problem::Problem;
use std::alloc::{AllocError, Global};

/// How many rows, columns and entries there are.
#[derive(Clone, Copy)]
pub struct Size {
    pub rows: u64,
    pub columns: u64,
    pub entries: u64,
}

/// A size after so many rounds.
#[derive(Clone, Copy)]
pub struct RoundSize {
    pub round: u64,
    pub size: Size,
}

/// The size of a problem. The count of entries stands still at its type's end.
pub fn size_of(problem: &Problem) -> Size
    ensures { result ≡ size_in problem.now }
{
    Size {
        rows: problem.rows().count_live(),
        columns: problem.columns().count_live(),
        entries: problem.rows().count_entries(),
    }
}

/// How many entries these columns have.
fn count_all_entries(columns: &[ColumnDef]) -> u64
    ensures { result ≡ min (sum_by (λ column. length column.entries) columns.now) (2 ^ 64 - 1) }
{
    let mut count: u64 = 0;
    let mut rest = columns;
    while let [column, after @ ..] = rest {
        count = count.saturating_add(column.entries.as_slice().len() as u64);
        rest = after;
    }
    count
}

/// The size of a program. The count of entries stands still at its type's end.
pub fn size_at_start(program: &Program) -> Size
    ensures { result ≡ size_at_start program.now }
{
    Size {
        rows: program.rows().len() as u64,
        columns: program.columns().len() as u64,
        entries: count_all_entries(program.columns()),
    }
}

/// Keeps the sizes after each of the first ten rounds, and after each tenth one.
#[derive(Drop)]
pub struct SizeLog {
    rounds: u64,
    sizes: Vec<RoundSize>,
}

impl SizeLog {
    /// Before the first round.
    pub fn new(alloc: Global) -> SizeLog
        ensures rounds { result.rounds ≡ 0 }
        ensures sizes { result.sizes.items ≡ [] }
    {
        SizeLog {
            rounds: 0,
            sizes: Vec::new(alloc),
        }
    }

    /// How many rounds there were.
    pub fn rounds(&self) -> u64
        ensures { result ≡ self.now.rounds }
    {
        self.rounds
    }

    /// The sizes that were kept.
    pub fn sizes(&self) -> &[RoundSize]
        ensures { result.now ≡ self.now.sizes.items }
    {
        self.sizes.as_slice()
    }
}

impl Onlooker for SizeLog {
    fn after_round(&mut self, _alloc: Global, book: &Book) -> Result<(), AllocError>
        ensures rounds { self.new.rounds ≡ min (self.old.rounds + 1) (2 ^ 64 - 1) }
        ensures sizes { OnOk result (self.new.sizes.items ≡ with_round self.old.sizes.items self.new.rounds book.now.problem) }
    {
        self.rounds = self.rounds.saturating_add(1);
        let round = self.rounds;
        if round > 10 && round % 10 != 0 {
            return Ok(());
        }
        let size = size_of(book.problem());
        self.sizes.push(RoundSize { round, size })?;
        Ok(())
    }

    fn after_run(&mut self) {}
}
