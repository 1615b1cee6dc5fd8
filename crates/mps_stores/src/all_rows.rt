//! The entries of all rows.

ghost use Rattle.std.specs.Prelude.{◌≡◌, ◌==◌, ◌&&◌, ◌<◌, ℕ, OnOk, OnErr, Some, None, is_some, if◌then◌else◌};
ghost use Rattle.mps_stores.specs.Entries.{IsOnce};
ghost use Rattle.mps_stores.specs.Stores.{number_in, row_in, row_count};

use crate::single_row::{Entry, Row};
use fractions::frac::Frac;
use std::alloc::{AllocError, Global};

/// The numbers at rows and columns, each named by its place: one at most at each row and column.
#[derive(Drop)]
pub struct RowEntries {
    rows: Vec<Row>,
}

impl RowEntries {
    /// No numbers.
    pub fn new(alloc: Global) -> RowEntries
        ensures { (i j : ℕ) → number_in result i j ≡ None }
    {
        RowEntries {
            rows: Vec::new(alloc),
        }
    }

    /// Whether there is a number at a row and a column.
    pub fn names(&self, row: usize, column: usize) -> bool
        ensures { result ≡ is_some (number_in self.now row column) }
    {
        match self.rows.get(row) {
            Some(found) => found.names(column),
            None => false,
        }
    }

    /// The entries of a row, in the order in which they were put. A row past the end has none.
    pub fn row(&self, row: usize) -> &[Entry]
        ensures value { result.now ≡ row_in self.now row }
        ensures once { IsOnce result.now }
    {
        match self.rows.get(row) {
            Some(found) => found.as_slice(),
            None => &[],
        }
    }

    #[tactic(auto, using(crate::proofs::Adding::blank_row))]
    /// Makes room for a row.
    fn grow(&mut self, row: usize) -> Result<(), AllocError>
        ensures long { OnOk result (row < row_count self.new) }
        ensures same { OnOk result ((i : ℕ) → row_in self.new i ≡ row_in self.old i) }
    {
        let alloc = *self.rows.allocator();
        while self.rows.len() <= row {
            self.rows.push(Row::empty(alloc))?;
        }
        Ok(())
    }

    /// Puts a number at a row and a column that have none.
    ///
    /// # Errors
    ///
    /// Where there is no memory.
    pub fn put(&mut self, row: usize, column: usize, value: Frac) -> Result<(), AllocError>
        requires { number_in self.old row column ≡ None }
        ensures { OnOk result ((i j : ℕ) → number_in self.new i j ≡ (if row == i && column == j then Some value else number_in self.old i j)) }
    {
        self.grow(row)?;
        self.rows[row].push(column, value)?;
        Ok(())
    }
}
