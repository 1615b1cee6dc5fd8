//! The record of K2.

ghost use Rattle.std.specs.Prelude.{◌≡◌, ◌↔◌, ◌&&◌, IsTrue};
ghost use Rattle.std.specs.List.{list_all};
ghost use Rattle.undo_records.specs.Ids.{is_on};
ghost use Rattle.undo_records.specs.SingletonRow.{IsSound, columns_named, rows_named};

use crate::flags::are_on;
use crate::sound::is_entry;
use kept_numbers::{KeptEnd, KeptNumber};

/// K2: a row with one entry was deleted, and the column's bounds were met with its sides over that entry.
#[derive(Drop)]
pub struct SingletonRow {
    /// The row.
    pub row: u32,
    /// The column of its one entry.
    pub column: u32,
    /// That entry.
    pub value: KeptNumber,
    /// The column's lower bound before.
    pub lower: KeptEnd,
    /// The column's upper bound before.
    pub upper: KeptEnd,
}

impl SingletonRow {
    /// Whether it is sound in a program of so many rows and columns.
    pub fn is_sound(&self, rows: usize, columns: usize) -> bool
        ensures { IsTrue result ↔ IsSound rows columns self.now }
    {
        is_entry(self.row, self.column, &self.value.get(), rows, columns)
    }

    /// Whether all that it names is on.
    pub(crate) fn names_live(&self, rows: &[bool], columns: &[bool]) -> bool
        ensures { result ≡ (list_all (is_on rows.now) (rows_named self.now) && list_all (is_on columns.now) (columns_named self.now)) }
    {
        are_on(rows, &[self.row]) && are_on(columns, &[self.column])
    }
}
