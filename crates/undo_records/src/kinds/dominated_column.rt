//! The record of K11.

ghost use Rattle.std.specs.Prelude.{◌≡◌, ◌↔◌, ◌&&◌, IsTrue};
ghost use Rattle.std.specs.List.{list_all};
ghost use Rattle.undo_records.specs.Ids.{is_on};
ghost use Rattle.undo_records.specs.DominatedColumn.{IsSound, columns_named, rows_named};

use crate::flags::are_on;
use crate::sound::{are_two, is_among};

/// K11: a column that another one does better than was fixed at its lower bound.
#[derive(Drop)]
pub struct DominatedColumn {
    /// A row that has both columns.
    pub row: u32,
    /// The better column.
    pub better: u32,
    /// The column that was fixed.
    pub column: u32,
}

impl DominatedColumn {
    /// Whether it is sound in a program of so many rows and columns.
    pub fn is_sound(&self, rows: usize, columns: usize) -> bool
        ensures { IsTrue result ↔ IsSound rows columns self.now }
    {
        is_among(self.row, rows) && are_two(self.better, self.column, columns)
    }

    /// Whether all that it names is on.
    pub(crate) fn names_live(&self, rows: &[bool], columns: &[bool]) -> bool
        ensures { result ≡ (list_all (is_on rows.now) (rows_named self.now) && list_all (is_on columns.now) (columns_named self.now)) }
    {
        are_on(rows, &[self.row]) && are_on(columns, &[self.better, self.column])
    }
}
