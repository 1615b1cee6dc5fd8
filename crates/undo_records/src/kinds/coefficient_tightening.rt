//! The record of K9.

ghost use Rattle.std.specs.Prelude.{◌≡◌, ◌↔◌, ◌&&◌, IsTrue};
ghost use Rattle.std.specs.List.{list_all};
ghost use Rattle.undo_records.specs.Ids.{is_on};
ghost use Rattle.undo_records.specs.CoefficientTightening.{IsSound, columns_named, rows_named};

use crate::flags::are_on;
use crate::sound::is_among;

/// K9: an entry of a whole column and the one finite side of its row were brought nearer to 0 alike.
#[derive(Drop)]
pub struct CoefficientTightening {
    /// The row.
    pub row: u32,
    /// The column.
    pub column: u32,
}

impl CoefficientTightening {
    /// Whether it is sound in a program of so many rows and columns.
    pub fn is_sound(&self, rows: usize, columns: usize) -> bool
        ensures { IsTrue result ↔ IsSound rows columns self.now }
    {
        is_among(self.row, rows) && is_among(self.column, columns)
    }

    /// Whether all that it names is on.
    pub(crate) fn names_live(&self, rows: &[bool], columns: &[bool]) -> bool
        ensures { result ≡ (list_all (is_on rows.now) (rows_named self.now) && list_all (is_on columns.now) (columns_named self.now)) }
    {
        are_on(rows, &[self.row]) && are_on(columns, &[self.column])
    }
}
