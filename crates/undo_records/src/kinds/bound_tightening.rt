//! The record of K8.

ghost use Rattle.std.specs.Prelude.{◌≡◌, ◌↔◌, ◌&&◌, IsTrue};
ghost use Rattle.std.specs.List.{list_all};
ghost use Rattle.undo_records.specs.Ids.{is_on};
ghost use Rattle.undo_records.specs.BoundTightening.{IsSound, columns_named, rows_named};

use crate::flags::{are_all_on, are_on};
use crate::side::Side;
use crate::sound::{ascend, have, is_among};
use kept_numbers::{KeptEnd, SharedTerms};

/// K8: a bound was replaced by a better one that follows from a row and its other columns' bounds.
#[derive(Drop)]
pub struct BoundTightening {
    /// The row.
    pub row: u32,
    /// The column.
    pub column: u32,
    /// The bound that was replaced.
    pub side: Side,
    /// That bound before.
    pub bound: KeptEnd,
    /// The row's entries by column id, the column's own among them.
    pub entries: SharedTerms,
}

impl BoundTightening {
    /// Whether it is sound in a program of so many rows and columns.
    pub fn is_sound(&self, rows: usize, columns: usize) -> bool
        ensures { IsTrue result ↔ IsSound rows columns self.now }
    {
        is_among(self.row, rows)
            && is_among(self.column, columns)
            && ascend(self.entries.as_slice(), columns)
            && have(self.entries.as_slice(), self.column)
    }

    /// Whether all that it names is on.
    pub(crate) fn names_live(&self, rows: &[bool], columns: &[bool]) -> bool
        ensures { result ≡ (list_all (is_on rows.now) (rows_named self.now) && list_all (is_on columns.now) (columns_named self.now)) }
    {
        are_on(rows, &[self.row]) && are_all_on(columns, self.column, self.entries.as_slice())
    }
}
