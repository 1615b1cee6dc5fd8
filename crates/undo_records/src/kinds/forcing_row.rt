//! The record of K7.

ghost use Rattle.std.specs.Prelude.{◌≡◌, ◌↔◌, ◌&&◌, IsTrue};
ghost use Rattle.std.specs.List.{list_all};
ghost use Rattle.undo_records.specs.Ids.{is_on};
ghost use Rattle.undo_records.specs.ForcingRow.{IsSound, columns_named, rows_named};

use crate::flags::{are_on, are_terms_on};
use crate::side::Side;
use crate::sound::{ascend, is_among};
use lp_model::Terms;

/// K7: a row that its columns meet only at one end of their bounds was deleted, and they were fixed there.
#[derive(Drop)]
pub struct ForcingRow {
    /// The row.
    pub row: u32,
    /// The side that is the row's greatest or least value.
    pub side: Side,
    /// Its entries, by column id.
    pub entries: Terms,
}

impl ForcingRow {
    /// Whether it is sound in a program of so many rows and columns.
    pub fn is_sound(&self, rows: usize, columns: usize) -> bool
        ensures { IsTrue result ↔ IsSound rows columns self.now }
    {
        is_among(self.row, rows) && ascend(self.entries.as_slice(), columns)
    }

    /// Whether all that it names is on.
    pub(crate) fn names_live(&self, rows: &[bool], columns: &[bool]) -> bool
        ensures { result ≡ (list_all (is_on rows.now) (rows_named self.now) && list_all (is_on columns.now) (columns_named self.now)) }
    {
        are_on(rows, &[self.row]) && are_terms_on(columns, self.entries.as_slice())
    }
}
