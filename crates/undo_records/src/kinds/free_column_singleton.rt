//! The record of K13.

ghost use Rattle.std.specs.Prelude.{◌≡◌, ◌↔◌, ◌&&◌, IsTrue};
ghost use Rattle.std.specs.List.{list_all};
ghost use Rattle.undo_records.specs.Ids.{is_on};
ghost use Rattle.undo_records.specs.FreeColumnSingleton.{IsSound, columns_named, rows_named};

use crate::flags::{are_all_on, are_on};
use crate::sound::{are_others, is_entry};
use kept_numbers::NumberApart;
use lp_model::Terms;

/// K13: a column with one entry, whose bounds follow from its row, was deleted with the row.
#[derive(Drop)]
pub struct FreeColumnSingleton {
    /// The column.
    pub column: u32,
    /// The row.
    pub row: u32,
    /// The one entry.
    pub value: NumberApart,
    /// The side at which the row stands.
    pub at: NumberApart,
    /// The column's cost over its entry, minimizing.
    pub price: NumberApart,
    /// The row's other entries, by column id.
    pub entries: Terms,
}

impl FreeColumnSingleton {
    /// Whether it is sound in a program of so many rows and columns.
    pub fn is_sound(&self, rows: usize, columns: usize) -> bool
        ensures { IsTrue result ↔ IsSound rows columns self.now }
    {
        is_entry(self.row, self.column, &self.value.get(), rows, columns)
            && are_others(self.entries.as_slice(), self.column, columns)
    }

    /// Whether all that it names is on.
    pub(crate) fn names_live(&self, rows: &[bool], columns: &[bool]) -> bool
        ensures { result ≡ (list_all (is_on rows.now) (rows_named self.now) && list_all (is_on columns.now) (columns_named self.now)) }
    {
        are_on(rows, &[self.row]) && are_all_on(columns, self.column, self.entries.as_slice())
    }
}
