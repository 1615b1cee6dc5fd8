//! The record of K14.

ghost use Rattle.std.specs.Prelude.{◌≡◌, ◌↔◌, ◌&&◌, IsTrue};
ghost use Rattle.std.specs.List.{list_all};
ghost use Rattle.undo_records.specs.Ids.{is_on};
ghost use Rattle.undo_records.specs.SlackColumnSingleton.{IsSound, columns_named, rows_named};

use crate::flags::{are_all_on, are_on};
use crate::side::RowFate;
use crate::sound::{are_others, is_entry};
use kept_numbers::{EndApart, NumberApart, TermsApart};

/// K14: a column with one entry was deleted, and its row's sides took up its bounds.
#[derive(Drop)]
pub struct SlackColumnSingleton {
    /// The column.
    pub column: u32,
    /// The row.
    pub row: u32,
    /// The one entry.
    pub value: NumberApart,
    /// The column's cost over its entry, minimizing.
    pub price: NumberApart,
    /// The row's lower side before.
    pub lower_side: EndApart,
    /// The row's upper side before.
    pub upper_side: EndApart,
    /// The column's lower bound.
    pub lower: EndApart,
    /// The column's upper bound.
    pub upper: EndApart,
    /// Whether the row was kept.
    pub fate: RowFate,
    /// The row's other entries, by column id.
    pub entries: TermsApart,
}

impl SlackColumnSingleton {
    /// Whether it is sound in a program of so many rows and columns.
    pub fn is_sound(&self, rows: usize, columns: usize) -> bool
        ensures { IsTrue result ↔ IsSound rows columns self.now }
    {
        is_entry(self.row, self.column, &self.value.get(), rows, columns)
            && are_others(self.entries.as_slice(), self.column, columns)
    }

    /// Whether all that it names is on.
    pub(crate) fn names_live(&self, rows: &[bool], columns: &[bool]) -> bool
        ensures { result ≡ (list_all (is_on rows.now) (rows_named self.now) && list_all (is_on columns.now) (columns_named self.now)) }
    {
        are_on(rows, &[self.row]) && are_all_on(columns, self.column, self.entries.as_slice())
    }
}
