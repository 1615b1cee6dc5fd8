//! The record of K15.

ghost use Rattle.std.specs.Prelude.{◌≡◌, ◌↔◌, ◌&&◌, IsTrue};
ghost use Rattle.std.specs.List.{list_all};
ghost use Rattle.undo_records.specs.Ids.{is_on};
ghost use Rattle.undo_records.specs.ParallelRows.{IsSound, columns_named, rows_named};

use crate::flags::{are_on, are_terms_on};
use crate::sound::{are_two, ascend, is_divisor};
use kept_numbers::{EndApart, NumberApart, SharedTerms};

/// K15: a row that is a multiple of another was deleted, and the other one's sides were met with its sides over the factor.
#[derive(Drop)]
pub struct ParallelRows {
    /// The row that was deleted.
    pub row: u32,
    /// The row that was kept.
    pub kept: u32,
    /// The deleted row is the kept one times this.
    pub factor: NumberApart,
    /// The kept row's lower side before.
    pub lower: EndApart,
    /// The kept row's upper side before.
    pub upper: EndApart,
    /// The kept row's entries, by column id.
    pub entries: SharedTerms,
}

impl ParallelRows {
    /// Whether it is sound in a program of so many rows and columns.
    pub fn is_sound(&self, rows: usize, columns: usize) -> bool
        ensures { IsTrue result ↔ IsSound rows columns self.now }
    {
        are_two(self.row, self.kept, rows)
            && is_divisor(&self.factor.get())
            && ascend(self.entries.as_slice(), columns)
    }

    /// Whether all that it names is on.
    pub(crate) fn names_live(&self, rows: &[bool], columns: &[bool]) -> bool
        ensures { result ≡ (list_all (is_on rows.now) (rows_named self.now) && list_all (is_on columns.now) (columns_named self.now)) }
    {
        are_on(rows, &[self.row, self.kept]) && are_terms_on(columns, self.entries.as_slice())
    }
}
