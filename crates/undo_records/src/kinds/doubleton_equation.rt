//! The record of K12.

ghost use Rattle.std.specs.Prelude.{◌≡◌, ◌↔◌, ◌&&◌, IsTrue};
ghost use Rattle.std.specs.List.{list_all};
ghost use Rattle.undo_records.specs.Ids.{is_on};
ghost use Rattle.undo_records.specs.DoubletonEquation.{IsSound, columns_named, rows_named};

use crate::flags::{are_all_on, are_on};
use crate::sound::{are_others, are_two, is_divisor, is_entry};
use kept_numbers::{EndApart, NumberApart, TermsApart};

/// K12: an equation of two columns was solved for one of them; the row and that column were deleted.
#[derive(Drop)]
pub struct DoubletonEquation {
    /// The row.
    pub row: u32,
    /// The column that was deleted.
    pub column: u32,
    /// The column that was kept.
    pub kept: u32,
    /// The row's entry at the deleted column.
    pub value: NumberApart,
    /// The row's entry at the kept column.
    pub kept_value: NumberApart,
    /// What the row is equal to: both its sides.
    pub equal: NumberApart,
    /// The kept column's lower bound before.
    pub lower: EndApart,
    /// The kept column's upper bound before.
    pub upper: EndApart,
    /// The deleted column's cost, minimizing.
    pub cost: NumberApart,
    /// The deleted column's other entries, by row id.
    pub entries: TermsApart,
}

impl DoubletonEquation {
    /// Whether it is sound in a program of so many rows and columns.
    pub fn is_sound(&self, rows: usize, columns: usize) -> bool
        ensures { IsTrue result ↔ IsSound rows columns self.now }
    {
        is_entry(self.row, self.column, &self.value.get(), rows, columns)
            && are_two(self.column, self.kept, columns)
            && is_divisor(&self.kept_value.get())
            && are_others(self.entries.as_slice(), self.row, rows)
    }

    /// Whether all that it names is on.
    pub(crate) fn names_live(&self, rows: &[bool], columns: &[bool]) -> bool
        ensures { result ≡ (list_all (is_on rows.now) (rows_named self.now) && list_all (is_on columns.now) (columns_named self.now)) }
    {
        are_all_on(rows, self.row, self.entries.as_slice())
            && are_on(columns, &[self.column, self.kept])
    }
}
