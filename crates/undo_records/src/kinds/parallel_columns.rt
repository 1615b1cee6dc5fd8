//! The record of K16.

ghost use Rattle.std.specs.Prelude.{◌≡◌, ◌↔◌, IsTrue};
ghost use Rattle.std.specs.List.{list_all};
ghost use Rattle.undo_records.specs.Ids.{is_on};
ghost use Rattle.undo_records.specs.ParallelColumns.{IsSound, columns_named};

use crate::flags::are_on;
use crate::sound::{are_two, is_divisor};
use kept_numbers::{EndApart, NumberApart};

/// K16: a column that is a multiple of another was merged into it and deleted.
#[derive(Drop)]
pub struct ParallelColumns {
    /// The column that was deleted.
    pub column: u32,
    /// The column that was kept.
    pub kept: u32,
    /// The deleted column is the kept one times this.
    pub factor: NumberApart,
    /// The deleted column's lower bound.
    pub lower: EndApart,
    /// The deleted column's upper bound.
    pub upper: EndApart,
    /// The kept column's lower bound before.
    pub kept_lower: EndApart,
    /// The kept column's upper bound before.
    pub kept_upper: EndApart,
}

impl ParallelColumns {
    /// Whether it is sound in a program of so many columns.
    pub fn is_sound(&self, columns: usize) -> bool
        ensures { IsTrue result ↔ IsSound columns self.now }
    {
        are_two(self.column, self.kept, columns) && is_divisor(&self.factor.get())
    }

    /// Whether all that it names is on.
    pub(crate) fn names_live(&self, columns: &[bool]) -> bool
        ensures { result ≡ list_all (is_on columns.now) (columns_named self.now) }
    {
        are_on(columns, &[self.column, self.kept])
    }
}
