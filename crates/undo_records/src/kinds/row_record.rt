//! K1, K5 and K6: a record of a row by itself.

ghost use Rattle.std.specs.Prelude.{◌≡◌, ◌↔◌, IsTrue};
ghost use Rattle.std.specs.List.{list_all};
ghost use Rattle.undo_records.specs.Ids.{is_on};
ghost use Rattle.undo_records.specs.RowRecord.{IsSound, rows_named};

use crate::flags::are_on;
use crate::sound::is_among;

/// A row by itself. K1: it had no entries and was deleted. K5: each point within the bounds meets it, and it was deleted. K6: each point
/// within the bounds meets one of its sides, which became infinite.
#[derive(Drop)]
pub struct RowRecord {
    /// The row.
    pub row: u32,
}

impl RowRecord {
    /// Whether it is sound in a program of so many rows.
    pub fn is_sound(&self, rows: usize) -> bool
        ensures { IsTrue result ↔ IsSound rows self.now }
    {
        is_among(self.row, rows)
    }

    /// Whether all that it names is on.
    pub(crate) fn names_live(&self, rows: &[bool]) -> bool
        ensures { result ≡ list_all (is_on rows.now) (rows_named self.now) }
    {
        are_on(rows, &[self.row])
    }
}
