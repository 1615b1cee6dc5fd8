//! K4, K10 and K17: a record of a column by itself.

ghost use Rattle.std.specs.Prelude.{◌≡◌, ◌↔◌, IsTrue};
ghost use Rattle.std.specs.List.{list_all};
ghost use Rattle.undo_records.specs.Ids.{is_on};
ghost use Rattle.undo_records.specs.ColumnRecord.{IsSound, columns_named};

use crate::flags::are_on;
use crate::sound::is_among;

/// A column by itself. K4: its bounds were rounded inwards, as it is whole. K10: it does no good in any row and was fixed where it costs
/// least. K17: it has no entries and was fixed where it costs least.
#[derive(Drop)]
pub struct ColumnRecord {
    /// The column.
    pub column: u32,
}

impl ColumnRecord {
    /// Whether it is sound in a program of so many columns.
    pub fn is_sound(&self, columns: usize) -> bool
        ensures { IsTrue result ↔ IsSound columns self.now }
    {
        is_among(self.column, columns)
    }

    /// Whether all that it names is on.
    pub(crate) fn names_live(&self, columns: &[bool]) -> bool
        ensures { result ≡ list_all (is_on columns.now) (columns_named self.now) }
    {
        are_on(columns, &[self.column])
    }
}
