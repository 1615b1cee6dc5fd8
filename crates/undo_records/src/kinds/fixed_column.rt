//! The record of K3.

ghost use Rattle.std.specs.Prelude.{◌≡◌, ◌↔◌, ◌&&◌, IsTrue};
ghost use Rattle.std.specs.List.{list_all};
ghost use Rattle.undo_records.specs.Ids.{is_on};
ghost use Rattle.undo_records.specs.FixedColumn.{IsSound, columns_named, rows_named};

use crate::flags::{are_on, are_terms_on};
use crate::sound::{ascend, is_among};
use kept_numbers::KeptNumber;
use lp_model::Terms;

/// K3: a column with equal bounds was deleted.
#[derive(Drop)]
pub struct FixedColumn {
    /// The column.
    pub column: u32,
    /// Its value: both bounds.
    pub value: KeptNumber,
    /// Its cost, minimizing.
    pub cost: KeptNumber,
    /// Its entries, by row id.
    pub entries: Terms,
}

impl FixedColumn {
    /// Whether it is sound in a program of so many rows and columns.
    pub fn is_sound(&self, rows: usize, columns: usize) -> bool
        ensures { IsTrue result ↔ IsSound rows columns self.now }
    {
        is_among(self.column, columns) && ascend(self.entries.as_slice(), rows)
    }

    /// Whether all that it names is on.
    pub(crate) fn names_live(&self, rows: &[bool], columns: &[bool]) -> bool
        ensures { result ≡ (list_all (is_on rows.now) (rows_named self.now) && list_all (is_on columns.now) (columns_named self.now)) }
    {
        are_terms_on(rows, self.entries.as_slice()) && are_on(columns, &[self.column])
    }
}
