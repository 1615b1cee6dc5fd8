//! The entries of one row.

ghost use Rattle.std.specs.Prelude.{◌≡◌, ◌==◌, OnOk, [], ◌∷◌, ◌++◌, None, is_some};
ghost use Rattle.std.specs.List.{list_any};
ghost use Rattle.mps_stores.specs.Entries.{value_in, IsOnce};

use fractions::frac::Frac;
use std::alloc::{AllocError, Global};
use std::marker::Model;

/// A number at the place of a column.
#[derive(Clone, Copy)]
pub struct Entry {
    pub column: usize,
    pub value: Frac,
}

/// The entries of a row, in the order in which they were added. Each column has one at most.
#[derive(Drop)]
pub struct Row {
    entries: Vec<Entry>,
    // no entry has a column above this
    highest: usize,
}

impl Model for Row {
    ghost use Rattle.std.specs.Prelude.{List};
    ghost use Rattle.std.specs.Coded.{codes};
    ghost use Rattle.fractions.specs.Lowest.{number_code};
    ghost use Rattle.mps_stores.specs.declared.single_row.Entry.{Entry};
    ghost use Rattle.mps_stores.specs.Entries.{IsUpTo, IsOnce};

    ghost Value = { List Entry };

    ghost coded = { Prim.hlevel (codes, number_code) };

    ghost view = { λ row. row.entries.items };

    ghost invariant = { λ row. record { bounded : IsUpTo row.highest row.entries.items; once : IsOnce row.entries.items } };
}

/// Whether one of the entries has a column.
fn has_column(entries: &[Entry], column: usize) -> bool
    ensures { result ≡ list_any (λ entry. entry.column == column) entries.now }
{
    entries.iter().any(|entry| entry.column == column)
}

impl Row {
    /// A row without entries.
    pub fn empty(alloc: Global) -> Row
        ensures { result ≡ [] }
    {
        Row {
            entries: Vec::new(alloc),
            highest: 0,
        }
    }

    /// The entries, in the order in which they were added.
    pub fn as_slice(&self) -> &[Entry]
        ensures value { result.now ≡ self.now }
        ensures once { IsOnce self.now }
    {
        self.entries.as_slice()
    }

    /// Whether an entry has this column. This looks at no entry where the column is above all of theirs.
    pub fn names(&self, column: usize) -> bool
        ensures { result ≡ is_some (value_in self.now column) }
    {
        if self.highest < column {
            return false;
        }
        has_column(self.entries.as_slice(), column)
    }

    /// Adds an entry for a column that has none.
    ///
    /// # Errors
    ///
    /// Where there is no memory.
    pub fn push(&mut self, column: usize, value: Frac) -> Result<(), AllocError>
        requires { value_in self.old column ≡ None }
        ensures { OnOk result (self.new ≡ self.old ++ record { column = column; value = value } ∷ []) }
    {
        self.entries.push(Entry { column, value })?;
        self.highest = self.highest.max(column);
        Ok(())
    }
}
