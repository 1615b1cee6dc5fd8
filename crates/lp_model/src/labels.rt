//! Names by id.

ghost use Rattle.std.specs.Prelude.{◌≡◌, ℕ, ◌<◌, List, [], length, map, slice_index_or};

use crate::name::Name;
use crate::program::Program;

/// What tells how many columns and rows there are, and the name of each id.
pub trait Labels {
    /// The names of the columns, by id.
    ghost column_names: { Self → List (List ℕ) };

    /// The names of the rows, by id.
    ghost row_names: { Self → List (List ℕ) };

    /// The number of columns.
    fn column_count(&self) -> usize
        ensures { result ≡ length (column_names self.now) };

    /// The number of rows.
    fn row_count(&self) -> usize
        ensures { result ≡ length (row_names self.now) };

    /// The name of a column.
    fn column_name(&self, id: usize) -> &Name
        requires { id < length (column_names self.now) }
        ensures { result.now ≡ slice_index_or (column_names self.now) id [] };

    /// The name of a row.
    fn row_name(&self, id: usize) -> &Name
        requires { id < length (row_names self.now) }
        ensures { result.now ≡ slice_index_or (row_names self.now) id [] };
}

impl Labels for Program {
    ghost column_names = { λ p. map (λ c. c.name) p.columns };

    ghost row_names = { λ p. map (λ r. r.name) p.rows };

    fn column_count(&self) -> usize {
        self.columns().len()
    }

    fn row_count(&self) -> usize {
        self.rows().len()
    }

    fn column_name(&self, id: usize) -> &Name {
        &self.columns()[id].name
    }

    fn row_name(&self, id: usize) -> &Name {
        &self.rows()[id].name
    }
}
