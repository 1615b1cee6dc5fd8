//! The sums of the statement that is open, by column.

ghost use Rattle.std.specs.Prelude.{◌≡◌, ◌==◌, ◌&&◌, ◌<◌, ℕ, ◌+ℤ◌, pos, [], ◌∷◌, ◌++◌, length, true, IfSome, IfNone, OnOk, if◌then◌else◌};
ghost use Rattle.fractions.specs.Number.{of_ℤ};
ghost use Rattle.opb_text.specs.Statements.{in_range};
ghost use Rattle.opb_columns.specs.Sums.{Covered, IsIn, sum_in};

use fractions::Past;
use fractions::frac::Frac;
use fractions::whole::Whole;
use mps_stores::Entry;
use std::alloc::{AllocError, Global};

/// The sum of the terms of each column, in the statement that is open.
#[derive(Drop)]
pub struct Sums {
    /// The sums, by column.
    pub values: Vec<Whole>,
    /// The columns whose sums may be other than 0.
    pub touched: Vec<usize>,
    /// Whether no step of a sum was past the range.
    pub fits: bool,
}

impl Sums {
    /// The sums of no columns.
    pub fn new(alloc: Global) -> Sums
        ensures values { result.values.items ≡ [] }
        ensures touched { result.touched.items ≡ [] }
        ensures fits { result.fits ≡ true }
    {
        Sums {
            values: Vec::new(alloc),
            touched: Vec::new(alloc),
            fits: true,
        }
    }

    /// A column comes in, whose sum is 0.
    pub fn grow(&mut self) -> Result<(), AllocError>
        ensures values { OnOk result (self.new.values.items ≡ self.old.values.items ++ pos 0 ∷ []) }
        ensures touched { self.new.touched ≡ self.old.touched }
        ensures fits { self.new.fits ≡ self.old.fits }
    {
        self.values.push(Whole::natural(0))?;
        Ok(())
    }

    /// Notes that the sum of a column may become other than 0.
    fn touch(&mut self, column: usize) -> Result<(), AllocError>
        requires { column < length self.old.values.items }
        ensures values { self.new.values ≡ self.old.values }
        ensures fits { self.new.fits ≡ self.old.fits }
        ensures covered { OnOk result (Covered self.old.values.items self.old.touched.items → Covered self.new.values.items self.new.touched.items) }
        ensures column { OnOk result (sum_in self.old.values.items column ≡ pos 0 → IsIn column self.new.touched.items) }
    {
        if self.values[column].size() == 0 {
            self.touched.push(column)?;
        }
        Ok(())
    }

    /// Adds a number to the sum of a column. A column past the last is left out.
    ///
    /// # Errors
    /// Where there is no memory.
    pub fn add(&mut self, column: usize, value: Whole) -> Result<(), AllocError>
        ensures count { length self.new.values.items ≡ length self.old.values.items }
        ensures fits { column < length self.old.values.items → OnOk result (self.new.fits ≡ (self.old.fits && in_range (sum_in self.old.values.items column +ℤ value))) }
        ensures added { column < length self.old.values.items → OnOk result (self.new.fits ≡ true → (j : ℕ) → sum_in self.new.values.items j ≡ (if column == j then sum_in self.old.values.items j +ℤ value else sum_in self.old.values.items j)) }
        ensures covered { OnOk result (Covered self.old.values.items self.old.touched.items → Covered self.new.values.items self.new.touched.items) }
    {
        if column >= self.values.len() {
            return Ok(());
        }
        self.touch(column)?;
        match self.values[column].plus(value) {
            Ok(sum) => self.values[column] = sum,
            Err(Past) => self.fits = false,
        }
        Ok(())
    }

    /// Takes a column's sum out, which leaves it 0; none where no column was touched.
    pub fn take(&mut self) -> Option<Entry>
        ensures count { length self.new.values.items ≡ length self.old.values.items }
        ensures fits { self.new.fits ≡ self.old.fits }
        ensures taken { IfSome result (λ entry. (entry.value ≡ of_ℤ (sum_in self.old.values.items entry.column)) × ((j : ℕ) → sum_in self.new.values.items j ≡ (if entry.column == j then pos 0 else sum_in self.old.values.items j))) }
        ensures shorter { IfSome result (λ entry. length self.new.touched.items < length self.old.touched.items) }
        ensures covered { Covered self.old.values.items self.old.touched.items → Covered self.new.values.items self.new.touched.items }
        ensures none { IfNone result ((self.old.touched.items ≡ []) × (self.new.touched.items ≡ []) × (self.new.values.items ≡ self.old.values.items)) }
    {
        let column = self.touched.pop()?;
        if column >= self.values.len() {
            let value = Frac::zero();
            return Some(Entry { column, value });
        }
        let value = Frac::whole(self.values[column]);
        self.values[column] = Whole::natural(0);
        Some(Entry { column, value })
    }
}
