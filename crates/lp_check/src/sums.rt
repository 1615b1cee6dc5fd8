//! The sums of all rows, in one pass over the columns.

ghost use Rattle.std.specs.Prelude.{◌≡◌, ◌≢◌, ℕ, ◌+◌, ◌<◌, ◌≤◌, ◌^◌, All, length, map, option_map, IfOk, OnOk};
ghost use Rattle.lp_model.specs.Vectors.{Vector, vector_of};
ghost use Rattle.lp_model.specs.Sparse.{dense};
ghost use Rattle.lp_model.specs.Meaning.{meaning};
ghost use Rattle.lp_prices.specs.Prices.{IsSumIn};
ghost use Rattle.lp_check.specs.Summing.{IsRowSumIn, CountsIn, AreRowSumsIn, IsNoSum, sum_of};

use exact_numbers::Exact;
use fractions::frac::Frac;
use lp_model::{Program, RowDef, Term};
use lp_prices::plus_product;
use std::alloc::{AllocError, Global};

/// The sum of a row's products over the columns so far.
#[derive(Drop)]
pub struct RowSum<T> {
    /// The sum; none where a product or a step had no room.
    pub sum: Option<T>,
    /// One more than the id of the last column that was counted.
    pub counted: u32,
}

/// A sum with one more product, if both have room.
///
/// # Errors
/// [`AllocError`] where there is no memory for it.
fn with_product<T: Exact>(
    alloc: Global,
    sum: &Option<T>,
    factor: &Frac,
    number: &T,
) -> Result<Option<T>, AllocError>
    ensures { IfOk result (λ more. (n : ℕ) (a x : Vector) → factor.now ≡ a n → T.number number.now ≡ x n → IsSumIn T.room n a x (option_map T.number sum.now) → IsSumIn T.room (n + 1) a x (option_map T.number more)) }
{
    let Some(sum) = sum else {
        return Ok(None);
    };
    match plus_product(alloc, sum, factor, number) {
        Ok(more) => Ok(Some(more)),
        Err(why) => {
            if T::says_past(why) {
                return Ok(None);
            }
            Err(AllocError)
        }
    }
}

impl<T: Exact> RowSum<T> {
    /// The sum of no products.
    fn none() -> RowSum<T>
        ensures { IsNoSum T.number result }
    {
        RowSum {
            sum: Some(T::zero()),
            counted: 0,
        }
    }

    /// Counts the product of a column, if none of that column was counted.
    ///
    /// # Errors
    /// [`AllocError`] where there is no memory for the sum.
    fn count(
        &mut self,
        alloc: Global,
        column: u32,
        factor: &Frac,
        number: &T,
    ) -> Result<(), AllocError>
        requires { column + 1 < 2 ^ 32 }
        ensures { OnOk result (CountsIn T.number T.room column factor.now (T.number number.now) self.old self.new) }
    {
        if self.counted <= column {
            self.sum = with_product(alloc, &self.sum, factor, number)?;
            self.counted = column + 1;
        }
        Ok(())
    }
}

/// Counts the product of a column in the row of an entry, if there is such a row.
///
/// # Errors
/// [`AllocError`] where there is no memory for the sum.
fn count_entry<T: Exact>(
    alloc: Global,
    sums: &mut [RowSum<T>],
    entry: &Term,
    column: u32,
    number: &T,
) -> Result<(), AllocError>
    requires { column + 1 < 2 ^ 32 }
    ensures own { OnOk result (entry.now.id < length sums.old → CountsIn T.number T.room column entry.now.value (T.number number.now) (sum_of sums.old entry.now.id) (sum_of sums.new entry.now.id)) }
    ensures others { (i : ℕ) → i ≢ entry.now.id → sum_of sums.new i ≡ sum_of sums.old i }
{
    let id = entry.id as usize;
    if id < sums.len() {
        let row = &mut sums[id];
        row.count(alloc, column, &entry.value, number)?;
    }
    Ok(())
}

/// Counts the products of a column in the rows that it has entries in. Of two entries in one row the first counts.
///
/// # Errors
/// [`AllocError`] where there is no memory for a sum.
fn count_column<T: Exact>(
    alloc: Global,
    sums: &mut [RowSum<T>],
    entries: &[Term],
    column: u32,
    number: &T,
) -> Result<(), AllocError>
    requires { column + 1 < 2 ^ 32 }
    ensures { OnOk result ((i : ℕ) (a x : Vector) → i < length sums.old → a column ≡ dense entries.now i → x column ≡ T.number number.now
        → IsRowSumIn T.number T.room column a x (sum_of sums.old i) → IsRowSumIn T.number T.room (column + 1) a x (sum_of sums.new i)) }
{
    for entry in entries {
        count_entry(alloc, sums, entry, column, number)?;
    }
    Ok(())
}

/// A sum of no products for each row.
///
/// # Errors
/// [`AllocError`] where there is no memory for these sums.
fn no_sums<T: Exact>(alloc: Global, rows: &[RowDef]) -> Result<Vec<RowSum<T>>, AllocError>
    ensures long { IfOk result (λ sums. length sums.items ≡ length rows.now) }
    ensures each { IfOk result (λ sums. All (IsNoSum T.number) sums.items) }
{
    let mut sums = Vec::with_capacity(alloc, rows.len())?;
    for _ in rows {
        sums.push(RowSum::none())?;
    }
    Ok(sums)
}

/// The sum of each row at a point, by row id.
///
/// # Errors
/// [`AllocError`] where there is no memory for these sums.
pub fn row_sums<T: Exact>(
    alloc: Global,
    program: &Program,
    point: &[T],
) -> Result<Vec<RowSum<T>>, AllocError>
    requires long { length point.now ≡ length program.now.columns }
    requires few { length program.now.columns < 2 ^ 32 }
    ensures { IfOk result (λ sums. AreRowSumsIn T.number T.room (meaning program.now) (vector_of (map T.number point.now)) (length program.now.columns) sums.items) }
{
    let columns = program.columns();
    let mut sums = no_sums(alloc, program.rows())?;
    for j in 0..columns.len() {
        count_column(
            alloc,
            sums.as_mut_slice(),
            columns[j].entries.as_slice(),
            j as u32,
            &point[j],
        )?;
    }
    Ok(sums)
}
