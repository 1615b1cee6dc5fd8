//! The rows of a program at a point.

ghost use Rattle.std.specs.Prelude.{◌≡◌, ℕ, ◌<◌, ◌≤◌, ◌^◌, length, option_map, IfOk, IfSome, MatchOption};
ghost use Rattle.lp_model.specs.Vectors.{Vector};
ghost use Rattle.lp_model.specs.Meaning.{meaning};
ghost use Rattle.lp_model.specs.LinearProgram.{LinearProgram};
ghost use Rattle.lp_check.specs.declared.verdicts.Item.TheVariants.{Row};
ghost use Rattle.lp_check.specs.Deciding.{ColumnsPassIn, RowsPassIn, PassesIn, EarlierPassIn, DecidesIn};
ghost use Rattle.lp_check.specs.DecidingPairs.{IsOnCost};
ghost use Rattle.lp_check.specs.Numbered.{numbered};
ghost use Rattle.lp_prices.specs.Prices.{IsSumIn};
ghost use Rattle.lp_check.specs.Summing.{AreRowSumsIn};

use crate::copies::copy_of;
use crate::limits::broken_limit;
use crate::sums::RowSum;
use crate::verdicts::{Item, Verdict};
use exact_numbers::Exact;
use lp_model::{Program, RowDef};
use std::alloc::{AllocError, Global};

/// No or past, where a row with this sum breaks a side or has no sum.
///
/// # Errors
/// [`AllocError`] where there is no memory for the value.
fn row_verdict<T: Exact>(
    alloc: Global,
    row: &RowDef,
    id: u32,
    sum: &Option<T>,
) -> Result<Option<Verdict<T>>, AllocError>
    ensures decides { IfOk result (λ found. (M : LinearProgram) (x : Vector) → id < M.rows → row.now.lower ≡ M.lower_side id → row.now.upper ≡ M.upper_side id → IsSumIn T.room M.columns (M.coefficient id) x (option_map T.number sum.now)
        → EarlierPassIn T.room M x (Row id) → MatchOption found (PassesIn T.room M x (Row id)) (λ verdict. DecidesIn T.room M x (numbered T.number verdict))) }
    ensures early { IfOk result (λ found. IfSome found (λ verdict. ¬ (IsOnCost (numbered T.number verdict)))) }
{
    let Some(value) = sum else {
        return Ok(Some(Verdict::Past {
            item: Item::Row(id),
        }));
    };
    let Some(limit) = broken_limit(&row.lower, &row.upper, false, value) else {
        return Ok(None);
    };
    Ok(Some(Verdict::No {
        item: Item::Row(id),
        value: copy_of(alloc, value)?,
        limit,
    }))
}

/// No or past, by the first row whose sum breaks a side or has no room.
///
/// # Errors
/// [`AllocError`] where there is no memory for the value.
pub fn failing_row<T: Exact>(
    alloc: Global,
    program: &Program,
    sums: &[RowSum<T>],
) -> Result<Option<Verdict<T>>, AllocError>
    requires long { length sums.now ≡ length program.now.rows }
    requires few { length program.now.rows < 2 ^ 32 }
    ensures decides { IfOk result (λ found. (x : Vector) → AreRowSumsIn T.number T.room (meaning program.now) x (length program.now.columns) sums.now → ColumnsPassIn T.room (meaning program.now) x (length program.now.columns)
        → MatchOption found (RowsPassIn T.room (meaning program.now) x (length program.now.rows)) (λ verdict. DecidesIn T.room (meaning program.now) x (numbered T.number verdict))) }
    ensures early { IfOk result (λ found. IfSome found (λ verdict. ¬ (IsOnCost (numbered T.number verdict)))) }
{
    let rows = program.rows();
    for i in 0..rows.len() {
        if let Some(verdict) = row_verdict(alloc, &rows[i], i as u32, &sums[i].sum)? {
            return Ok(Some(verdict));
        }
    }
    Ok(None)
}
