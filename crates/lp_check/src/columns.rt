//! The columns of a program at a point.

ghost use Rattle.std.specs.Prelude.{◌≡◌, ◌<◌, ◌≤◌, ◌^◌, length, map, IfOk, IfSome, MatchOption};
ghost use Rattle.lp_model.specs.Vectors.{vector_of};
ghost use Rattle.lp_model.specs.Meaning.{meaning};
ghost use Rattle.lp_model.specs.Optimality.{Continuous};
ghost use Rattle.lp_check.specs.Deciding.{ColumnsPassIn, DecidesIn};
ghost use Rattle.lp_check.specs.DecidingPairs.{IsOnCost};
ghost use Rattle.lp_check.specs.FirstNotContinuous.{IsFirstNotContinuous};
ghost use Rattle.lp_check.specs.Limits.{KeepsData, BreaksData};
ghost use Rattle.lp_check.specs.Numbered.{numbered};

use crate::copies::copy_of;
use crate::limits::broken_limit;
use crate::verdicts::{Item, Limit, Verdict};
use exact_numbers::Exact;
use fractions::frac::Frac;
use lp_model::{ColumnDef, Program};
use std::alloc::{AllocError, Global};

/// The first limit of a column that a value breaks. A semi-continuous column may be 0.
fn limit_broken_by<T: Exact>(column: &ColumnDef, value: &T) -> Option<Limit>
    ensures { MatchOption result (KeepsData column.now (T.number value.now)) (λ limit. BreaksData column.now (T.number value.now) limit) }
{
    if column.semi && value.is_fraction(&Frac::zero()) {
        return None;
    }
    broken_limit(&column.lower, &column.upper, column.whole, value)
}

/// No, by the first column whose value breaks a limit.
///
/// # Errors
/// [`AllocError`] where there is no memory for the value.
pub fn failing_column<T: Exact>(
    alloc: Global,
    program: &Program,
    point: &[T],
) -> Result<Option<Verdict<T>>, AllocError>
    requires long { length point.now ≡ length program.now.columns }
    requires few { length program.now.columns < 2 ^ 32 }
    ensures decides { IfOk result (λ found. MatchOption found (ColumnsPassIn T.room (meaning program.now) (vector_of (map T.number point.now)) (length program.now.columns))
        (λ verdict. DecidesIn T.room (meaning program.now) (vector_of (map T.number point.now)) (numbered T.number verdict))) }
    ensures early { IfOk result (λ found. IfSome found (λ verdict. ¬ (IsOnCost (numbered T.number verdict)))) }
{
    let columns = program.columns();
    for j in 0..columns.len() {
        if let Some(limit) = limit_broken_by(&columns[j], &point[j]) {
            return Ok(Some(Verdict::No {
                item: Item::Column(j as u32),
                value: copy_of(alloc, &point[j])?,
                limit,
            }));
        }
    }
    Ok(None)
}

/// The first column, by id, that has to be whole or is semi-continuous.
pub fn first_not_continuous(program: &Program) -> Option<u32>
    requires { length program.now.columns < 2 ^ 32 }
    ensures { MatchOption result (Continuous (meaning program.now)) (λ j. IsFirstNotContinuous (meaning program.now) j) }
{
    let columns = program.columns();
    for j in 0..columns.len() {
        if columns[j].whole || columns[j].semi {
            return Some(j as u32);
        }
    }
    None
}
