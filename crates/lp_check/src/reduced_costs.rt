//! The columns' reduced costs.

ghost use Rattle.std.specs.Prelude.{◌≡◌, ◌<◌, ◌^◌, length, map, IfOk, MatchOption, None};
ghost use Rattle.lp_model.specs.Vectors.{vector_of};
ghost use Rattle.lp_model.specs.Writable.{EntriesAscend};
ghost use Rattle.lp_model.specs.Gaps.{gap_of, reach_lower, reach_upper};
ghost use Rattle.lp_model.specs.Meaning.{meaning};
ghost use Rattle.lp_model.specs.Optimality.{Continuous};
ghost use Rattle.lp_model.specs.Senses.{Sits};
ghost use Rattle.lp_check.specs.declared.verdicts.Item.TheVariants.{Cost};
ghost use Rattle.lp_check.specs.Deciding.{EarlierPassIn};
ghost use Rattle.lp_check.specs.DecidingPairs.{IsMisplaced, DualsPass, ReducedCostPassesIn, ReducedCostsPassIn, DecidesPairIn};
ghost use Rattle.lp_check.specs.Numbered.{numbered_found, numbered_pair};

use crate::pair_verdicts::{Misplaced, PairVerdict};
use crate::placing::misplaced;
use exact_numbers::Exact;
use lp_model::{ColumnDef, Program, Sense};
use lp_prices::reduced_cost;
use std::alloc::{AllocError, Global};

/// What is said of the reduced cost of a column that is not semi-continuous.
///
/// # Errors
/// [`AllocError`] where there is no memory for the numbers.
#[tactic(auto, using(crate::proofs::Breaking::no_gap))]
fn misplaced_cost<T: Exact>(
    alloc: Global,
    sense: Sense,
    multiplier: &T,
    value: &T,
    column: &ColumnDef,
) -> Result<Option<Misplaced<T>>, AllocError>
    requires { gap_of column.now.semi column.now.lower column.now.upper ≡ None }
    ensures { IfOk result (λ found. MatchOption found (Sits sense (reach_lower column.now.semi column.now.lower column.now.upper) (reach_upper column.now.semi column.now.lower column.now.upper) (T.number value.now) (T.number multiplier.now))
        (λ found. IsMisplaced sense (T.number multiplier.now) (T.number value.now) (reach_lower column.now.semi column.now.lower column.now.upper) (reach_upper column.now.semi column.now.lower column.now.upper) (numbered_found T.number found))) }
{
    misplaced(
        alloc,
        sense,
        multiplier,
        value,
        &column.lower,
        &column.upper,
    )
}

/// No or past, where the reduced cost of a column does not pass.
///
/// # Errors
/// [`AllocError`] where there is no memory for the reduced cost or the numbers of the verdict.
fn reduced_cost_verdict<T: Exact>(
    alloc: Global,
    program: &Program,
    point: &[T],
    duals: &[T],
    column: u32,
) -> Result<Option<PairVerdict<T>>, AllocError>
    requires long { length point.now ≡ length program.now.columns }
    requires each { length duals.now ≡ length program.now.rows }
    requires ascends { EntriesAscend program.now }
    requires within { column < length program.now.columns }
    requires continuous { Continuous (meaning program.now) }
    ensures { IfOk result (λ found. EarlierPassIn T.room (meaning program.now) (vector_of (map T.number point.now)) Cost
        → DualsPass program.now.sense (meaning program.now) (vector_of (map T.number point.now)) (vector_of (map T.number duals.now)) (length program.now.rows)
        → ReducedCostsPassIn T.room program.now.sense (meaning program.now) (vector_of (map T.number point.now)) (vector_of (map T.number duals.now)) column
        → MatchOption found (ReducedCostPassesIn T.room program.now.sense (meaning program.now) (vector_of (map T.number point.now)) (vector_of (map T.number duals.now)) column)
        (λ verdict. DecidesPairIn T.room program.now.sense (meaning program.now) (vector_of (map T.number point.now)) (vector_of (map T.number duals.now)) (numbered_pair T.number verdict))) }
{
    let id = column as usize;
    let bounds = &program.columns()[id];
    match reduced_cost(alloc, program, id, duals) {
        Ok(multiplier) => {
            match misplaced_cost(alloc, program.sense(), &multiplier, &point[id], bounds)? {
                Some(found) => Ok(Some(PairVerdict::ReducedCost { column, found })),
                None => Ok(None),
            }
        }
        Err(why) => {
            if T::says_past(why) {
                return Ok(Some(PairVerdict::PastReducedCost { column }));
            }
            Err(AllocError)
        }
    }
}

/// No or past, by the first column whose reduced cost does not pass.
///
/// # Errors
/// [`AllocError`] where there is no memory for a reduced cost or the numbers of the verdict.
pub fn failing_reduced_cost<T: Exact>(
    alloc: Global,
    program: &Program,
    point: &[T],
    duals: &[T],
) -> Result<Option<PairVerdict<T>>, AllocError>
    requires long { length point.now ≡ length program.now.columns }
    requires each { length duals.now ≡ length program.now.rows }
    requires few { length program.now.columns < 2 ^ 32 }
    requires ascends { EntriesAscend program.now }
    requires continuous { Continuous (meaning program.now) }
    requires point { EarlierPassIn T.room (meaning program.now) (vector_of (map T.number point.now)) Cost }
    requires duals { DualsPass program.now.sense (meaning program.now) (vector_of (map T.number point.now)) (vector_of (map T.number duals.now)) (length program.now.rows) }
    ensures { IfOk result (λ found. MatchOption found (ReducedCostsPassIn T.room program.now.sense (meaning program.now) (vector_of (map T.number point.now)) (vector_of (map T.number duals.now)) (length program.now.columns))
        (λ verdict. DecidesPairIn T.room program.now.sense (meaning program.now) (vector_of (map T.number point.now)) (vector_of (map T.number duals.now)) (numbered_pair T.number verdict))) }
{
    for j in 0..program.columns().len() {
        if let Some(verdict) = reduced_cost_verdict(alloc, program, point, duals, j as u32)? {
            return Ok(Some(verdict));
        }
    }
    Ok(None)
}
