//! The verdict on a point, and on a point with duals.

ghost use Rattle.std.specs.Prelude.{◌≡◌, ◌<◌, ◌^◌, length, map, IfOk};
ghost use Rattle.lp_model.specs.Vectors.{vector_of};
ghost use Rattle.lp_model.specs.Meaning.{meaning};
ghost use Rattle.lp_model.specs.Writable.{EntriesAscend};
ghost use Rattle.lp_model.specs.Optimality.{Continuous};
ghost use Rattle.lp_check.specs.Summing.{AreRowSumsIn};
ghost use Rattle.lp_check.specs.Deciding.{ColumnsPassIn, RowsPassIn, DecidesIn};
ghost use Rattle.lp_check.specs.DecidingPairs.{DecidesPairIn};
ghost use Rattle.lp_check.specs.Numbered.{numbered, numbered_pair};

use crate::columns::failing_column;
use crate::costs::cost_verdict;
use crate::duals::failing_dual;
use crate::pair_verdicts::PairVerdict;
use crate::reduced_costs::failing_reduced_cost;
use crate::rows::failing_row;
use crate::sums::{RowSum, row_sums};
use crate::verdicts::Verdict;
use exact_numbers::Exact;
use lp_model::Program;
use std::alloc::{AllocError, Global};

/// The verdict on a point, by numbers of a kind: that of the first item that does not pass, and yes with the cost where each item
/// does. The items are the columns by id, the rows by id, and the cost. A row's value and the cost are summed by ascending column,
/// from 0 on, the cost's constant last; where a product or a step has no room in the kind, the item is past.
///
/// It goes over each entry once, and holds one sum for each row.
///
/// # Errors
/// [`AllocError`] where there is no memory for these sums or for a number.
pub fn judge_point<T: Exact>(
    alloc: Global,
    program: &Program,
    point: &[T],
) -> Result<Verdict<T>, AllocError>
    requires long { length point.now ≡ length program.now.columns }
    requires few_rows { length program.now.rows < 2 ^ 32 }
    requires few_columns { length program.now.columns < 2 ^ 32 }
    ensures { IfOk result (λ verdict. DecidesIn T.room (meaning program.now) (vector_of (map T.number point.now)) (numbered T.number verdict)) }
{
    if let Some(verdict) = failing_column(alloc, program, point)? {
        return Ok(verdict);
    }
    let sums = row_sums(alloc, program, point)?;
    match failing_row(alloc, program, sums.as_slice())? {
        Some(verdict) => Ok(verdict),
        None => cost_verdict(alloc, program, point),
    }
}

/// The verdict on a point with duals, where all columns and rows pass.
///
/// # Errors
/// [`AllocError`] where there is no memory for a number.
fn multipliers_verdict<T: Exact>(
    alloc: Global,
    program: &Program,
    point: &[T],
    duals: &[T],
    sums: &[RowSum<T>],
) -> Result<PairVerdict<T>, AllocError>
    requires long { length point.now ≡ length program.now.columns }
    requires each { length duals.now ≡ length program.now.rows }
    requires few_rows { length program.now.rows < 2 ^ 32 }
    requires few_columns { length program.now.columns < 2 ^ 32 }
    requires ascends { EntriesAscend program.now }
    requires continuous { Continuous (meaning program.now) }
    requires sums { AreRowSumsIn T.number T.room (meaning program.now) (vector_of (map T.number point.now)) (length program.now.columns) sums.now }
    requires columns { ColumnsPassIn T.room (meaning program.now) (vector_of (map T.number point.now)) (length program.now.columns) }
    requires rows { RowsPassIn T.room (meaning program.now) (vector_of (map T.number point.now)) (length program.now.rows) }
    ensures { IfOk result (λ verdict. DecidesPairIn T.room program.now.sense (meaning program.now) (vector_of (map T.number point.now)) (vector_of (map T.number duals.now)) (numbered_pair T.number verdict)) }
{
    if let Some(verdict) = failing_dual(alloc, program, duals, sums)? {
        return Ok(verdict);
    }
    match failing_reduced_cost(alloc, program, point, duals)? {
        Some(verdict) => Ok(verdict),
        None => Ok(PairVerdict::OnPoint(cost_verdict(alloc, program, point)?)),
    }
}

/// The verdict on a point with duals, by numbers of a kind: that of the first item that does not pass, and yes with the cost where
/// each item does. The items are the columns and the rows as for a point, then the duals by row, the reduced costs by column, and
/// the cost. A reduced cost is the column's cost less the sum of its entries, each times the dual of its row; the sum goes by
/// ascending row, from 0 on. In a minimized program a dual above 0 passes where the row's value is at the lower side, and one below
/// 0 where it is at the upper side; in a maximized one it is the other way round. So do reduced costs, by the columns' bounds.
///
/// Where no column has to be whole or is semi-continuous, yes is a proof that no feasible point has a better cost ([`laws`](crate::laws)).
///
/// It goes over each entry twice, and holds one sum for each row.
///
/// # Errors
/// [`AllocError`] where there is no memory for these sums or for a number.
pub fn judge_pair<T: Exact>(
    alloc: Global,
    program: &Program,
    point: &[T],
    duals: &[T],
) -> Result<PairVerdict<T>, AllocError>
    requires long { length point.now ≡ length program.now.columns }
    requires each { length duals.now ≡ length program.now.rows }
    requires few_rows { length program.now.rows < 2 ^ 32 }
    requires few_columns { length program.now.columns < 2 ^ 32 }
    requires ascends { EntriesAscend program.now }
    requires continuous { Continuous (meaning program.now) }
    ensures { IfOk result (λ verdict. DecidesPairIn T.room program.now.sense (meaning program.now) (vector_of (map T.number point.now)) (vector_of (map T.number duals.now)) (numbered_pair T.number verdict)) }
{
    if let Some(verdict) = failing_column(alloc, program, point)? {
        return Ok(PairVerdict::OnPoint(verdict));
    }
    let sums = row_sums(alloc, program, point)?;
    match failing_row(alloc, program, sums.as_slice())? {
        Some(verdict) => Ok(PairVerdict::OnPoint(verdict)),
        None => multipliers_verdict(alloc, program, point, duals, sums.as_slice()),
    }
}
