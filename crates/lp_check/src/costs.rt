//! The cost of a point.

ghost use Rattle.std.specs.Prelude.{◌≡◌, length, map, IfErr, IfOk, IsOk};
ghost use Rattle.lp_model.specs.LinearProgram.{cost_at};
ghost use Rattle.lp_model.specs.Meaning.{meaning};
ghost use Rattle.lp_model.specs.Room.{CostFitsIn};
ghost use Rattle.lp_model.specs.Vectors.{vector_of};
ghost use Rattle.lp_check.specs.Deciding.{ColumnsPassIn, RowsPassIn, DecidesIn};
ghost use Rattle.lp_check.specs.Numbered.{numbered};

use crate::verdicts::{Item, Verdict};
use exact_numbers::Exact;
use lp_model::Program;
use lp_prices::plus_product;
use std::alloc::{AllocError, Global};

/// The cost of a point: the sum of costs times numbers, then the constant.
///
/// # Errors
/// Where a product or a step has no room, or there is no memory for it.
fn cost_of<T: Exact>(alloc: Global, program: &Program, point: &[T]) -> Result<T, T::Refusal>
    requires { length point.now ≡ length program.now.columns }
    ensures value { IfOk result (λ c. T.number c ≡ cost_at (meaning program.now) (vector_of (map T.number point.now))) }
    ensures fits { IsOk result → CostFitsIn T.room (meaning program.now) (vector_of (map T.number point.now)) }
    ensures past { IfErr result (λ why. T.is_past why → CostFitsIn T.room (meaning program.now) (vector_of (map T.number point.now)) → ⊥) }
{
    let columns = program.columns();
    let mut sum = T::zero();
    for j in 0..columns.len() {
        sum = plus_product(alloc, &sum, &columns[j].cost, &point[j])?;
    }
    let constant = T::of(&program.constant());
    sum.plus(alloc, &constant)
}

/// The verdict on the cost, where all columns and rows pass.
///
/// # Errors
/// [`AllocError`] where there is no memory for the cost.
pub fn cost_verdict<T: Exact>(
    alloc: Global,
    program: &Program,
    point: &[T],
) -> Result<Verdict<T>, AllocError>
    requires long { length point.now ≡ length program.now.columns }
    requires columns { ColumnsPassIn T.room (meaning program.now) (vector_of (map T.number point.now)) (length program.now.columns) }
    requires rows { RowsPassIn T.room (meaning program.now) (vector_of (map T.number point.now)) (length program.now.rows) }
    ensures { IfOk result (λ verdict. DecidesIn T.room (meaning program.now) (vector_of (map T.number point.now)) (numbered T.number verdict)) }
{
    match cost_of(alloc, program, point) {
        Ok(cost) => Ok(Verdict::Yes { cost }),
        Err(why) => {
            if T::says_past(why) {
                return Ok(Verdict::Past { item: Item::Cost });
            }
            Err(AllocError)
        }
    }
}
