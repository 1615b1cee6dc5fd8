//! The record.

ghost use Rattle.std.specs.Prelude.{◌≡◌, true, IfOk};
ghost use Rattle.problem_model.specs.Problems.{bounds_at, column_at, cost_at};
ghost use Rattle.undo_records.specs.declared.undo.Undo.TheVariants as undone;

use crate::equation::Equation;
use lp_model::Terms;
use sparse_problem::Problem;
use std::alloc::{AllocError, Global};
use undo_records::{DoubletonEquation, EndApart, NumberApart, TermsApart, Undo};

/// The record of an equation by which a column went, with its other entries and the bounds that the kept column had.
pub fn record_for(
    alloc: Global,
    problem: &Problem,
    row: u32,
    column: u32,
    other: u32,
    equation: &Equation,
    entries: Terms,
) -> Result<Undo, AllocError>
    requires first { (column_at problem.now column).live ≡ true }
    requires second { (column_at problem.now other).live ≡ true }
    ensures { IfOk result (λ u. u ≡ undone.DoubletonEquation (record { row = row; column = column; kept = other; value = equation.now.value; kept_value = equation.now.kept_value; equal = equation.now.equal; lower = (bounds_at problem.now other).lower; upper = (bounds_at problem.now other).upper; cost = cost_at problem.now column; entries = entries })) }
{
    let bounds = problem.bounds(other);
    Ok(Undo::DoubletonEquation(DoubletonEquation {
        row,
        column,
        kept: other,
        value: NumberApart::new(alloc, equation.value)?,
        kept_value: NumberApart::new(alloc, equation.kept_value)?,
        equal: NumberApart::new(alloc, equation.equal)?,
        lower: EndApart::new(alloc, bounds.lower)?,
        upper: EndApart::new(alloc, bounds.upper)?,
        cost: NumberApart::new(alloc, problem.cost(column))?,
        entries: TermsApart::new(alloc, entries)?,
    }))
}
