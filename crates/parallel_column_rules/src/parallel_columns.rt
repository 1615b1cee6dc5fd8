//! K16: a column that is a multiple of another one is joined to it.

ghost use Rattle.std.specs.Prelude.{◌≡◌, ◌∷◌, [], true, IfOk};
ghost use Rattle.problem_model.specs.declared.edit.Edit.TheVariants as edit;
ghost use Rattle.problem_model.specs.Problems.{bounds_at, column_at};
ghost use Rattle.undo_records.specs.declared.undo.Undo.TheVariants as undone;
ghost use Rattle.rule_words.specs.Answers.{Changes};
ghost use Rattle.parallel_laws.specs.ParallelColumns.{edits, enabled, record_of, Computes};
ghost use Rattle.parallel_column_rules.specs.Looks.{are_two as two_are, factor_if as factor_there, is_times as times_is, joins_by, joins_if};

use crate::factor::{factor_if, factor_of};
use crate::joined_bounds::{Range, joined_bounds};
use crate::kinds::{are_in_order, are_of_a_kind};
use crate::walks::{are_times, entries_of, is_product};
use fractions::frac::Frac;
use problem_model::{Edit, Refusal};
use rule_words::Change;
use sparse_problem::Problem;
use std::alloc::{AllocError, Global};
use undo_records::{EndApart, NumberApart, ParallelColumns, Undo};

/// Whether two columns are live, and differ.
fn are_two(problem: &Problem, column: u32, other: u32) -> bool
    ensures { result ≡ two_are problem.now column other }
{
    problem.is_column_live(column) && (problem.is_column_live(other) && column != other)
}

/// Whether a column is a factor times another one, in its cost and in its entries.
fn is_times(problem: &Problem, column: u32, other: u32, factor: &Frac) -> bool
    requires first { (column_at problem.now column).live ≡ true }
    requires second { (column_at problem.now other).live ≡ true }
    ensures { result ≡ times_is problem.now column other factor.now }
{
    is_product(&problem.cost(column), factor, &problem.cost(other))
        && are_times(
            &problem.rows(),
            factor,
            entries_of(&problem.columns(), column),
            entries_of(&problem.columns(), other),
        )
}

/// Whether a column is a factor times another one, and their bounds let them join.
fn joins(problem: &Problem, column: u32, other: u32, factor: &Frac) -> bool
    requires first { (column_at problem.now column).live ≡ true }
    requires second { (column_at problem.now other).live ≡ true }
    ensures { result ≡ joins_by problem.now column other factor.now }
{
    let leaving = problem.bounds(column);
    let kept = problem.bounds(other);
    are_in_order(&leaving, &kept)
        && (are_of_a_kind(factor, &leaving, &kept) && is_times(problem, column, other, factor))
}

/// The same of the factor that two columns have, if they have one.
fn joins_if_any(problem: &Problem, column: u32, other: u32) -> bool
    requires first { (column_at problem.now column).live ≡ true }
    requires second { (column_at problem.now other).live ≡ true }
    ensures { result ≡ joins_if problem.now column other (factor_there problem.now column other) }
{
    match factor_if(problem, column, other) {
        Some(factor) => joins(problem, column, other, &factor),
        None => false,
    }
}

/// Whether a column is a multiple of another one, in its entries, of which it has one, and in its cost, no bounds are crossed, and both are
/// continuous, or whole with whole or infinite bounds and a factor of 1 or -1. The walk along both ends at the first row that refuses.
#[tactic(auto, using(crate::proofs::Looks::enabled_is))]
pub fn is_enabled(problem: &Problem, column: u32, other: u32) -> bool
    ensures { result ≡ enabled problem.now column other }
{
    are_two(problem, column, other) && joins_if_any(problem, column, other)
}

/// The edits: the kept column gets its bounds, and the other one goes.
fn edits_for(alloc: Global, column: u32, other: u32, range: &Range) -> Result<Vec<Edit>, AllocError>
    ensures { IfOk result (λ all. all.items ≡ edit.SetBounds other range.now.lower range.now.upper ∷ edit.DeleteColumn column ∷ []) }
{
    let mut all = Vec::with_capacity(alloc, 2)?;
    all.push(Edit::SetBounds {
        column: other,
        lower: range.lower,
        upper: range.upper,
    })?;
    all.push(Edit::DeleteColumn { column })?;
    Ok(all)
}

/// The record, with the bounds that both columns had.
fn record_for(
    alloc: Global,
    problem: &Problem,
    column: u32,
    other: u32,
    factor: &Frac,
) -> Result<Undo, AllocError>
    requires first { (column_at problem.now column).live ≡ true }
    requires second { (column_at problem.now other).live ≡ true }
    ensures { IfOk result (λ u. u ≡ undone.ParallelColumns (record { column = column; kept = other; factor = factor.now; lower = (bounds_at problem.now column).lower; upper = (bounds_at problem.now column).upper; kept_lower = (bounds_at problem.now other).lower; kept_upper = (bounds_at problem.now other).upper })) }
{
    let leaving = problem.bounds(column);
    let kept = problem.bounds(other);
    Ok(Undo::ParallelColumns(ParallelColumns {
        column,
        kept: other,
        factor: NumberApart::new(alloc, *factor)?,
        lower: EndApart::new(alloc, leaving.lower)?,
        upper: EndApart::new(alloc, leaving.upper)?,
        kept_lower: EndApart::new(alloc, kept.lower)?,
        kept_upper: EndApart::new(alloc, kept.upper)?,
    }))
}

/// The change: the kept column gets the bounds of itself and the factor times the other one, which goes.
///
/// # Errors
/// Past where one of the products and sums is.
#[tactic(auto, using(crate::proofs::Looks::first_live, crate::proofs::Looks::second_live, crate::proofs::Looks::factor_some))]
pub fn change(alloc: Global, problem: &Problem, column: u32, other: u32) -> Result<Change, Refusal>
    requires { enabled problem.now column other ≡ true }
    ensures { Changes (Computes problem.now column other) (edits problem.now column other) (record_of problem.now column other) result }
{
    problem.is_sparse();
    let factor = factor_of(problem, column, other);
    let range = joined_bounds(problem, column, other, &factor)?;
    let edits = edits_for(alloc, column, other, &range)?;
    Ok(Change {
        edits,
        undo: record_for(alloc, problem, column, other, &factor)?,
    })
}
