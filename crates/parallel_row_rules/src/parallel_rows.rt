//! K15: a row that is a multiple of another one is joined to it.

ghost use Rattle.std.specs.Prelude.{◌≡◌, ◌∷◌, [], true, IfOk};
ghost use Rattle.problem_model.specs.declared.edit.Edit.TheVariants as edit;
ghost use Rattle.problem_model.specs.Problems.{row_at, row_entries, sides_at};
ghost use Rattle.undo_records.specs.declared.undo.Undo.TheVariants as undone;
ghost use Rattle.rule_words.specs.Answers.{Changes};
ghost use Rattle.parallel_laws.specs.ParallelRows.{edits, enabled, record_of, Computes};
ghost use Rattle.parallel_row_rules.specs.Looks.{are_as_many as as_many_are, are_two as two_are, is_times as times_is};

use crate::factor::{factor_if, factor_of};
use crate::joined_sides::{Range, joined_sides};
use fractions::frac::Frac;
use parallel_column_rules::walks::{are_times, entries_of};
use problem_model::{Edit, Refusal};
use rule_words::Change;
use sparse_problem::Problem;
use std::alloc::{AllocError, Global};
use undo_records::{EndApart, NumberApart, ParallelRows, SharedTerms, Undo};

/// Whether two rows are live, and differ.
fn are_two(problem: &Problem, row: u32, other: u32) -> bool
    ensures { result ≡ two_are problem.now row other }
{
    problem.is_row_live(row) && (problem.is_row_live(other) && row != other)
}

/// Whether two rows have as many entries.
fn are_as_many(problem: &Problem, row: u32, other: u32) -> bool
    ensures { result ≡ as_many_are problem.now row other }
{
    problem.live_row_entries(row) == problem.live_row_entries(other)
}

/// Whether a row is the factor that the two have times another one, if they have one.
fn is_times(problem: &Problem, row: u32, other: u32) -> bool
    requires first { (row_at problem.now row).live ≡ true }
    requires second { (row_at problem.now other).live ≡ true }
    ensures { result ≡ times_is problem.now row other }
{
    let Some(factor) = factor_if(problem, row, other) else {
        return false;
    };
    let entries = entries_of(&problem.rows(), row);
    let others = entries_of(&problem.rows(), other);
    are_times(&problem.columns(), &factor, entries, others)
}

/// Whether a row that has an entry is a multiple of another one. The walk along both ends at the first column that refuses, and rows that have
/// not as many entries are told apart before it.
#[tactic(auto, using(crate::proofs::Looks::enabled_is))]
pub fn is_enabled(problem: &Problem, row: u32, other: u32) -> bool
    ensures { result ≡ enabled problem.now row other }
{
    are_two(problem, row, other)
        && (are_as_many(problem, row, other) && is_times(problem, row, other))
}

/// The edits: the kept row gets its sides, and the other one goes.
fn edits_for(alloc: Global, row: u32, other: u32, range: &Range) -> Result<Vec<Edit>, AllocError>
    ensures { IfOk result (λ all. all.items ≡ edit.SetSides other range.now.lower range.now.upper ∷ edit.DeleteRow row ∷ []) }
{
    let mut all = Vec::with_capacity(alloc, 2)?;
    all.push(Edit::SetSides {
        row: other,
        lower: range.lower,
        upper: range.upper,
    })?;
    all.push(Edit::DeleteRow { row })?;
    Ok(all)
}

/// The record, with the sides that the kept row had, and its entries.
fn record_for(
    alloc: Global,
    problem: &Problem,
    row: u32,
    other: u32,
    factor: &Frac,
) -> Result<Undo, AllocError>
    requires { (row_at problem.now other).live ≡ true }
    ensures { IfOk result (λ u. u ≡ undone.ParallelRows (record { row = row; kept = other; factor = factor.now; lower = (sides_at problem.now other).lower; upper = (sides_at problem.now other).upper; entries = row_entries problem.now other })) }
{
    let kept = problem.sides(other);
    Ok(Undo::ParallelRows(ParallelRows {
        row,
        kept: other,
        factor: NumberApart::new(alloc, *factor)?,
        lower: EndApart::new(alloc, kept.lower)?,
        upper: EndApart::new(alloc, kept.upper)?,
        entries: SharedTerms::new(alloc, problem.row_terms(alloc, other)?)?,
    }))
}

/// The change: the kept row gets its sides met with those of the other one over the factor, and that one goes.
///
/// # Errors
/// Past where one of the quotients is.
#[tactic(auto, using(crate::proofs::Looks::first_live, crate::proofs::Looks::second_live, crate::proofs::Looks::factor_some))]
pub fn change(alloc: Global, problem: &Problem, row: u32, other: u32) -> Result<Change, Refusal>
    requires { enabled problem.now row other ≡ true }
    ensures { Changes (Computes problem.now row other) (edits problem.now row other) (record_of problem.now row other) result }
{
    problem.is_sparse();
    let factor = factor_of(problem, row, other);
    let range = joined_sides(problem, row, other, &factor)?;
    let edits = edits_for(alloc, row, other, &range)?;
    Ok(Change {
        edits,
        undo: record_for(alloc, problem, row, other, &factor)?,
    })
}
