//! K12: a row of two entries that is an equation puts one of its columns in place of the other.

ghost use Rattle.std.specs.Prelude.{◌≡◌, ◌++◌, ◌∷◌, [], ⊤, true, IfOk, OnOk};
ghost use Rattle.lp_model.specs.Sparse.{without};
ghost use Rattle.rule_words.specs.Answers.{Answers, Changes};
ghost use Rattle.aggregation_laws.specs.DoubletonEquation.{column_joined, edits, enabled, others, record_of, Computes};
ghost use Rattle.aggregation_rules.specs.Looks.{equation_at, is_pair as is_pair_of};

use crate::equation::{Equation, equation_of, is_in_range, is_pair, keeps_whole};
use crate::new_bounds::{Range, new_bounds};
use crate::new_entries::new_entries;
use crate::new_numbers::{Costs, new_costs, quotients_of};
use crate::record::record_for;
use lp_model::{Term, Terms};
use problem_model::{Edit, Refusal};
use rule_words::Change;
use singleton_rules::moved_sides::add_sides;
use sparse_problem::Problem;
use std::alloc::{AllocError, Global};

/// Whether a row is an equation of two columns alone, no bounds of theirs are crossed, and what is whole stays so.
#[tactic(auto, using(crate::proofs::Looks::enabled_is))]
pub fn is_enabled(problem: &Problem, row: u32, column: u32, other: u32) -> bool
    ensures { result ≡ enabled problem.now row column other }
{
    is_pair(problem, row, column, other)
        && is_in_range(problem, row, column, other)
        && keeps_whole(problem, row, column, other)
}

/// Adds a term with another id than this.
fn keep_other(items: &mut Vec<Term>, term: Term, id: u32) -> Result<(), AllocError>
    ensures { OnOk result (items.new.items ≡ items.old.items ++ without id (term ∷ [])) }
{
    if term.id != id {
        items.push(term)?;
    }
    Ok(())
}

/// The terms with other ids than this.
fn terms_without(alloc: Global, terms: &[Term], id: u32) -> Result<Terms, AllocError>
    ensures { IfOk result (λ kept. kept ≡ without id terms.now) }
{
    let mut items = Vec::with_capacity(alloc, terms.len())?;
    for term in terms {
        keep_other(&mut items, *term, id)?;
    }
    Ok(Terms::new(items))
}

/// The entries of a column but that in a row.
fn other_terms(alloc: Global, problem: &Problem, row: u32, column: u32) -> Result<Terms, AllocError>
    ensures { IfOk result (λ kept. kept ≡ others problem.now row column) }
{
    let entries = problem.column_terms(alloc, column)?;
    terms_without(alloc, entries.as_slice(), row)
}

/// Adds what the kept column gets, and that the row and the other column go.
fn add_joined(
    all: &mut Vec<Edit>,
    row: u32,
    column: u32,
    other: u32,
    costs: &Costs,
    range: &Range,
) -> Result<(), AllocError>
    ensures { OnOk result (all.new.items ≡ all.old.items ++ column_joined row column other costs.now.cost range.now.lower range.now.upper costs.now.amount) }
{
    all.push(Edit::SetCost {
        column: other,
        cost: costs.cost,
    })?;
    all.push(Edit::SetBounds {
        column: other,
        lower: range.lower,
        upper: range.upper,
    })?;
    all.push(Edit::AddOffset {
        amount: costs.amount,
    })?;
    all.push(Edit::DeleteRow { row })?;
    all.push(Edit::DeleteColumn { column })?;
    Ok(())
}

/// The edits by an equation and the other entries of the column that goes.
///
/// # Errors
/// Past where one of their numbers is.
fn edits_for(
    alloc: Global,
    problem: &Problem,
    row: u32,
    column: u32,
    other: u32,
    equation: &Equation,
    terms: &[Term],
) -> Result<Vec<Edit>, Refusal>
    requires pair { is_pair_of problem.now row column other ≡ true }
    requires equation { equation.now ≡ equation_at problem.now row column other }
    requires terms { terms.now ≡ others problem.now row column }
    ensures { Answers (Computes problem.now row column other) ⊤ (λ all. all.items ≡ edits problem.now row column other) result }
{
    problem.is_sparse();
    let Ok(quotients) = quotients_of(equation) else {
        return Err(Refusal::Past);
    };
    let mut all = match new_entries(alloc, problem, other, terms, &quotients.factor) {
        Ok(all) => all,
        Err(refusal) => return Err(refusal),
    };
    if let Err(refusal) = add_sides(&mut all, problem, terms, &quotients.shift) {
        return Err(refusal);
    }
    let Ok(costs) = new_costs(problem, column, other, &quotients) else {
        return Err(Refusal::Past);
    };
    let Ok(range) = new_bounds(problem, column, other, equation) else {
        return Err(Refusal::Past);
    };
    add_joined(&mut all, row, column, other, &costs, &range)?;
    Ok(all)
}

/// The change: the other entries of the column that goes are put into the kept column and into the sides of their rows, its cost and its
/// bounds into those of the kept column, and it goes with the row.
///
/// # Errors
/// Past where one of the quotients, products and differences is.
pub fn change(
    alloc: Global,
    problem: &Problem,
    row: u32,
    column: u32,
    other: u32,
) -> Result<Change, Refusal>
    requires { enabled problem.now row column other ≡ true }
    ensures { Changes (Computes problem.now row column other) (edits problem.now row column other) (record_of problem.now row column other) result }
{
    let equation = equation_of(problem, row, column, other);
    let entries = other_terms(alloc, problem, row, column)?;
    let edits = match edits_for(
        alloc,
        problem,
        row,
        column,
        other,
        &equation,
        entries.as_slice(),
    ) {
        Ok(edits) => edits,
        Err(refusal) => return Err(refusal),
    };
    let undo = record_for(alloc, problem, row, column, other, &equation, entries)?;
    Ok(Change { edits, undo })
}
