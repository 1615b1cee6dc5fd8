//! K9: the coefficient of a whole column shrinks in a row with one finite side, and the side with it.

ghost use Rattle.std.specs.Prelude.{◌≡◌, ◌∷◌, [], true, IfOk};
ghost use Rattle.problem_model.specs.Problems.{column_at, row_at};
ghost use Rattle.problem_model.specs.declared.edit.Edit.TheVariants as edit;
ghost use Rattle.rule_words.specs.Answers.{Changes};
ghost use Rattle.row_spans.specs.RowSums.{rest};
ghost use Rattle.row_spans.specs.Spans.{span_of as span_with, spans_among, spans_of};
ghost use Rattle.activity_laws.specs.BoundTightening.{entry_at as entry_with};
ghost use Rattle.coef_laws.specs.CoefficientTightening.{Computes, edits, enabled, extreme_of, record_of, side_set as set_side, tightening_of as tightening_in};

use crate::new_numbers::{new_coefficient, new_limit};
use crate::values::{one_side, tightened_at};
use activities::rows::is_uncrossed;
use activities::{greatest, least};
use coef_laws::Tightening;
use fractions::Past;
use fractions::ext::Ext;
use fractions::frac::Frac;
use lp_model::Term;
use problem_model::{Edit, Refusal};
use row_spans::Span;
use rule_words::Change;
use sparse_problem::Problem;
use std::alloc::{AllocError, Global};
use undo_records::{CoefficientTightening, Side, Undo};

/// A term with the bounds of its column.
fn span_of(problem: &Problem, term: &Term) -> Span
    requires { (column_at problem.now term.now.id).live ≡ true }
    ensures { result ≡ span_with problem.now term.now }
{
    let bounds = problem.bounds(term.id);
    Span {
        id: term.id,
        value: term.value,
        lower: bounds.reach_lower(),
        upper: bounds.reach_upper(),
        whole: bounds.whole,
        semi: bounds.semi,
    }
}

/// The term of a live column with the column's bounds.
fn entry_among(problem: &Problem, terms: &[Term], column: u32) -> Option<Span>
    ensures { result ≡ entry_with column (spans_among problem.now terms.now) }
{
    let mut rest = terms;
    while let [term, after @ ..] = rest {
        if term.id == column && problem.is_column_live(term.id) {
            return Some(span_of(problem, term));
        }
        rest = after;
    }
    None
}

/// The entry of a row in a column, with the column's bounds.
fn entry_at(problem: &Problem, row: u32, column: u32) -> Option<Span>
    requires { (row_at problem.now row).live ≡ true }
    ensures { result ≡ entry_with column (spans_of problem.now row) }
{
    let line = problem.row_line(row);
    entry_among(problem, line.entries.as_slice(), column)
}

/// The extreme of a row without a column that is the greatest of f times it.
fn rest_without(problem: &Problem, row: u32, column: u32, side: Side) -> Result<Ext, Past>
    requires { (row_at problem.now row).live ≡ true }
    ensures { result ≡ rest (extreme_of side) column (spans_of problem.now row) }
{
    match side {
        Side::Lower => least(problem, row, Some(column)),
        Side::Upper => greatest(problem, row, Some(column)),
    }
}

/// How a row is tightened at the coefficient of a column.
fn tightening_of(problem: &Problem, row: u32, column: u32) -> Option<Tightening>
    requires { (row_at problem.now row).live ≡ true }
    ensures { result ≡ tightening_in problem.now row column }
{
    let Some((side, limit)) = one_side(&problem.sides(row)) else {
        return None;
    };
    let Some(span) = entry_at(problem, row, column) else {
        return None;
    };
    tightened_at(
        side,
        &limit,
        &span,
        rest_without(problem, row, column, side),
    )
}

/// Whether nothing of a row is crossed, and it can be tightened at the coefficient of a column.
#[tactic(auto, using(crate::proofs::Looks::enabled_is))]
pub fn is_enabled(problem: &Problem, row: u32, column: u32) -> bool
    ensures { result ≡ enabled problem.now row column }
{
    is_uncrossed(problem, row) && tightening_of(problem, row, column).is_some()
}

/// A row gets this side alone.
fn side_set(side: Side, row: u32, limit: Frac) -> Edit
    ensures { result ≡ set_side side row limit }
{
    match side {
        Side::Lower => Edit::SetSides {
            row,
            lower: Ext::at(limit),
            upper: Ext::none(),
        },
        Side::Upper => Edit::SetSides {
            row,
            lower: Ext::none(),
            upper: Ext::at(limit),
        },
    }
}

/// The entry becomes this, and then the row gets this side alone.
fn edits_for(
    alloc: Global,
    row: u32,
    column: u32,
    coefficient: Frac,
    sides: Edit,
) -> Result<Vec<Edit>, AllocError>
    ensures { IfOk result (λ edits. edits.items ≡ edit.SetEntry row column coefficient ∷ sides ∷ []) }
{
    let mut edits = Vec::with_capacity(alloc, 2)?;
    edits.push(Edit::SetEntry {
        row,
        column,
        value: coefficient,
    })?;
    edits.push(sides)?;
    Ok(edits)
}

/// The change: the coefficient and the side.
///
/// # Errors
/// Past where one of them, or the product by which the side moves, is.
#[tactic(auto, using(crate::proofs::Looks::enabled_is))]
pub fn change(alloc: Global, problem: &Problem, row: u32, column: u32) -> Result<Change, Refusal>
    requires { enabled problem.now row column ≡ true }
    ensures { Changes (Computes problem.now row column) (edits problem.now row column) (record_of problem.now row column) result }
{
    let Some(tightening) = tightening_of(problem, row, column) else {
        unreachable!()
    };
    let coefficient = new_coefficient(&tightening)?;
    let sides = side_set(tightening.side, row, new_limit(&tightening)?);
    Ok(Change {
        edits: edits_for(alloc, row, column, coefficient, sides)?,
        undo: Undo::CoefficientTightening(CoefficientTightening { row, column }),
    })
}
