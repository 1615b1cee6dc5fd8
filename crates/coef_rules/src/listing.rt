//! All columns of a row at which its coefficient is tightened.

ghost use Rattle.std.specs.Prelude.{◌≡◌, ◌<◌, ◌++◌, ◌∷◌, [], false, true, length, map, IfNone, IfOk, IfSome, None, Ok, OnOk};
ghost use Rattle.std.specs.List.{filter};
ghost use Rattle.problem_model.specs.Problems.{row_at, row_entries};
ghost use Rattle.row_spans.specs.RowSums.{activity};
ghost use Rattle.row_spans.specs.Spans.{span_at, spans_of};
ghost use Rattle.coef_laws.specs.CoefficientTightening.{enabled, extreme_of as extreme, tightened_in};
ghost use Rattle.coef_rules.specs.Columns.{any_longer, any_whole, ids_among, is_whole_column, IsExcess, NoneTightened};

use crate::values::{extreme_of, magnitude, one_side, tightened_at, turned, whole_bounds};
use activities::rows::is_uncrossed;
use activities::{RowSums, greatest, least};
use coef_laws::Tightening;
use fractions::Past;
use fractions::frac::Frac;
use lp_model::Term;
use row_spans::exact::difference;
use sparse_problem::Problem;
use std::alloc::{AllocError, Global};
use undo_records::Side;

/// How a row with this side alone is tightened at the entry at a place. Rests are made at whole columns with finite bounds alone.
#[tactic(auto, using(crate::proofs::Columns::tightened_here))]
fn tightened_there(sums: &RowSums, side: Side, limit: &Frac, place: usize) -> Option<Tightening>
    requires { place < length sums.now }
    ensures { result ≡ tightened_in side limit.now (span_at sums.now place).id sums.now }
{
    let span = &sums.spans()[place];
    if whole_bounds(span).is_none() {
        return None;
    }
    tightened_at(side, limit, span, sums.rest(extreme_of(side), place))
}

/// Adds the column of the entry at a place, if the row is tightened there.
fn add_column(
    sums: &RowSums,
    side: Side,
    limit: &Frac,
    place: usize,
    found: &mut Vec<u32>,
) -> Result<(), AllocError>
    requires { place < length sums.now }
    ensures { OnOk result (found.new.items ≡ found.old.items ++ ids_among side limit.now sums.now (span_at sums.now place ∷ [])) }
{
    let span = &sums.spans()[place];
    if tightened_there(sums, side, limit, place).is_some() {
        found.push(span.id)?;
    }
    Ok(())
}

/// Adds the columns of a row with this side alone at which it is tightened.
fn add_columns(
    sums: &RowSums,
    side: Side,
    limit: &Frac,
    found: &mut Vec<u32>,
) -> Result<(), AllocError>
    ensures { OnOk result (found.new.items ≡ found.old.items ++ ids_among side limit.now sums.now sums.now) }
{
    for place in 0..sums.spans().len() {
        add_column(sums, side, limit, place, found)?;
    }
    Ok(())
}

/// Whether a column is live and whole, and not semi-continuous.
fn is_whole(problem: &Problem, column: u32) -> bool
    ensures { result ≡ is_whole_column problem.now column }
{
    if !problem.is_column_live(column) {
        return false;
    }
    let bounds = problem.bounds(column);
    !bounds.semi && bounds.whole
}

/// Whether one of the columns that terms name is.
fn some_whole(problem: &Problem, terms: &[Term]) -> bool
    ensures { result ≡ any_whole problem.now terms.now }
{
    let mut rest = terms;
    while let [term, after @ ..] = rest {
        if is_whole(problem, term.id) {
            return true;
        }
        rest = after;
    }
    false
}

/// The entries of a row.
fn entries_of(problem: &Problem, row: u32) -> &[Term]
    ensures { result.now ≡ (row_at problem.now row).entries }
{
    problem.rows().entries(row)
}

/// Whether one of the columns of a row is.
fn has_whole(problem: &Problem, row: u32) -> bool
    ensures { result ≡ any_whole problem.now (row_at problem.now row).entries }
{
    some_whole(problem, entries_of(problem, row))
}

/// By how much the greatest of f times a row passes its side: none where it is infinite.
///
/// # Errors
/// Past where a sum is.
fn excess(problem: &Problem, row: u32, side: Side, limit: &Frac) -> Result<Option<Frac>, Past>
    requires { (row_at problem.now row).live ≡ true }
    ensures none { IfOk result (λ e. IfNone e (activity (extreme side) (spans_of problem.now row) ≡ Ok None)) }
    ensures some { IfOk result (λ e. IfSome e (λ x. IsExcess side limit.now (spans_of problem.now row) x)) }
{
    let most = match side {
        Side::Lower => least(problem, row, None)?,
        Side::Upper => greatest(problem, row, None)?,
    };
    match most.number() {
        None => Ok(None),
        Some(most) => Ok(Some(difference(&turned(side, &most), &turned(side, limit))?)),
    }
}

/// Whether a value of terms is longer than a number.
fn some_longer(terms: &[Term], number: &Frac) -> bool
    ensures { result ≡ any_longer number.now terms.now }
{
    let mut rest = terms;
    while let [term, after @ ..] = rest {
        if number.lt(&magnitude(&term.value)) {
            return true;
        }
        rest = after;
    }
    false
}

/// Whether a row with this side alone passes it by less than one of its coefficients, as one that is tightened does. True where that isn't told.
fn may_shrink(problem: &Problem, row: u32, side: Side, limit: &Frac) -> bool
    requires { (row_at problem.now row).live ≡ true }
    ensures { result ≡ false → NoneTightened side limit.now (spans_of problem.now row) }
{
    problem.is_sparse();
    match excess(problem, row, side, limit) {
        Err(_) => true,
        Ok(None) => false,
        Ok(Some(excess)) => {
            excess.is_positive() && some_longer(entries_of(problem, row), &excess)
        }
    }
}

/// Adds the columns of a row whose coefficients there can be tightened, in the order of the row's entries. The row is summed once, and not
/// at all where none of its columns is whole.
///
/// # Errors
/// Memory ran out.
pub fn add_tightened(
    alloc: Global,
    problem: &Problem,
    row: u32,
    found: &mut Vec<u32>,
) -> Result<(), AllocError>
    ensures { OnOk result (found.new.items ≡ found.old.items ++ filter (λ j. enabled problem.now row j) (map (λ t. t.id) (row_entries problem.now row))) }
{
    if !is_uncrossed(problem, row) {
        return Ok(());
    }
    let Some(only) = one_side(&problem.sides(row)) else {
        return Ok(());
    };
    if !has_whole(problem, row) {
        return Ok(());
    }
    if !may_shrink(problem, row, only.0, &only.1) {
        return Ok(());
    }
    let sums = RowSums::of_row(alloc, problem, row)?;
    add_columns(&sums, only.0, &only.1, found)?;
    Ok(())
}
