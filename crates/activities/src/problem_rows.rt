//! The activities of a row of a problem: as the sums that are kept of it tell, or by one walk along its entries.

ghost use Rattle.std.specs.Prelude.{◌≡◌, ◌≢◌, ◌∷◌, [], true, IfSome, Ok};
ghost use Rattle.lp_model.specs.Sparse.{dense};
ghost use Rattle.fractions.specs.Number.{zero_ℚ};
ghost use Rattle.problem_model.specs.Problems.{column_at, row_at};
ghost use Rattle.row_spans.specs.RowSums.{activity, all_finite, plus_end as with_end, row_sum, sum_from};
ghost use Rattle.row_spans.specs.Spans.{ends_at, left_in, others, span_of as span_with, spans_of as spans_with};
ghost use Rattle.kept_sums.specs.CommonSums.{IsCommonSum};
ghost use Rattle.activities.specs.Walks.{listed, spans_seen};
ghost use Rattle.row_spans.specs.declared.span.Extreme.TheVariants.{Least, Greatest};

use crate::entries::number_in;
use crate::spans::span_of;
use crate::sums::plus_end;
use fractions::Past;
use fractions::ext::Ext;
use fractions::frac::Frac;
use kept_sums::{CommonSum, told_activity, told_rest};
use lp_model::Term;
use row_spans::{Extreme, Span, bound_at};
use sparse_problem::Problem;

/// A term with its column's bounds, where the column is live and isn't left out.
fn span_seen(problem: &Problem, term: &Term, left_out: Option<u32>) -> Option<Span>
    ensures { listed result ≡ spans_seen problem.now left_out (term.now ∷ []) }
{
    if !problem.is_column_live(term.id) {
        return None;
    }
    match left_out {
        Some(column) if term.id == column => None,
        _ => Some(span_of(problem, term)),
    }
}

/// Whether what a term gives is finite.
fn is_finite(problem: &Problem, extreme: Extreme, term: &Term, left_out: Option<u32>) -> bool
    ensures { result ≡ all_finite (ends_at extreme (spans_seen problem.now left_out (term.now ∷ []))) }
{
    match span_seen(problem, term, left_out) {
        None => true,
        Some(span) => !bound_at(extreme, &span).is_none(),
    }
}

/// A sum with what a term gives.
fn plus_term(
    total: &Frac,
    problem: &Problem,
    extreme: Extreme,
    term: &Term,
    left_out: Option<u32>,
) -> Result<Frac, Past>
    ensures { result ≡ sum_from total.now (ends_at extreme (spans_seen problem.now left_out (term.now ∷ []))) }
{
    match span_seen(problem, term, left_out) {
        None => Ok(*total),
        Some(span) => plus_end(total, extreme, &span),
    }
}

/// Whether what each term gives is finite.
fn are_finite(problem: &Problem, extreme: Extreme, terms: &[Term], left_out: Option<u32>) -> bool
    ensures { result ≡ all_finite (ends_at extreme (spans_seen problem.now left_out terms.now)) }
{
    let mut rest = terms;
    while let [term, after @ ..] = rest {
        if !is_finite(problem, extreme, term, left_out) {
            return false;
        }
        rest = after;
    }
    true
}

/// The sum of what terms give.
fn sum_of(
    problem: &Problem,
    extreme: Extreme,
    terms: &[Term],
    left_out: Option<u32>,
) -> Result<Frac, Past>
    ensures { result ≡ sum_from zero_ℚ (ends_at extreme (spans_seen problem.now left_out terms.now)) }
{
    let mut total = Frac::zero();
    let mut rest = terms;
    while let [term, after @ ..] = rest {
        total = plus_term(&total, problem, extreme, term, left_out)?;
        rest = after;
    }
    Ok(total)
}

/// The least, or the greatest, activity of terms.
fn activity_of(
    problem: &Problem,
    extreme: Extreme,
    terms: &[Term],
    left_out: Option<u32>,
) -> Result<Ext, Past>
    ensures { result ≡ activity extreme (spans_seen problem.now left_out terms.now) }
{
    if !are_finite(problem, extreme, terms, left_out) {
        return Ok(Ext::none());
    }
    let total = sum_of(problem, extreme, terms, left_out)?;
    Ok(Ext::at(total))
}

/// An entry of a row, by its column, with that column's bounds. `None` where the row has none there, or the column is gone.
fn span_at(problem: &Problem, row: u32, column: u32) -> Option<Span>
    requires { (row_at problem.now row).live ≡ true }
    ensures live { IfSome result (λ s. (column_at problem.now column).live ≡ true) }
    ensures value { IfSome result (λ s. s ≡ span_with problem.now (record { id = column; value = dense (row_at problem.now row).entries column })) }
    ensures some { IfSome result (λ s. dense (row_at problem.now row).entries column ≢ zero_ℚ) }
{
    if !problem.is_column_live(column) {
        return None;
    }
    let value = number_in(problem, row, column);
    if value.is_zero() {
        return None;
    }
    Some(span_of(problem, &Term { id: column, value }))
}

/// The activity without a column that a sum of a whole row tells.
fn told_without(
    problem: &Problem,
    sum: &CommonSum,
    extreme: Extreme,
    row: u32,
    column: u32,
) -> Option<Ext>
    requires live { (row_at problem.now row).live ≡ true }
    requires sum { IsCommonSum (ends_at extreme (spans_with problem.now row)) sum.now }
    ensures { IfSome result (λ e. activity extreme (others column (spans_with problem.now row)) ≡ Ok e) }
{
    problem.is_sparse();
    // Where two terms are infinite, one is left without the column.
    if sum.infinite > 1 {
        return Some(Ext::none());
    }
    let span = span_at(problem, row, column)?;
    told_rest(sum, extreme, &span)
}

/// The activity that a sum of a whole row tells.
fn told_by(
    problem: &Problem,
    sum: &CommonSum,
    extreme: Extreme,
    row: u32,
    left_out: Option<u32>,
) -> Option<Ext>
    requires live { (row_at problem.now row).live ≡ true }
    requires sum { IsCommonSum (ends_at extreme (spans_with problem.now row)) sum.now }
    ensures { IfSome result (λ e. activity extreme (left_in left_out (spans_with problem.now row)) ≡ Ok e) }
{
    match left_out {
        None => Some(told_activity(sum)),
        Some(column) => told_without(problem, sum, extreme, row, column),
    }
}

/// The activity that is told by what is kept of a row, if something is.
fn told(problem: &Problem, extreme: Extreme, row: u32, left_out: Option<u32>) -> Option<Ext>
    requires { (row_at problem.now row).live ≡ true }
    ensures { IfSome result (λ e. activity extreme (left_in left_out (spans_with problem.now row)) ≡ Ok e) }
{
    let kept = problem.kept_sums(row)?;
    match extreme {
        Extreme::Least => told_by(problem, &kept.least, Extreme::Least, row, left_out),
        Extreme::Greatest => told_by(problem, &kept.greatest, Extreme::Greatest, row, left_out),
    }
}

/// The least, or the greatest, activity of a row.
fn row_activity(
    problem: &Problem,
    extreme: Extreme,
    row: u32,
    left_out: Option<u32>,
) -> Result<Ext, Past>
    requires { (row_at problem.now row).live ≡ true }
    ensures { result ≡ activity extreme (left_in left_out (spans_with problem.now row)) }
{
    match told(problem, extreme, row, left_out) {
        Some(value) => Ok(value),
        None => {
            let line = problem.row_line(row);
            activity_of(problem, extreme, line.entries.as_slice(), left_out)
        }
    }
}

/// The least activity of a row, whole or with one column left out.
///
/// # Errors
/// [`Past`] exactly where all terms are finite and one of them, or a step of their sum in order, has no room.
pub fn least(problem: &Problem, row: u32, left_out: Option<u32>) -> Result<Ext, Past>
    requires { (row_at problem.now row).live ≡ true }
    ensures { result ≡ activity Least (left_in left_out (spans_with problem.now row)) }
{
    row_activity(problem, Extreme::Least, row, left_out)
}

/// The greatest activity of a row, whole or with one column left out.
///
/// # Errors
/// [`Past`] exactly where all terms are finite and one of them, or a step of their sum in order, has no room.
pub fn greatest(problem: &Problem, row: u32, left_out: Option<u32>) -> Result<Ext, Past>
    requires { (row_at problem.now row).live ≡ true }
    ensures { result ≡ activity Greatest (left_in left_out (spans_with problem.now row)) }
{
    row_activity(problem, Extreme::Greatest, row, left_out)
}
