//! The entries of a row of a problem with the bounds of their columns.

ghost use Rattle.std.specs.Prelude.{◌≡◌, ◌++◌, ◌∷◌, [], true, List, IfOk, OnOk};
ghost use Rattle.problem_model.specs.Problems.{column_at};
ghost use Rattle.row_spans.specs.declared.span.Span.{Span as SpanValue};
ghost use Rattle.row_spans.specs.Spans.{span_of as span_with, spans_among, spans_of as spans_with};
ghost use Rattle.activities.specs.Spans.{with_zero};

use lp_model::Term;
use lp_model::ends::{reach_lower, reach_upper};
use row_spans::Span;
use sparse_problem::Problem;
use std::alloc::{AllocError, Global};

/// A term with its column's bounds, those of their hull with 0.
#[cold]
fn span_with_zero(problem: &Problem, term: &Term) -> Span
    requires { (column_at problem.now term.now.id).live ≡ true }
    ensures { result ≡ span_with problem.now term.now }
{
    let bounds = problem.bounds(term.id);
    Span {
        id: term.id,
        value: term.value,
        lower: bounds.reach_lower(),
        upper: bounds.reach_upper(),
        whole: bounds.whole,
        semi: bounds.semi,
    }
}

/// The same, with the bounds as they stand where the column isn't semi-continuous.
pub(crate) fn span_of(problem: &Problem, term: &Term) -> Span
    requires { (column_at problem.now term.now.id).live ≡ true }
    ensures { result ≡ span_with problem.now term.now }
{
    let bounds = problem.bounds(term.id);
    if bounds.semi {
        return span_with_zero(problem, term);
    }
    Span {
        id: term.id,
        value: term.value,
        lower: bounds.lower,
        upper: bounds.upper,
        whole: bounds.whole,
        semi: false,
    }
}

/// Takes 0 into the ends of the last of some entries.
#[cold]
fn take_zero_in(spans: &mut Vec<Span>)
    ensures { (before : List SpanValue) (s : SpanValue) → spans.old.items ≡ before ++ s ∷ [] → spans.new.items ≡ before ++ with_zero s ∷ [] }
{
    if let Some(span) = spans.last_mut() {
        let lower = reach_lower(span.semi, &span.lower, &span.upper);
        span.upper = reach_upper(span.semi, &span.lower, &span.upper);
        span.lower = lower;
    }
}

/// Adds a term with its column's bounds, where the column is live.
fn push_live(spans: &mut Vec<Span>, problem: &Problem, term: &Term) -> Result<(), AllocError>
    ensures { OnOk result (spans.new.items ≡ spans.old.items ++ spans_among problem.now (term.now ∷ [])) }
{
    if !problem.is_column_live(term.id) {
        return Ok(());
    }
    let bounds = problem.bounds(term.id);
    spans.push(Span {
        id: term.id,
        value: term.value,
        lower: bounds.lower,
        upper: bounds.upper,
        whole: bounds.whole,
        semi: bounds.semi,
    })?;
    if bounds.semi {
        take_zero_in(spans);
    }
    Ok(())
}

/// The terms at live columns, with those columns' bounds.
fn spans_of_terms(alloc: Global, problem: &Problem, terms: &[Term]) -> Result<Vec<Span>, AllocError>
    ensures { IfOk result (λ spans. spans.items ≡ spans_among problem.now terms.now) }
{
    let mut spans = Vec::with_capacity(alloc, terms.len())?;
    let mut rest = terms;
    while let [term, after @ ..] = rest {
        push_live(&mut spans, problem, term)?;
        rest = after;
    }
    Ok(spans)
}

/// The entries of a row in live columns, with those columns' bounds. A row past the last has none.
pub(crate) fn spans_of(alloc: Global, problem: &Problem, row: u32) -> Result<Vec<Span>, AllocError>
    ensures { IfOk result (λ spans. spans.items ≡ spans_with problem.now row) }
{
    spans_of_terms(alloc, problem, problem.rows().entries(row))
}
