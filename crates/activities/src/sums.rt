//! Sums of a row's terms, in order.

ghost use Rattle.std.specs.Prelude.{◌≡◌, ◌++◌, length};
ghost use Rattle.row_spans.specs.Spans.{end_at, ends_at};
ghost use Rattle.row_spans.specs.RowSums.{all_finite as all_are_finite, plus_end as with_end, sum_from as sum_on};

use fractions::Past;
use fractions::frac::Frac;
use row_spans::exact::sum;
use row_spans::{Extreme, Span, bound_at, end_of};

/// A sum with one term more. A term that is infinite adds nothing.
pub(crate) fn plus_end(total: &Frac, extreme: Extreme, span: &Span) -> Result<Frac, Past>
    ensures { result ≡ with_end total.now (end_at extreme span.now) }
{
    match end_of(extreme, span)?.number() {
        None => Ok(*total),
        Some(term) => sum(total, &term),
    }
}

/// Whether each term is finite.
pub(crate) fn all_finite(extreme: Extreme, spans: &[Span]) -> bool
    ensures { result ≡ all_are_finite (ends_at extreme spans.now) }
{
    let mut rest = spans;
    while let [span, after @ ..] = rest {
        if bound_at(extreme, span).is_none() {
            return false;
        }
        rest = after;
    }
    true
}

/// The sum from a number on.
pub(crate) fn sum_from(start: Frac, extreme: Extreme, spans: &[Span]) -> Result<Frac, Past>
    ensures { result ≡ sum_on start (ends_at extreme spans.now) }
{
    let mut total = start;
    let mut rest = spans;
    while let [span, after @ ..] = rest {
        total = plus_end(&total, extreme, span)?;
        rest = after;
    }
    Ok(total)
}
