//! Sums of the terms before each term, and rests that are continued from there.

ghost use Rattle.std.specs.Prelude.{◌≡◌, ◌++◌, IfOk, Ok};
ghost use Rattle.fractions.specs.Number.{zero_ℚ};
ghost use Rattle.row_spans.specs.Spans.{end_at, ends_at};
ghost use Rattle.row_spans.specs.RowSums.{all_finite as all_are_finite, row_sum, sum_from as sum_on};
ghost use Rattle.activities.specs.Prefixes.{sums_before as all_before, with_end};

use crate::sums::{all_finite, plus_end, sum_from};
use fractions::Past;
use fractions::ext::Ext;
use fractions::frac::Frac;
use row_spans::{Extreme, Span};
use std::alloc::{AllocError, Global};

/// A sum, that may be past, with one term more.
fn plus_term(total: &Result<Frac, Past>, extreme: Extreme, span: &Span) -> Result<Frac, Past>
    ensures { result ≡ with_end total.now (end_at extreme span.now) }
{
    match total {
        Ok(total) => plus_end(total, extreme, span),
        Err(past) => Err(*past),
    }
}

/// The sums before each term.
pub(crate) fn sums_before(
    alloc: Global,
    extreme: Extreme,
    spans: &[Span],
) -> Result<Vec<Result<Frac, Past>>, AllocError>
    ensures { IfOk result (λ sums. sums.items ≡ all_before (Ok zero_ℚ) (ends_at extreme spans.now)) }
{
    let mut sums = Vec::with_capacity(alloc, spans.len())?;
    let mut total = Ok(Frac::zero());
    let mut rest = spans;
    while let [span, after @ ..] = rest {
        sums.push(total)?;
        total = plus_term(&total, extreme, span);
        rest = after;
    }
    Ok(sums)
}

/// Whether each term is finite, of two pieces of a row.
#[tactic(auto, using(crate::proofs::Pieces::pieces))]
fn both_finite(extreme: Extreme, before: &[Span], after: &[Span]) -> bool
    ensures { result ≡ all_are_finite (ends_at extreme (before.now ++ after.now)) }
{
    all_finite(extreme, before) && all_finite(extreme, after)
}

/// The sum of two pieces of a row, where that of the first is known.
#[tactic(auto, using(crate::proofs::Pieces::pieces))]
fn sum_of_both(
    total: Result<Frac, Past>,
    extreme: Extreme,
    before: &[Span],
    after: &[Span],
) -> Result<Frac, Past>
    requires { total ≡ sum_on zero_ℚ (ends_at extreme before.now) }
    ensures { result ≡ sum_on zero_ℚ (ends_at extreme (before.now ++ after.now)) }
{
    sum_from(total?, extreme, after)
}

/// The activity of two pieces of a row, where the sum of the first is known.
pub(crate) fn continued_from(
    total: Result<Frac, Past>,
    extreme: Extreme,
    before: &[Span],
    after: &[Span],
) -> Result<Ext, Past>
    requires { total ≡ sum_on zero_ℚ (ends_at extreme before.now) }
    ensures { result ≡ row_sum (ends_at extreme (before.now ++ after.now)) }
{
    if !both_finite(extreme, before, after) {
        return Ok(Ext::none());
    }
    let sum = sum_of_both(total, extreme, before, after)?;
    Ok(Ext::at(sum))
}
