//! What the terms of a problem's rows come to, over the least denominator that they have in common.

ghost use Rattle.std.specs.Prelude.{◌≡◌, ◌<◌, ◌≤◌, ◌^◌, ◌∷◌, [], length, true, IfNone, IfSome};
ghost use Rattle.problem_model.specs.Problems.{row_at};
ghost use Rattle.row_spans.specs.Spans.{spans_among, spans_of};
ghost use Rattle.kept_sums.specs.CommonSums.{AreOver};
ghost use Rattle.kept_sums.specs.RowTotals.{both_ends, no_sums, ArePastWith, AreSumsWith, AreTooHeavy, AreTotals, HaveRoomOver, IsLeastCommon, IsLeastWith, IsLight, IsTame};

use crate::kept_rows::span_of;
use kept_sums::{RowSums, RowTotals, denominator_with};
use lp_model::Term;
use problem_data::ProblemData;

/// The least multiple of a denominator over which both ends of a term can be written, where its column is live. `None` only where this, or
/// a numerator over it, is above 2^63.
fn denominator_with_term(parts: &ProblemData, common: u128, term: &Term) -> Option<u128>
    requires positive { 0 < common }
    requires short { common ≤ 2 ^ 63 }
    ensures some { IfSome result (IsLeastWith common (both_ends (spans_among parts.now (term.now ∷ [])))) }
    ensures none { IfNone result (ArePastWith common (spans_among parts.now (term.now ∷ []))) }
{
    if parts.is_column_live(term.id) {
        denominator_with(common, &span_of(parts, term))
    } else {
        Some(common)
    }
}

/// The least common denominator of the terms at live columns. `None` only where they are not tame.
fn denominator_of(parts: &ProblemData, terms: &[Term]) -> Option<u128>
    ensures some { IfSome result (λ d. IsLeastCommon d (both_ends (spans_among parts.now terms.now))) }
    ensures short { IfSome result (λ d. d ≤ 2 ^ 63) }
    ensures none { IfNone result (IsTame (spans_among parts.now terms.now) → ⊥) }
{
    let mut common = 1;
    let mut rest = terms;
    while let [term, after @ ..] = rest {
        common = denominator_with_term(parts, common, term)?;
        rest = after;
    }
    Some(common)
}

/// The sums over a denominator with a term more, where its column is live. `None` exactly where a sum of sizes is above 2^63.
fn sums_with_term(
    parts: &ProblemData,
    denominator: u128,
    sums: &RowSums,
    term: &Term,
) -> Option<RowSums>
    requires room { HaveRoomOver denominator sums.now }
    requires over { AreOver denominator (both_ends (spans_among parts.now (term.now ∷ []))) }
    ensures some { IfSome result (AreSumsWith denominator (spans_among parts.now (term.now ∷ [])) sums.now) }
    ensures none { IfNone result (AreTooHeavy denominator (spans_among parts.now (term.now ∷ [])) sums.now) }
{
    if parts.is_column_live(term.id) {
        sums.with(denominator, &span_of(parts, term))
    } else {
        Some(*sums)
    }
}

/// The sums of the terms at live columns over a denominator. `None` exactly where a sum of sizes is above 2^63.
fn sums_over(parts: &ProblemData, denominator: u128, terms: &[Term]) -> Option<RowSums>
    requires positive { 0 < denominator }
    requires short { denominator ≤ 2 ^ 63 }
    requires over { AreOver denominator (both_ends (spans_among parts.now terms.now)) }
    requires few { length terms.now < 2 ^ 32 }
    ensures some { IfSome result (AreSumsWith denominator (spans_among parts.now terms.now) no_sums) }
    ensures none { IfNone result (IsLight denominator (spans_among parts.now terms.now) → ⊥) }
{
    let mut sums = RowSums::none();
    let mut rest = terms;
    while let [term, after @ ..] = rest {
        sums = sums_with_term(parts, denominator, &sums, term)?;
        rest = after;
    }
    Some(sums)
}

/// What the terms at live columns come to. `None` exactly where they are not tame.
fn totals_of(parts: &ProblemData, terms: &[Term]) -> Option<RowTotals>
    requires few { length terms.now < 2 ^ 32 }
    ensures some { IfSome result (AreTotals (spans_among parts.now terms.now)) }
    ensures tame { IfSome result (λ r. IsTame (spans_among parts.now terms.now)) }
    ensures none { IfNone result (IsTame (spans_among parts.now terms.now) → ⊥) }
{
    let denominator = denominator_of(parts, terms)?;
    let sums = sums_over(parts, denominator, terms)?;
    Some(RowTotals {
        denominator,
        least: sums.least.total,
        greatest: sums.greatest.total,
        least_infinite: sums.least.infinite,
        greatest_infinite: sums.greatest.infinite,
    })
}

/// What a row's terms come to. `None` exactly where the row is gone or its terms are not tame.
pub fn totals_of_row(parts: &ProblemData, i: u32) -> Option<RowTotals>
    ensures live { IfSome result (λ r. (row_at parts.now i).live ≡ true) }
    ensures some { IfSome result (AreTotals (spans_of parts.now i)) }
    ensures tame { IfSome result (λ r. IsTame (spans_of parts.now i)) }
    ensures none { IfNone result ((row_at parts.now i).live ≡ true → IsTame (spans_of parts.now i) → ⊥) }
{
    parts.is_sparse();
    if !parts.is_row_live(i) {
        return None;
    }
    totals_of(parts, parts.rows()[i as usize].entries.as_slice())
}
