//! What is kept of a row, and how it is mended.

ghost use Rattle.std.specs.Prelude.{◌≡◌, ◌++◌, ◌∷◌, [], List, IfSome, IsTrue};
ghost use Rattle.row_spans.specs.Spans.{end_at, ends_at};
ghost use Rattle.row_spans.specs.declared.span.Span.{Span as SpanValue};
ghost use Rattle.row_spans.specs.declared.span.Extreme.TheVariants as extreme_of;
ghost use Rattle.kept_sums.specs.CommonSums.{HasRoom, IsCommonSum};
ghost use Rattle.kept_sums.specs.KeptSums.{AreSumsOf, HaveRoom, crossed_count, crossed_in as crossed_by};

use crate::common::{CommonSum, less_term, no_terms, plus_term, raised};
use lp_model::ends::in_order;
use row_spans::{Extreme, Span, bound_at};

/// The sums of both activities of a row, and how many of its columns have crossed bounds. Both sums are over one denominator as long as
/// entries come and go by the calls here.
#[derive(Clone, Copy)]
pub struct KeptSums {
    /// The sum of the least that each entry gives.
    pub least: CommonSum,
    /// The sum of the greatest.
    pub greatest: CommonSum,
    /// How many entries are at columns with crossed bounds.
    pub crossed: usize,
}

/// 1 where the bounds of an entry's column are crossed, else 0.
fn crossed_in(span: &Span) -> usize
    ensures { result ≡ crossed_by span.now }
{
    if in_order(&span.lower, &span.upper) {
        0
    } else {
        1
    }
}

/// A sum with what a span gives, at its place among the others.
fn with_span(sum: &CommonSum, extreme: Extreme, span: &Span) -> Option<CommonSum>
    requires { HasRoom sum.now }
    ensures room { IfSome result (λ t. HasRoom t) }
    ensures value { IfSome result (λ t. (a b : List SpanValue) → IsCommonSum (ends_at extreme (a ++ b)) sum.now → IsCommonSum (ends_at extreme (a ++ span.now ∷ b)) t) }
{
    plus_term(sum, extreme, span)
}

/// A sum without what a span gives.
fn without_span(sum: &CommonSum, extreme: Extreme, span: &Span) -> Option<CommonSum>
    requires { HasRoom sum.now }
    ensures room { IfSome result (λ t. HasRoom t) }
    ensures value { IfSome result (λ t. (a b : List SpanValue) → IsCommonSum (ends_at extreme (a ++ span.now ∷ b)) sum.now → IsCommonSum (ends_at extreme (a ++ b)) t) }
{
    less_term(sum, extreme, span)
}

/// Whether one span gives what another one gives; `false` where that is not seen at once.
fn gives_same(extreme: Extreme, before: &Span, after: &Span) -> bool
    ensures { IsTrue result → end_at extreme before.now ≡ end_at extreme after.now }
{
    if !before.value.is_same(&after.value) {
        return false;
    }
    let first = bound_at(extreme, before);
    let second = bound_at(extreme, after);
    first.is_same(&second)
}

/// A sum with what a span gives in the place of what another one gives.
fn moved_span(sum: &CommonSum, extreme: Extreme, before: &Span, after: &Span) -> Option<CommonSum>
    requires { HasRoom sum.now }
    ensures room { IfSome result (λ t. HasRoom t) }
    ensures value { IfSome result (λ t. (a b : List SpanValue) → IsCommonSum (ends_at extreme (a ++ before.now ∷ b)) sum.now → IsCommonSum (ends_at extreme (a ++ after.now ∷ b)) t) }
{
    if gives_same(extreme, before, after) {
        return Some(*sum);
    }
    let rest = without_span(sum, extreme, before)?;
    with_span(&rest, extreme, after)
}

/// Two sums over a denominator of both, with a count of crossed bounds.
fn levelled(least: &CommonSum, greatest: &CommonSum, crossed: usize) -> Option<KeptSums>
    requires least { HasRoom least.now }
    requires greatest { HasRoom greatest.now }
    ensures room { IfSome result (λ k. HaveRoom k) }
    ensures value { IfSome result (λ k. (ss : List SpanValue) → IsCommonSum (ends_at extreme_of.Least ss) least.now → IsCommonSum (ends_at extreme_of.Greatest ss) greatest.now → crossed ≡ crossed_count ss → AreSumsOf ss k) }
{
    Some(KeptSums {
        least: raised(least, greatest.denominator)?,
        greatest: raised(greatest, least.denominator)?,
        crossed,
    })
}

impl KeptSums {
    /// The sums of no entries.
    pub fn none() -> KeptSums
        ensures { AreSumsOf [] result }
    {
        KeptSums {
            least: no_terms(),
            greatest: no_terms(),
            crossed: 0,
        }
    }

    /// The sums with one entry more, wherever it stands among the others. `None` where a number has no room.
    pub fn with(&self, span: &Span) -> Option<KeptSums>
        requires { HaveRoom self.now }
        ensures room { IfSome result (λ k. HaveRoom k) }
        ensures value { IfSome result (λ k. (a b : List SpanValue) → AreSumsOf (a ++ b) self.now → AreSumsOf (a ++ span.now ∷ b) k) }
    {
        let least = with_span(&self.least, Extreme::Least, span)?;
        let greatest = with_span(&self.greatest, Extreme::Greatest, span)?;
        let crossed = self.crossed.checked_add(crossed_in(span))?;
        levelled(&least, &greatest, crossed)
    }

    /// The sums with another entry in the place of one. `None` where a number has no room. What the entry gives at one end is often the same.
    pub fn moved(&self, before: &Span, after: &Span) -> Option<KeptSums>
        requires { HaveRoom self.now }
        ensures room { IfSome result (λ k. HaveRoom k) }
        ensures value { IfSome result (λ k. (a b : List SpanValue) → AreSumsOf (a ++ before.now ∷ b) self.now → AreSumsOf (a ++ after.now ∷ b) k) }
    {
        let least = moved_span(&self.least, Extreme::Least, before, after)?;
        let greatest = moved_span(&self.greatest, Extreme::Greatest, before, after)?;
        let others = self.crossed.checked_sub(crossed_in(before))?;
        let crossed = others.checked_add(crossed_in(after))?;
        levelled(&least, &greatest, crossed)
    }

    /// The sums without one of the entries. `None` where a number has no room.
    pub fn without(&self, span: &Span) -> Option<KeptSums>
        requires { HaveRoom self.now }
        ensures room { IfSome result (λ k. HaveRoom k) }
        ensures value { IfSome result (λ k. (a b : List SpanValue) → AreSumsOf (a ++ span.now ∷ b) self.now → AreSumsOf (a ++ b) k) }
    {
        let least = without_span(&self.least, Extreme::Least, span)?;
        let greatest = without_span(&self.greatest, Extreme::Greatest, span)?;
        let crossed = self.crossed.checked_sub(crossed_in(span))?;
        Some(KeptSums {
            least,
            greatest,
            crossed,
        })
    }
}
