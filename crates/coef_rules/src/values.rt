//! Whether a coefficient is tightened, and by how much.

ghost use Rattle.std.specs.Prelude.{◌≡◌, ◌&&◌, not};
ghost use Rattle.fractions.specs.MinMax.{abs_ℚ};
ghost use Rattle.coef_laws.specs.CoefficientTightening.{best_bound as best_of, extreme_of as extreme_at, if_finite, if_short as short, left_at as left_by, next_best as next_of, one_side as sole_side, slack as slack_by, tightened_at as tightened_with, tightened_by as made_by, turned as times, whole_bounds as bounds_of};

use coef_laws::Tightening;
use fractions::Past;
use fractions::ext::Ext;
use fractions::frac::Frac;
use problem_model::Sides;
use row_spans::exact::{difference, product, sum};
use row_spans::{Extreme, Span};
use undo_records::Side;

/// The one side that is finite, where the other isn't.
pub fn one_side(sides: &Sides) -> Option<(Side, Frac)>
    ensures { result ≡ sole_side sides.now.lower sides.now.upper }
{
    match sides.lower.number() {
        None => match sides.upper.number() {
            None => None,
            Some(upper) => Some((Side::Upper, upper)),
        },
        Some(lower) => match sides.upper.number() {
            None => Some((Side::Lower, lower)),
            Some(_) => None,
        },
    }
}

/// A number times f.
pub fn turned(side: Side, number: &Frac) -> Frac
    ensures { result ≡ times side number.now }
{
    match side {
        Side::Lower => number.neg(),
        Side::Upper => *number,
    }
}

/// The extreme of a row that is the greatest of f times it.
pub fn extreme_of(side: Side) -> Extreme
    ensures { result ≡ extreme_at side }
{
    match side {
        Side::Lower => Extreme::Least,
        Side::Upper => Extreme::Greatest,
    }
}

/// The bounds of a whole column that are finite, whole and apart; none of a semi-continuous one.
pub fn whole_bounds(span: &Span) -> Option<(Frac, Frac)>
    ensures { result ≡ bounds_of span.now.lower span.now.upper (not span.now.semi && span.now.whole) }
{
    let Some(lower) = span.lower.number() else {
        return None;
    };
    let Some(upper) = span.upper.number() else {
        return None;
    };
    if !span.semi && span.whole && lower.is_whole() && upper.is_whole() && lower.lt(&upper) {
        Some((lower, upper))
    } else {
        None
    }
}

/// The bound at which a coefficient gives its row the most.
fn best_bound(coefficient: &Frac, bounds: &(Frac, Frac)) -> Frac
    ensures { result ≡ best_of coefficient.now bounds.now.0 bounds.now.1 }
{
    if coefficient.is_positive() {
        bounds.1
    } else {
        bounds.0
    }
}

/// The whole number within the bounds that is next to it.
fn next_best(coefficient: &Frac, bounds: &(Frac, Frac)) -> Result<Frac, Past>
    ensures { result ≡ next_of coefficient.now bounds.now.0 bounds.now.1 }
{
    if coefficient.is_positive() {
        difference(&bounds.1, &Frac::one())
    } else {
        sum(&bounds.0, &Frac::one())
    }
}

/// What a rest, and a coefficient at a value, leave of a side.
fn left_at(coefficient: &Frac, limit: &Frac, rest: &Frac, value: &Frac) -> Result<Frac, Past>
    ensures { result ≡ left_by coefficient.now limit.now rest.now value.now }
{
    let beside = difference(limit, rest)?;
    let taken = product(coefficient, value)?;
    difference(&beside, &taken)
}

/// By how much the coefficient is greater than what is in use of it.
fn slack(coefficient: &Frac, limit: &Frac, rest: &Frac, bounds: &(Frac, Frac)) -> Result<Frac, Past>
    ensures { result ≡ slack_by coefficient.now limit.now rest.now bounds.now.0 bounds.now.1 }
{
    let next = next_best(coefficient, bounds)?;
    left_at(coefficient, limit, rest, &next)
}

/// How far a number is from 0.
pub fn magnitude(number: &Frac) -> Frac
    ensures { result ≡ abs_ℚ number.now }
{
    if Frac::zero().le(number) {
        *number
    } else {
        number.neg()
    }
}

/// A tightening by more than 0 and less than the coefficient.
fn if_short(tightening: Tightening) -> Option<Tightening>
    ensures { result ≡ short tightening }
{
    let size = magnitude(&tightening.coefficient);
    if tightening.slack.is_positive() && tightening.slack.lt(&size) {
        Some(tightening)
    } else {
        None
    }
}

/// How f times a row with this upper side and this greatest rest is tightened at a coefficient.
fn tightened_by(
    side: Side,
    coefficient: Frac,
    limit: Frac,
    rest: &Frac,
    bounds: &(Frac, Frac),
) -> Option<Tightening>
    ensures { result ≡ made_by side coefficient limit rest.now bounds.now.0 bounds.now.1 }
{
    let Ok(slack) = slack(&coefficient, &limit, rest, bounds) else {
        return None;
    };
    if_short(Tightening {
        side,
        coefficient,
        limit,
        bound: best_bound(&coefficient, bounds),
        slack,
    })
}

/// How a row with this side alone is tightened at an entry, by the rest without its column.
pub fn tightened_at(
    side: Side,
    limit: &Frac,
    span: &Span,
    rest: Result<Ext, Past>,
) -> Option<Tightening>
    ensures { result ≡ tightened_with side limit.now span.now rest }
{
    let Some(bounds) = whole_bounds(span) else {
        return None;
    };
    let Ok(rest) = rest else {
        return None;
    };
    let Some(rest) = rest.number() else {
        return None;
    };
    tightened_by(
        side,
        turned(side, &span.value),
        turned(side, limit),
        &turned(side, &rest),
        &bounds,
    )
}
