//! The bound that a side of a row and the rest without a column leave for that column.

ghost use Rattle.std.specs.Prelude.{◌≡◌, ◌≢◌, ℕ, List};
ghost use Rattle.fractions.specs.Number.{zero_ℚ};
ghost use Rattle.fractions.specs.Compare.{lt_ℚ};
ghost use Rattle.row_spans.specs.declared.span.Span.{Span};
ghost use Rattle.row_spans.specs.RowSums.{rest};
ghost use Rattle.activity_laws.specs.BoundTightening.{implied, is_better as better_by, left_over as left_by, old_bound as old_by};
ghost use Rattle.activities.specs.Rows.{source_of};

use fractions::Past;
use fractions::ext::Ext;
use fractions::frac::Frac;
use lp_model::ends::apart;
use problem_model::Sides;
use row_spans::Extreme;
use row_spans::exact::{difference, quotient};
use undo_records::Side;

/// What a rest leaves of a side, over an entry: none where one of the two is infinite, or where a number has no room.
pub fn left_over(entry: &Frac, side: &Ext, rest: Result<Ext, Past>) -> Ext
    requires { entry.now ≢ zero_ℚ }
    ensures { result ≡ left_by entry.now side.now rest }
{
    let Some(end) = side.number() else {
        return Ext::none();
    };
    let Ok(rest) = rest else {
        return Ext::none();
    };
    let Some(other) = rest.number() else {
        return Ext::none();
    };
    let Ok(left) = difference(&end, &other) else {
        return Ext::none();
    };
    match quotient(&left, entry) {
        Ok(bound) => Ext::at(bound),
        Err(_) => Ext::none(),
    }
}

/// The rest and the side of a row from which a bound of a column with this entry follows: for an entry above 0 the lower bound follows from
/// the lower side, for one below 0 from the upper one.
pub fn source(side: Side, entry: &Frac, sides: &Sides) -> (Extreme, Ext)
    ensures bound { (j : ℕ) (ss : List Span) → left_by entry.now result.1 (rest result.0 j ss) ≡ implied side j entry.now sides.now.lower sides.now.upper ss }
    ensures extreme { result.0 ≡ source_of side (lt_ℚ zero_ℚ entry.now) }
{
    let is_lower = match side {
        Side::Lower => entry.is_positive(),
        Side::Upper => !entry.is_positive(),
    };
    if is_lower {
        (Extreme::Greatest, sides.lower)
    } else {
        (Extreme::Least, sides.upper)
    }
}

/// One of two bounds.
pub fn old_bound(side: Side, lower: &Ext, upper: &Ext) -> Ext
    ensures { result ≡ old_by side lower.now upper.now }
{
    match side {
        Side::Lower => *lower,
        Side::Upper => *upper,
    }
}

/// Whether a bound is finite, and strictly better than the old one.
pub fn is_better(side: Side, old: &Ext, bound: &Ext) -> bool
    ensures { result ≡ better_by side old.now bound.now }
{
    match bound.number() {
        None => false,
        Some(_) => match side {
            Side::Lower => apart(old, bound),
            Side::Upper => apart(bound, old),
        },
    }
}
