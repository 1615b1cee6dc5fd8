//! Whether the bounds of two columns let them join.

ghost use Rattle.std.specs.Prelude.{◌≡◌};
ghost use Rattle.parallel_laws.specs.ParallelColumns.{are_in_order as in_order_are, are_of_a_kind as of_a_kind, are_whole as whole_are, is_unit as unit_is};
ghost use Rattle.parallel_column_rules.specs.Looks.{held};

use fractions::frac::Frac;
use lp_model::ends::{broken, in_order};
use problem_model::Bounds;

/// Whether no bounds are crossed, and neither column is semi-continuous.
pub fn are_in_order(first: &Bounds, second: &Bounds) -> bool
    ensures { result ≡ in_order_are (held first.now) (held second.now) }
{
    !first.semi
        && !second.semi
        && in_order(&first.lower, &first.upper)
        && in_order(&second.lower, &second.upper)
}

/// Whether bounds are whole or infinite.
fn are_whole(bounds: &Bounds) -> bool
    ensures { result ≡ whole_are bounds.now.lower bounds.now.upper }
{
    !broken(&bounds.lower) && !broken(&bounds.upper)
}

/// Whether a factor is 1 or -1.
fn is_unit(factor: &Frac) -> bool
    ensures { result ≡ unit_is factor.now }
{
    let one = Frac::one();
    factor.is_same(&one) || factor.is_same(&one.neg())
}

/// Whether both columns are continuous, or both are whole, with whole or infinite bounds and a factor of 1 or -1; and neither is
/// semi-continuous.
pub fn are_of_a_kind(factor: &Frac, first: &Bounds, second: &Bounds) -> bool
    ensures { result ≡ of_a_kind factor.now (held first.now) (held second.now) }
{
    if first.semi || second.semi {
        return false;
    }
    if first.whole {
        second.whole && (is_unit(factor) && (are_whole(first) && are_whole(second)))
    } else {
        !second.whole
    }
}
