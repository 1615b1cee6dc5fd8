//! Where a multiplier is held.

ghost use Rattle.std.specs.Prelude.{◌≡◌, Some};
ghost use Rattle.fractions.specs.Ends.{same_end};
ghost use Rattle.lp_theory.specs.MetEnds.{is_from_row as is_from_row_of};
ghost use Rattle.undo_pairs.specs.LiftPair.{is_off_bound as is_off_bound_of};

use exact_numbers::Exact;
use fractions::ext::Ext;
use postsolve_primal::Range;
use undo_records::Side;

/// Whether a number is at an end.
fn is_at<T: Exact>(end: &Ext, number: &T) -> bool
    ensures { result ≡ same_end end.now (Some (T.number number.now)) }
{
    match end.number() {
        None => false,
        Some(at) => number.is_fraction(&at),
    }
}

/// Whether a multiplier asks for an end of the old ones at which the value is not: it is held at one that came from a deleted row.
pub fn is_from_row<T: Exact>(old: Range, value: &T, multiplier: &T) -> bool
    ensures { result ≡ is_from_row_of old.lower old.upper (T.number value.now) (T.number multiplier.now) }
{
    (multiplier.is_positive() && !is_at(&old.lower, value))
        || (multiplier.is_negative() && !is_at(&old.upper, value))
}

/// Whether a reduced cost asks for a bound at which the value is not.
pub fn is_off_bound<T: Exact>(side: Side, bound: &Ext, value: &T, reduced_cost: &T) -> bool
    ensures { result ≡ is_off_bound_of side bound.now (T.number value.now) (T.number reduced_cost.now) }
{
    match side {
        Side::Lower => reduced_cost.is_positive() && !is_at(bound, value),
        Side::Upper => reduced_cost.is_negative() && !is_at(bound, value),
    }
}
