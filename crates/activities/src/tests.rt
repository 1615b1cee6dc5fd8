ghost use Rattle.activities.specs.Kept.{IsKept};
ghost use Rattle.row_spans.specs.Spans.{ends_at};
ghost use Rattle.row_spans.specs.declared.span.Extreme.TheVariants.{Greatest};

use crate::row_sums::{Kept, activity_by_terms, activity_of, rest_of, sums_of};
use fractions::Past;
use fractions::ext::Ext;
use fractions::frac::Frac;
use fractions::whole::Whole;
use kept_sums::common_sum;
use row_spans::{Extreme, Span};
use std::alloc::{AllocError, Global};
use std::test::Fail;

const MOST: i128 = i128::MAX;

const LONG: u128 = 1 << 64;

const NO_END: i128 = i128::MIN;

/// An entry as numerator and denominator, with the bounds of its column.
type Entry = (i128, u128, i128, i128);

/// No entry.
const NONE: Entry = (0, 1, 0, 0);

/// `n / d`, and 0 where that has no meaning.
fn number(n: i128, d: u128) -> Frac {
    if n == i128::MIN || d == 0 || d > MOST as u128 {
        return Frac::zero();
    }
    Frac::ratio_of(Whole::new(n), d)
}

fn end(n: i128) -> Ext {
    if n == NO_END {
        Ext::none()
    } else {
        Ext::at(number(n, 1))
    }
}

/// The spans of entries, but for those at one place.
fn spans_but(
    alloc: Global,
    entries: &[Entry],
    left_out: Option<usize>,
) -> Result<Vec<Span>, AllocError> {
    let mut spans = Vec::new(alloc);
    for (place, (n, d, lower, upper)) in entries.iter().enumerate() {
        if *n != 0 && left_out != Some(place) {
            spans.push(Span {
                id: 0,
                value: number(*n, *d),
                lower: end(*lower),
                upper: end(*upper),
                whole: false,
                semi: false,
            })?;
        }
    }
    Ok(spans)
}

fn is_same(one: &Result<Ext, Past>, other: &Result<Ext, Past>) -> bool {
    match (one, other) {
        (Ok(a), Ok(b)) => a.is_same(b),
        (Err(_), Err(_)) => true,
        _ => false,
    }
}

/// Whether each rest is the activity of the other entries.
fn rests_are_told(
    alloc: Global,
    kept: &Kept,
    entries: &[Entry],
    spans: &[Span],
) -> Result<bool, AllocError>
    requires { IsKept (ends_at Greatest spans.now) kept.now }
{
    let mut good = true;
    for place in 0..spans.len() {
        let others = spans_but(alloc, entries, Some(place))?;
        let by_terms = activity_by_terms(Extreme::Greatest, others.as_slice());
        if !is_same(&rest_of(kept, Extreme::Greatest, spans, place), &by_terms) {
            good = false;
        }
    }
    Ok(good)
}

/// Whether the greatest activity is this one, also term by term, and the rests are right.
fn is_told(
    alloc: Global,
    entries: [Entry; 3],
    one_sum: bool,
    expected: &Result<Ext, Past>,
) -> Result<bool, AllocError> {
    let spans = spans_but(alloc, &entries, None)?;
    let spans = spans.as_slice();
    let kept = sums_of(alloc, Extreme::Greatest, spans)?;
    let rests = rests_are_told(alloc, &kept, &entries, spans)?;
    let whole = activity_of(&kept, Extreme::Greatest, spans);
    let by_terms = activity_by_terms(Extreme::Greatest, spans);
    let one = common_sum(Extreme::Greatest, spans);
    Ok(
        rests
            && is_same(&whole, expected)
            && is_same(&by_terms, expected)
            && one.is_some() == one_sum,
    )
}

/// An entry 1 whose column lies from 0 to a number.
fn up(upper: i128) -> Entry {
    (1, 1, 0, upper)
}

/// An entry `1 / d` whose column lies from 0 to 1.
fn over(d: u128) -> Entry {
    (1, d, 0, 1)
}

#[test]
fn by_one_sum_and_by_terms(rt: HostRuntime) -> Result<(), Fail> {
    let none = Ext::none();
    let half = Ext::at(number(1, 2));
    let rows = [
        ([(-2, 1, 1, 3), NONE, NONE], true, Ok(end(-2))),
        ([up(1 << 62), up(1 << 62), NONE], true, Ok(end(1 << 63))),
        ([up(1 << 63), up(1), NONE], true, Ok(end((1 << 63) + 1))),
        ([up(MOST - 1), up(1), NONE], true, Ok(end(MOST))),
        ([up(MOST), up(1), up(2)], false, Err(Past)),
        ([up(MOST), (-1, 1, 1, 1), NONE], false, Ok(end(MOST - 1))),
        ([over(3), over(6), NONE], true, Ok(half)),
        ([over(LONG + 1), up(1), over(LONG - 1)], false, Err(Past)),
        ([up(NO_END), up(1), up(1)], true, Ok(none)),
        ([up(NO_END), up(MOST), up(MOST)], false, Ok(none)),
        ([up(NO_END), (-1, 1, NO_END, 0), up(1)], true, Ok(none)),
    ];
    for (entries, one_sum, greatest) in rows {
        assert!(rt; is_told(rt.alloc(), entries, one_sum, &greatest)?);
    }
    Ok(())
}
