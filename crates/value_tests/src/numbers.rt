//! Sums, products, order and ends of exact numbers, at the ends of their range too.

use fractions::Past;
use fractions::ends::{greater_lower, less, lesser_upper, over};
use fractions::ext::Ext;
use fractions::frac::Frac;
use fractions::places::is_decimal;
use fractions::whole::Whole;

const MOST: i128 = i128::MAX;

/// `n / d`, and 0 where that has no meaning.
fn number(n: i128, d: u128) -> Frac {
    if n == i128::MIN || d == 0 || d > MOST as u128 {
        return Frac::zero();
    }
    Frac::ratio_of(Whole::new(n), d)
}

fn quotient(a: &Frac, b: &Frac) -> Result<Frac, Past> {
    if b.is_zero() { Err(Past) } else { a.div(b) }
}

#[test]
fn sums(rt: HostRuntime) {
    let rows = [
        (number(1, 3), number(1, 6), Ok(number(1, 2))),
        (number(1, 4), number(1, 8), Ok(number(3, 8))),
        (number(-7, 20), number(7, 20), Ok(number(0, 1))),
        (number(MOST, 1), number(1, 1), Err(Past)),
        (number(-MOST, 1), number(-1, 1), Err(Past)),
        // 2^64 / ((2^63 + 1) (2^63 - 1)), and with one bit more the denominator has no room
        (
            number(1, (1 << 63) + 1),
            number(1, (1 << 63) - 1),
            Ok(number(1 << 64, (1 << 126) - 1)),
        ),
        (
            number(1, (1 << 64) + 1),
            number(1, (1 << 64) - 1),
            Err(Past),
        ),
        // the sum has room, the first step has none
        (number(MOST, 2), number(-MOST, 3), Err(Past)),
    ];
    for (a, b, sum) in rows {
        assert!(rt; a.add(&b) == sum);
        assert!(rt; a.sub(&b.neg()) == sum);
    }
}

#[test]
fn products(rt: HostRuntime) {
    let rows = [
        (number(2, 3), number(3, 2), Ok(number(1, 1))),
        (number(-3, 4), number(10, 9), Ok(number(-5, 6))),
        (number(1 << 100, 1), number(1, 1 << 90), Ok(number(1024, 1))),
        (number(1, 1 << 100), number(1, 1 << 100), Err(Past)),
        (number(MOST, 2), number(4, 1), Err(Past)),
    ];
    for (a, b, product) in rows {
        assert!(rt; a.mul(&b) == product);
    }
    assert!(rt; quotient(&number(1, 2), &number(-3, 4)) == Ok(number(-2, 3)));
}

#[test]
fn lowest_terms(rt: HostRuntime) {
    let rows = [
        ((3 << 100, 6 << 90), (512, 1)),
        (
            (95_367_431_640_625 * 7, 1_000_000_000_000_000),
            (21_875, 32_768),
        ),
        ((-210, 630), (1, 3)),
        // 1000003, 999983 and 17 are primes
        ((1_000_003 * 999_983, 999_983 * 17), (1_000_003, 17)),
        ((0, 25), (0, 1)),
    ];
    for ((n, d), (num, den)) in rows {
        let parts = number(n, d).parts();
        assert!(rt; parts.num.size() == num && parts.den == den);
        assert!(rt; parts.num.is_negative() == (n < 0));
    }
}

#[test]
fn order_and_floors(rt: HostRuntime) {
    let rising = [
        number(-MOST, 1),
        number(-1, 2),
        number(-1, 3),
        number(0, 1),
        number(1, MOST as u128),
        number(1, 3),
        number(MOST - 2, MOST as u128 - 1),
        number(1, 1),
        number(MOST, MOST as u128 - 1),
    ];
    for (i, a) in rising.iter().enumerate() {
        for (j, b) in rising.iter().enumerate() {
            assert!(rt; a.cmp(b) == i.cmp(&j));
            assert!(rt; a.lt(b) == (i < j) && a.le(b) == (i <= j));
        }
    }
    for (a, floor, ceil) in [
        (number(7, 2), 3, 4),
        (number(-7, 2), -4, -3),
        (number(4, 1), 4, 4),
        (number(-1, 9), -1, 0),
    ] {
        assert!(rt; a.floor() == number(floor, 1) && a.ceil() == number(ceil, 1));
        assert!(rt; a.is_whole() == (floor == ceil));
    }
    assert!(rt;
        number(1, 9).is_positive() && number(-1, 9).is_negative() && Frac::zero().is_zero()
    );
    assert!(rt; Ext::none().number() == None && Ext::at(Frac::one()).number() == Some(Frac::one()));
}

#[test]
fn decimals(rt: HostRuntime) {
    for (a, decimal) in [
        (number(-1, 10), true),
        (number(1, 3), false),
        (number(1, 1 << 38), true),
        (number(1, 1 << 39), false),
        // 5 (2^127 - 1) has no room
        (number(MOST, 1), true),
        (number(MOST, 2), false),
    ] {
        assert!(rt; is_decimal(&a) == decimal);
    }
}

#[test]
fn ends_of_ranges(rt: HostRuntime) {
    let half = number(1, 2);
    let none = Ext::none();
    let at_half = Ext::at(half);
    let at_one = Ext::at(Frac::one());
    for (a, b, low, high) in [
        (none, none, none, none),
        (none, at_one, at_one, at_one),
        (at_one, none, at_one, at_one),
        (at_half, at_one, at_one, at_half),
        (at_one, at_half, at_one, at_half),
    ] {
        assert!(rt; greater_lower(&a, &b).is_same(&low));
        assert!(rt; lesser_upper(&a, &b).is_same(&high));
    }
    let past = number(1, MOST as u128);
    for (end, quotient, rest) in [
        (none, Ok(None), Ok(None)),
        (at_one, Ok(Some(number(2, 1))), Ok(Some(half))),
        (Ext::at(number(MOST, 1)), Err(Past), Err(Past)),
    ] {
        assert!(rt; over_half(&end).map(|e| e.number()) == quotient);
        assert!(rt; less(&end, &half).map(|e| e.number()) == rest);
    }
    assert!(rt; less(&Ext::at(past), &half).is_err());
}

fn over_half(end: &Ext) -> Result<Ext, Past> {
    let half = number(1, 2);
    if half.is_zero() {
        Err(Past)
    } else {
        over(end, &half)
    }
}
