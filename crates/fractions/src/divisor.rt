//! The greatest common divisor.

ghost use Rattle.std.specs.Prelude.{◌≡◌, ℕ, ◌<◌, ◌≤◌, ◌^◌, ◌/◌, ◌%◌};
ghost use Rattle.fractions.specs.Gcd.{gcd as gcd_of};

use crate::fives::is_power_of_five;

/// The greatest common divisor.
pub fn gcd(a: u128, b: u128) -> u128
    ensures value { result ≡ gcd_of a b }
    ensures some_left { 0 < a → 0 < result }
    ensures some_right { 0 < b → 0 < result }
    ensures below_right { 0 < b → result ≤ b }
{
    if b == 1 {
        1
    } else if a == b {
        a
    } else {
        long_gcd(a, b)
    }
}

/// `n / k`, rounded down.
pub fn quotient(n: u128, k: u128) -> u128
    requires { 0 < k }
    ensures { result ≡ n / k }
{
    if k == 1 {
        return n;
    }
    if n == k {
        return 1;
    }
    if n < 1 << 64 && k < 1 << 64 {
        return (n as u64 / k as u64) as u128;
    }
    n / k
}

/// The greatest common divisor of numbers of any length.
fn long_gcd(a: u128, b: u128) -> u128
    ensures { result ≡ gcd_of a b }
{
    let (long, short) = shortened(a, b);
    if short == 0 {
        return long;
    }
    let rest = if long < 1 << 64 { long } else { long % short };
    short_gcd(rest as u64, short as u64) as u128
}

/// Euclid's steps until the second number has 64 bits.
fn shortened(a: u128, b: u128) -> (u128, u128)
    ensures same { gcd_of result.0 result.1 ≡ gcd_of a b }
    ensures short { result.1 < 2 ^ 64 }
{
    let mut x = a;
    let mut y = b;
    while y >= 1 << 64 {
        let rest = x % y;
        x = y;
        y = rest;
    }
    (x, y)
}

/// The same of numbers of 64 bits.
fn short_gcd(a: u64, b: u64) -> u64
    requires { 0 < b }
    ensures { result ≡ gcd_of a b }
{
    if a == 0 {
        return b;
    }
    let left = a.trailing_zeros();
    let right = b.trailing_zeros();
    odd_gcd(a >> left, b >> right) << left.min(right)
}

/// The same of odd numbers. Most denominators are powers of ten, so powers of five come first.
fn odd_gcd(a: u64, b: u64) -> u64
    requires left { a % 2 ≡ 1 }
    requires right { b % 2 ≡ 1 }
    ensures { result ≡ gcd_of a b }
{
    if is_power_of_five(b) {
        if a % 5 != 0 {
            return 1;
        }
        if is_power_of_five(a) {
            return a.min(b);
        }
    }
    if a < 1 << 32 && b < 1 << 32 {
        if a % b == 0 {
            return b;
        }
        if b % a == 0 {
            return a;
        }
    }
    five_gcd(a, b)
}

/// The same of odd numbers, with their fives taken out first.
fn five_gcd(a: u64, b: u64) -> u64
    requires left { a % 2 ≡ 1 }
    requires right { b % 2 ≡ 1 }
    ensures { result ≡ gcd_of a b }
{
    let mut x = a;
    let mut y = b;
    let mut fives = 1;
    while y % 5 == 0 {
        y /= 5;
        if x % 5 == 0 {
            x /= 5;
            fives *= 5;
        }
    }
    if y == 1 {
        return fives;
    }
    fives * binary_gcd(x, y)
}

/// The same of odd numbers, by differences without their twos.
fn binary_gcd(a: u64, b: u64) -> u64
    requires left { a % 2 ≡ 1 }
    requires right { b % 2 ≡ 1 }
    ensures value { result ≡ gcd_of a b }
    ensures below_right { result ≤ b }
{
    let mut x = a;
    let mut y = b;
    while x != y {
        let rest = x.abs_diff(y);
        y = x.min(y);
        x = rest >> rest.trailing_zeros();
    }
    x
}
