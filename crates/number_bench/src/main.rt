//! Times sums, products and comparisons of numbers. With no word it runs each once and prints
//! `ok`; with `time N` it runs each N times over a list and prints nanoseconds for one.
#![tactic(auto)]

use fractions::Past;
use fractions::frac::Frac;
use fractions::whole::Whole;
use std::cmp::Ordering;
use std::time::Instant;
use std::{env, io};

/// How many pairs of numbers a list has.
const PAIRS: usize = 1024;

/// How many times a list is timed.
const RUNS: u32 = 25;

/// The numbers that are timed.
#[derive(Clone, Copy)]
enum Kind {
    Whole,
    Decimal,
    Middle,
    Long,
}

/// What is done with each pair.
#[derive(Clone, Copy)]
enum Work {
    Sum,
    Product,
    Comparison,
}

/// The next of a fixed row of pseudorandom numbers.
fn next(state: u64) -> u64 {
    let a = state ^ (state << 13);
    let b = a ^ (a >> 7);
    b ^ (b << 17)
}

fn number(kind: Kind, n: u64, d: u64) -> Frac {
    let n_whole = (n % 1_000_000) as u128;
    let (size, under) = match kind {
        Kind::Whole => (n_whole, 1),
        Kind::Decimal => ((n % 1_000_000_000) as u128, 1_000_000),
        Kind::Middle => ((n >> 14) as u128, (d >> 14) as u128 + 1),
        Kind::Long => ((n as u128) << 36, (d % 63) as u128 + 1),
    };
    let positive = Whole::natural(size);
    let whole = if n % 3 == 0 {
        positive.negated()
    } else {
        positive
    };
    Frac::ratio_of(whole, under)
}

fn numbers(rt: &HostRuntime, kind: Kind, seed: u64) -> io::Result<Vec<Frac>> {
    let mut list = Vec::new(rt.alloc());
    let mut state = seed;
    for _ in 0..PAIRS {
        let n = next(state);
        let d = next(n);
        state = d;
        list.push(number(kind, n, d))?;
    }
    Ok(list)
}

/// A few bits of an answer, so that it is not left out.
fn bits(answer: Result<Frac, Past>) -> u64 {
    match answer {
        Ok(q) => {
            let parts = q.parts();
            ((parts.num.size() ^ parts.den) % (1 << 64)) as u64
        }
        Err(Past) => 1,
    }
}

fn sums(xs: &[Frac], ys: &[Frac]) -> u64 {
    let mut all = 0;
    for (x, y) in xs.iter().zip(ys.iter()) {
        all ^= bits(x.add(y));
    }
    all
}

fn products(xs: &[Frac], ys: &[Frac]) -> u64 {
    let mut all = 0;
    for (x, y) in xs.iter().zip(ys.iter()) {
        all ^= bits(x.mul(y));
    }
    all
}

fn comparisons(xs: &[Frac], ys: &[Frac]) -> u64 {
    let mut all = 0;
    for (x, y) in xs.iter().zip(ys.iter()) {
        all = next(all ^ u64::from(x.cmp(y) == Ordering::Less));
    }
    all
}

fn run(work: Work, xs: &[Frac], ys: &[Frac], turns: u32) -> u64 {
    let mut all = 0;
    for turn in 0..turns {
        let bits = match work {
            Work::Sum => sums(xs, ys),
            Work::Product => products(xs, ys),
            Work::Comparison => comparisons(xs, ys),
        };
        all = next(all ^ bits ^ u64::from(turn));
    }
    all
}

/// The least time of a few runs, in tenths of nanoseconds for one.
fn time(rt: &HostRuntime, work: Work, xs: &[Frac], ys: &[Frac], turns: u32) -> io::Result<u128> {
    let mut least = u128::MAX;
    for _ in 0..RUNS {
        let start = Instant::now(rt)?;
        let all = run(work, xs, ys, turns);
        let spent = start.elapsed(rt)?.as_nanos();
        // the answer takes part, so that the work is done
        least = least.min(spent * 10 + (all & 1) as u128);
    }
    Ok(least / (turns as u128 * PAIRS as u128 + 1))
}

/// One line of the table: a name, and tenths of nanoseconds for a sum, a product, a comparison.
fn line(rt: &HostRuntime, name: &str, kind: Kind, turns: u32) -> io::Result<()> {
    let xs = numbers(rt, kind, 88172645463325252)?;
    let ys = numbers(rt, kind, 1181783497276652981)?;
    let xs = xs.as_slice();
    let ys = ys.as_slice();
    let sum = time(rt, Work::Sum, xs, ys, turns)?;
    let product = time(rt, Work::Product, xs, ys, turns)?;
    let comparison = time(rt, Work::Comparison, xs, ys, turns)?;
    if turns > 1 {
        println!(rt; "{name} {sum} {product} {comparison}")?;
    }
    Ok(())
}

fn lines(rt: &HostRuntime, turns: u32) -> io::Result<()> {
    line(rt, "whole", Kind::Whole, turns)?;
    line(rt, "decimal", Kind::Decimal, turns)?;
    line(rt, "middle", Kind::Middle, turns)?;
    line(rt, "long", Kind::Long, turns)
}

fn main(rt: HostRuntime) -> io::Result<()> {
    let mut words = env::args(&rt)?.skip(2);
    match words.next() {
        Some(word) => lines(&rt, word.as_str().parse::<u32>().unwrap_or(2)),
        None => {
            lines(&rt, 1)?;
            println!(rt; "ok")
        }
    }
}
