//! Entries that are set.

ghost use Rattle.std.specs.Prelude.{◌≡◌, ◌++◌, ◌+◌, ◌-◌, ◌<◌, ◌≤◌, [], suc, length, take, drop, IfOk, OnOk};
ghost use Rattle.std.specs.List.{All};
ghost use Rattle.fractions.specs.Number.{Number};
ghost use Rattle.problem_model.specs.Edits.{line_put};
ghost use Rattle.problem_model.specs.Entries.{led_by, put_term};
ghost use Rattle.problem_model.specs.Matrices.{line_at};
ghost use Rattle.entry_lines.specs.Putting.{all_given, all_held, AreInside, AreWithin, given_back, held_of, IdsAscend, line_given, line_puts, one_given, put_first, rows_held};

use fractions::frac::Frac;
use lp_model::{Term, Terms};
use problem_model::Line;
use std::alloc::{AllocError, Global};
use std::mem::swap;

/// The entries of a line, by its id, and how many of them are live.
#[derive(Drop)]
pub struct Held {
    pub line: u32,
    pub entries: Terms,
    pub live_entries: usize,
}

/// The entries of a column, and of rows that it crosses.
#[derive(Drop)]
pub struct Replaced {
    pub in_column: Held,
    pub in_rows: Vec<Held>,
}

/// How many terms have a lower id, up to the first that has not.
fn count_below(terms: &[Term], k: u32) -> usize
    ensures within { result ≤ length terms.now }
    ensures below { All (λ t. t.id < k) (take result terms.now) }
    ensures place { (a : Number) → put_term k a terms.now ≡ take result terms.now ++ put_first k a (drop result terms.now) }
{
    for place in 0..terms.len() {
        if terms[place].id >= k {
            return place;
        }
    }
    terms.len()
}

/// Adds a term, unless its number is 0.
fn lead(items: &mut Vec<Term>, k: u32, value: &Frac) -> Result<(), AllocError>
    ensures { OnOk result (items.new.items ≡ items.old.items ++ led_by k value.now []) }
{
    if !value.is_zero() {
        items.push(Term {
            id: k,
            value: *value,
        })?;
    }
    Ok(())
}

/// Adds terms.
fn add_all(items: &mut Vec<Term>, terms: &[Term]) -> Result<(), AllocError>
    ensures { OnOk result (items.new.items ≡ items.old.items ++ terms.now) }
{
    for term in terms {
        items.push(*term)?;
    }
    Ok(())
}

/// The terms after the first, if that has this id; else all.
fn past_id<'a>(terms: &'a [Term], k: u32) -> &'a [Term]
    ensures { (a : Number) → put_first k a terms.entry.now ≡ led_by k a [] ++ result.now }
{
    match terms {
        [] => terms,
        [first, after @ ..] => { if first.id == k { after } else { terms } }
    }
}

/// Puts a term behind the terms that were passed, and hands out those that are left behind it.
fn pass<'a>(items: &mut Vec<Term>, left: &'a [Term], term: &Term) -> Result<&'a [Term], AllocError>
    requires { All (λ t. t.id < term.now.id) items.old.items }
    ensures put { IfOk result (λ after. put_term term.now.id term.now.value (items.old.items ++ left.entry.now) ≡ items.new.items ++ after.now) }
    ensures below { OnOk result (All (λ t. t.id < suc term.now.id) items.new.items) }
{
    let place = count_below(left, term.id);
    add_all(items, &left[..place])?;
    lead(items, term.id, &term.value)?;
    Ok(past_id(&left[place..], term.id))
}

/// How many entries are live where their number changes, and those that come or go are live.
fn live_after(live: usize, before: usize, after: usize) -> usize
    requires { live ≤ before }
    ensures { result ≡ live + after - before }
{
    if after >= before {
        live + (after - before)
    } else {
        live.saturating_sub(before - after)
    }
}

/// How many terms there are in two parts.
fn count_both(items: &Vec<Term>, left: &[Term]) -> usize
    ensures { result ≡ length items.now.items + length left.now }
{
    items.len() + left.len()
}

/// The entries of a line, by its id, with the numbers of terms at their ids.
fn with_terms(alloc: Global, line: &Line, id: u32, terms: &[Term]) -> Result<Held, AllocError>
    requires counted { line.now.live_entries ≤ length line.now.entries }
    requires ascends { IdsAscend 0 terms.now }
    ensures { IfOk result (λ h. h ≡ held_of id (line_puts terms.now line.now)) }
{
    let mut items = Vec::new(alloc);
    let mut live_entries = line.live_entries;
    let mut left = line.entries.as_slice();
    let mut rest = terms;
    while let [term, after @ ..] = rest {
        let before = count_both(&items, left);
        left = pass(&mut items, left, term)?;
        live_entries = live_after(live_entries, before, count_both(&items, left));
        rest = after;
    }
    add_all(&mut items, left)?;
    Ok(Held {
        line: id,
        entries: Terms::new(items),
        live_entries,
    })
}

/// The entries of one of the lines, with the numbers of terms at their ids.
pub fn line_with_terms(
    alloc: Global,
    lines: &[Line],
    k: u32,
    terms: &[Term],
) -> Result<Held, AllocError>
    requires inside { k < length lines.now }
    requires counted { AreWithin lines.now }
    requires ascends { IdsAscend 0 terms.now }
    ensures { IfOk result (λ h. h ≡ held_of k (line_puts terms.now (line_at lines.now k))) }
{
    with_terms(alloc, &lines[k as usize], k, terms)
}

/// The entries of the line that a term names, with its number at an id.
fn row_with(alloc: Global, lines: &[Line], k: u32, term: &Term) -> Result<Held, AllocError>
    requires inside { term.now.id < length lines.now }
    requires counted { AreWithin lines.now }
    ensures { IfOk result (λ h. h ≡ held_of term.now.id (line_put k term.now.value (line_at lines.now term.now.id))) }
{
    let across = [Term {
        id: k,
        value: term.value,
    }];
    line_with_terms(alloc, lines, term.id, &across)
}

/// The entries of each line that terms name, with its term's number at an id.
pub fn rows_with(
    alloc: Global,
    lines: &[Line],
    k: u32,
    terms: &[Term],
) -> Result<Vec<Held>, AllocError>
    requires inside { All (λ t. t.id < length lines.now) terms.now }
    requires counted { AreWithin lines.now }
    ensures { IfOk result (λ hs. hs.items ≡ rows_held lines.now k terms.now) }
{
    let mut held = Vec::with_capacity(alloc, terms.len())?;
    for term in terms {
        held.push(row_with(alloc, lines, k, term)?)?;
    }
    Ok(held)
}

/// Gives a line entries, and keeps those that it had in their place.
fn exchange_line(line: &mut Line, held: &mut Held)
    ensures line { line.new ≡ line_given held.old line.old }
    ensures held { held.new ≡ held_of held.old.line line.old }
{
    swap(&mut line.live_entries, &mut held.live_entries);
    swap(&mut line.entries, &mut held.entries);
}

/// Gives one of the lines entries, and keeps those that it had in their place.
pub fn exchange(lines: &mut Vec<Line>, held: &mut Held)
    requires { held.old.line < length lines.old.items }
    ensures lines { lines.new.items ≡ one_given held.old lines.old.items }
    ensures held { held.new ≡ held_of held.old.line (line_at lines.old.items held.old.line) }
{
    let line = &mut lines[held.line as usize];
    exchange_line(line, held);
}

/// Gives lines entries, the first one first, and keeps those that they had in their place.
pub fn exchange_all(lines: &mut Vec<Line>, held: &mut Vec<Held>)
    requires { AreInside held.old.items lines.old.items }
    ensures lines { lines.new.items ≡ all_given held.old.items lines.old.items }
    ensures held { held.new.items ≡ all_held held.old.items lines.old.items }
{
    for one in held.iter_mut() {
        exchange(lines, one);
    }
}

/// Gives lines the entries that they had, the last one first.
pub fn give_back(lines: &mut Vec<Line>, held: Vec<Held>)
    requires { AreInside held.items lines.old.items }
    ensures { lines.new.items ≡ given_back held.items lines.old.items }
{
    let mut left = held;
    while let Some(last) = left.pop() {
        let mut last = last;
        exchange(lines, &mut last);
    }
}
