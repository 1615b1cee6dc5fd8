//! Lists of rows or columns, and the entries in which they cross.

ghost use Rattle.std.specs.Prelude.{◌≡◌, ◌+◌, ◌≤◌, ◌++◌, [], length, true, vec_capacity, IfOk, IfSome, IfNone};
ghost use Rattle.lp_model.specs.Sparse.{Ascends};
ghost use Rattle.problem_model.specs.Problems.{first_of};
ghost use Rattle.problem_model.specs.Edits.{lines_losing, lines_without};
ghost use Rattle.problem_model.specs.Matrices.{IsMatrix, line_at, live_only};
ghost use Rattle.entry_lines.specs.Losses.{counted_out_at};

use crate::living::is_live;
use crate::moves::{count_out, delete};
use lp_model::{Term, Terms};
use problem_model::Line;
use std::alloc::{AllocError, Global};

/// Counts an entry out of each line that the terms name, where the others are the lines that these name.
fn count_out_at(lines: &mut [Line], alloc: Global, others: &[Line], terms: &[Term])
    requires { Ascends 0 (length lines.old) terms.now }
    ensures { lines.new ≡ counted_out_at others.now lines.old terms.now }
{
    for term in terms {
        count_out(&mut lines[term.id as usize], alloc, others);
    }
}

/// Deletes a line, and counts its entries out of the others.
pub fn delete_line(lines: &mut Vec<Line>, others: &mut Vec<Line>, k: u32)
    requires matrix { IsMatrix (record { rows = lines.old.items; columns = others.old.items }) }
    requires live { (line_at lines.old.items k).live ≡ true }
    ensures lines { lines.new.items ≡ lines_without lines.old.items k }
    ensures others { others.new.items ≡ lines_losing lines.new.items others.old.items k }
{
    let alloc = *lines.allocator();
    let entries = delete(&mut lines[k as usize], alloc);
    count_out_at(
        others.as_mut_slice(),
        alloc,
        lines.as_slice(),
        entries.as_slice(),
    );
}

/// How many of a line's entries are live. One past the last has none.
pub fn live_entries_of(lines: &[Line], k: u32) -> usize
    ensures { result ≡ (line_at lines.now k).live_entries }
{
    match lines.get(k as usize) {
        Some(line) => line.live_entries,
        None => 0,
    }
}

/// The entries of a line, if as many of them are live as it holds.
pub fn whole_line(lines: &[Line], k: u32) -> Option<&[Term]>
    ensures { IfSome result (λ terms. (terms.now ≡ (line_at lines.now k).entries) × ((line_at lines.now k).live_entries ≡ length terms.now)) }
{
    let line = lines.get(k as usize)?;
    let terms = line.entries.as_slice();
    if line.live_entries == terms.len() {
        Some(terms)
    } else {
        None
    }
}

/// The first term that names a live line.
pub fn first_live(others: &[Line], terms: &[Term]) -> Option<Term>
    ensures first { IfSome result (λ t. first_of (live_only others.now terms.now) ≡ t) }
    ensures none { IfNone result (live_only others.now terms.now ≡ []) }
{
    for term in terms {
        if is_live(others, term.id) {
            return Some(*term);
        }
    }
    None
}

/// Adds the terms that name a live line. There is room for all.
fn keep_live(items: &mut Vec<Term>, others: &[Line], terms: &[Term])
    requires { length items.old.items + length terms.now ≤ vec_capacity items.old }
    ensures { items.new.items ≡ items.old.items ++ live_only others.now terms.now }
{
    let mut rest = terms;
    while let [term, after @ ..] = rest {
        if is_live(others, term.id) {
            items.push_reserved(*term);
        }
        rest = after;
    }
}

/// The terms that name a live line.
fn live_terms(alloc: Global, others: &[Line], terms: &[Term]) -> Result<Terms, AllocError>
    ensures { IfOk result (λ ts. ts ≡ live_only others.now terms.now) }
{
    let mut items = Vec::with_capacity(alloc, terms.len())?;
    keep_live(&mut items, others, terms);
    Ok(Terms::new(items))
}

/// The entries of a line that name a live one of the others. A line past the last has none.
pub fn live_terms_of(
    alloc: Global,
    lines: &[Line],
    others: &[Line],
    k: u32,
) -> Result<Terms, AllocError>
    ensures { IfOk result (λ ts. ts ≡ live_only others.now (line_at lines.now k).entries) }
{
    match lines.get(k as usize) {
        Some(line) => live_terms(alloc, others, line.entries.as_slice()),
        None => Ok(Terms::empty(alloc)),
    }
}

/// Equal lines.
pub fn copy_lines(alloc: Global, lines: &[Line]) -> Result<Vec<Line>, AllocError>
    ensures { IfOk result (λ copies. copies.items ≡ lines.now) }
{
    let mut copies = Vec::with_capacity(alloc, lines.len())?;
    for line in lines {
        copies.push(Line {
            live: line.live,
            entries: line.entries.copy(alloc)?,
            live_entries: line.live_entries,
            changes: line.changes,
        })?;
    }
    Ok(copies)
}
