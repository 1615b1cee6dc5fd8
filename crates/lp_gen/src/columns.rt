//! Columns, as they are drawn.

ghost use Rattle.std.specs.Prelude.{◌≡◌, ◌≤◌, ◌<◌, ◌+◌, ◌*◌, ◌^◌, ℕ, [], map, length, nat_lt, IfOk, OnOk, unwrap_or, slice_index, insert};
ghost use Rattle.std.specs.List.{prefix_len, range_with_len};
ghost use Rattle.lp_gen.specs.Draws.{state_after};
ghost use Rattle.lp_gen.specs.Columns.{term, terms_of, coefficient_in, entries_seed, column_from, column_of, coefficient_sum};

use crate::draws::Draws;
use crate::parts::{numbered, whole};
use fractions::ext::Ext;
use fractions::frac::Frac;
use lp_model::{ColumnDef, Term, Terms, has_id};
use std::alloc::{AllocError, Global};

/// The place of a row among terms that ascend: how many are before it.
fn place_of(terms: &[Term], row: u32) -> usize
    ensures { result ≡ prefix_len (λ t. nat_lt t.id row) terms.now }
{
    let mut place = 0;
    let mut rest = terms;
    while let [term, after @ ..] = rest {
        if row <= term.id {
            return place;
        }
        place += 1;
        rest = after;
    }
    place
}

/// Puts a term at its place among terms that ascend.
fn put(terms: &mut Vec<Term>, row: u32, coefficient: u32) -> Result<(), AllocError>
    ensures { OnOk result (terms.new.items ≡ insert terms.old.items (prefix_len (λ t. nat_lt t.id row) terms.old.items) (term row coefficient)) }
{
    let place = place_of(terms.as_slice(), row);
    terms.insert(
        place,
        Term {
            id: row,
            value: whole(coefficient),
        },
    )?;
    Ok(())
}

/// The terms of a column in the order of rows, of three entries that are drawn. An entry in a row that was drawn before is left out. The others
/// are added to the sums of their rows.
fn draw_terms(
    draws: &mut Draws,
    alloc: Global,
    rows: u32,
    sums: &mut [u32],
) -> Result<Vec<Term>, AllocError>
    requires some { 0 < rows }
    requires rows { length sums.old ≡ rows }
    requires small { (i : ℕ) → i < rows → slice_index sums.old i + 9 < 2 ^ 32 }
    ensures terms { IfOk result (λ terms. terms.items ≡ terms_of draws.old rows 3) }
    ensures state { OnOk result (draws.new ≡ state_after draws.old 6) }
    ensures rows { OnOk result (length sums.new ≡ rows) }
    ensures sums { OnOk result ((i : ℕ) → i < rows → slice_index sums.new i ≡ slice_index sums.old i + unwrap_or (coefficient_in draws.old rows 3 i) 0) }
{
    let mut terms = Vec::new(alloc);
    for k in 0..3_u32 {
        let row = draws.draw(rows);
        let coefficient = draws.draw(9) + 1;
        if !has_id(terms.as_slice(), row) {
            put(&mut terms, row, coefficient)?;
            sums[row as usize] += coefficient;
        }
    }
    Ok(terms)
}

/// A column: its cost is drawn, then its entries, whose coefficients are added to the sums of their rows.
fn draw_column(
    draws: &mut Draws,
    alloc: Global,
    rows: u32,
    number: u32,
    sums: &mut [u32],
) -> Result<ColumnDef, AllocError>
    requires some { 0 < rows }
    requires rows { length sums.old ≡ rows }
    requires small { (i : ℕ) → i < rows → slice_index sums.old i + 9 < 2 ^ 32 }
    ensures column { IfOk result (λ column. column ≡ column_from draws.old rows number) }
    ensures state { OnOk result (draws.new ≡ state_after draws.old 7) }
    ensures rows { OnOk result (length sums.new ≡ rows) }
    ensures sums { OnOk result ((i : ℕ) → i < rows → slice_index sums.new i ≡ slice_index sums.old i + unwrap_or (coefficient_in (entries_seed draws.old) rows 3 i) 0) }
{
    let cost = whole(draws.draw(11));
    let terms = draw_terms(draws, alloc, rows, sums)?;
    Ok(ColumnDef {
        name: numbered(alloc, b'C', number)?,
        cost,
        lower: Ext::at(Frac::zero()),
        upper: Ext::at(whole(10)),
        whole: false,
        semi: false,
        entries: Terms::new(terms),
    })
}

/// Columns by number. The coefficients of each row are added to its sum, which is 0 before.
///
/// # Errors
///
/// Where there is no memory.
pub fn draw_columns(
    draws: &mut Draws,
    alloc: Global,
    rows: u32,
    columns: u32,
    sums: &mut [u32],
) -> Result<Vec<ColumnDef>, AllocError>
    requires some { 0 < rows }
    requires few { columns ≤ 100000 }
    requires rows { length sums.old ≡ rows }
    requires none { (i : ℕ) → i < rows → slice_index sums.old i ≡ 0 }
    ensures columns { IfOk result (λ found. found.items ≡ map (column_of draws.old rows) (range_with_len 0 columns)) }
    ensures state { OnOk result (draws.new ≡ state_after draws.old (7 * columns)) }
    ensures rows { OnOk result (length sums.new ≡ rows) }
    ensures sums { OnOk result ((i : ℕ) → i < rows → slice_index sums.new i ≡ coefficient_sum draws.old rows columns i) }
{
    let mut found = Vec::with_capacity(alloc, columns as usize)?;
    for j in 0..columns {
        let column = draw_column(draws, alloc, rows, j, sums)?;
        found.push(column)?;
    }
    Ok(found)
}
