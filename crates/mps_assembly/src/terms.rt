//! The terms of columns, from entries that stand by rows.

ghost use Rattle.std.specs.Prelude.{◌≡◌, ◌==◌, ◌<◌, ◌≤◌, ◌+◌, ◌^◌, ◌++◌, ℕ, [], length, IfOk, OnOk, if◌then◌else◌, unwrap_or};
ghost use Rattle.fractions.specs.Number.{zero_ℚ};
ghost use Rattle.mps_profile.specs.Program.{terms_in, terms_below, id_of};
ghost use Rattle.mps_stores.specs.Entries.{value_in, IsOnce};
ghost use Rattle.mps_stores.specs.Stores.{number_in};
ghost use Rattle.mps_assembly.specs.Columnwise.{terms_at, number_terms, ids_after};

use crate::places::kind_at;
use fractions::frac::Frac;
use lp_model::{Term, Terms};
use mps_profile::row_kinds::RowKind;
use mps_stores::{Entry, RowEntries};
use std::alloc::{AllocError, Global};
use std::mem::replace;

/// Counts one more.
fn count_one(counts: &mut [u32], column: usize)
    ensures { length counts.new ≡ length counts.old }
{
    if column < counts.len() {
        counts[column] = counts[column].saturating_add(1);
    }
}

/// Counts the entries in each column.
fn count_entries(counts: &mut [u32], row: &[Entry])
    ensures { length counts.new ≡ length counts.old }
{
    for entry in row {
        count_one(counts, entry.column);
    }
}

/// How many entries of the first `rows` rows are in each of `columns` columns.
fn column_counts(
    alloc: Global,
    entries: &RowEntries,
    rows: usize,
    columns: usize,
) -> Result<Vec<u32>, AllocError>
    ensures { IfOk result (λ counts. length counts.items ≡ columns) }
{
    let mut counts = vec![in alloc; 0u32; columns]?;
    for i in 0..rows {
        count_entries(counts.as_mut_slice(), entries.row(i));
    }
    Ok(counts)
}

/// A column without terms for each count, with room for so many.
fn empty_columns(alloc: Global, counts: &[u32]) -> Result<Vec<Terms>, AllocError>
    ensures count { IfOk result (λ found. length found.items ≡ length counts.now) }
    ensures empty { IfOk result (λ found. (j : ℕ) → terms_at found.items j ≡ []) }
{
    let mut found = Vec::with_capacity(alloc, counts.len())?;
    for room in counts {
        found.push(Terms::new(Vec::with_capacity(alloc, *room as usize)?))?;
    }
    Ok(found)
}

/// Adds a row's number to the terms of a column, unless it is 0.
fn add_number(terms: &mut Terms, alloc: Global, id: u32, value: Frac) -> Result<(), AllocError>
    ensures { OnOk result (terms.new ≡ terms.old ++ number_terms id value) }
{
    if value.is_zero() {
        return Ok(());
    }
    let mut items = replace(terms, Terms::empty(alloc)).into_vec();
    items.push(Term { id, value })?;
    *terms = Terms::new(items);
    Ok(())
}

/// Adds an entry of a row with this id to the terms of its column, unless it is 0. A column past the last is left out.
///
/// # Errors
///
/// Where there is no memory.
pub fn add_entry(
    found: &mut Vec<Terms>,
    alloc: Global,
    id: u32,
    entry: Entry,
) -> Result<(), AllocError>
    ensures count { OnOk result (length found.new.items ≡ length found.old.items) }
    ensures added { OnOk result ((j : ℕ) → j < length found.old.items → terms_at found.new.items j ≡ (if entry.column == j then terms_at found.old.items j ++ number_terms id entry.value else terms_at found.old.items j)) }
{
    if entry.column < found.len() {
        add_number(&mut found[entry.column], alloc, id, entry.value)?;
    }
    Ok(())
}

/// Adds the entries of a row to the terms of their columns.
fn add_entries(
    found: &mut Vec<Terms>,
    alloc: Global,
    id: u32,
    row: &[Entry],
) -> Result<(), AllocError>
    requires { IsOnce row.now }
    ensures count { OnOk result (length found.new.items ≡ length found.old.items) }
    ensures added { OnOk result ((j : ℕ) → j < length found.old.items → terms_at found.new.items j ≡ terms_at found.old.items j ++ number_terms id (unwrap_or (value_in row.now j) zero_ℚ)) }
{
    let mut rest = row;
    while let [entry, more @ ..] = rest {
        add_entry(found, alloc, id, *entry)?;
        rest = more;
    }
    Ok(())
}

/// Adds a row to the terms of its columns, unless it is an N row, and gives the id of the next row.
fn add_row(
    found: &mut Vec<Terms>,
    alloc: Global,
    kind: RowKind,
    id: u32,
    row: &[Entry],
) -> Result<u32, AllocError>
    requires once { IsOnce row.now }
    requires few { id + 1 < 2 ^ 32 }
    ensures count { OnOk result (length found.new.items ≡ length found.old.items) }
    ensures added { OnOk result ((j : ℕ) → j < length found.old.items → terms_at found.new.items j ≡ terms_at found.old.items j ++ terms_in kind id (unwrap_or (value_in row.now j) zero_ℚ)) }
    ensures next { IfOk result (λ next. next ≡ id + ids_after kind) }
{
    if kind == RowKind::Free {
        return Ok(id);
    }
    add_entries(found, alloc, id, row)?;
    Ok(id + 1)
}

/// The terms of each column in the first `rows` rows, by ascending id. The rows without the N rows
/// have the ids from 0, in order.
///
/// # Errors
///
/// Where there is no memory.
#[tactic(auto, using(crate::proofs::Spreading::id_next))]
pub fn terms_by_column(
    alloc: Global,
    entries: &RowEntries,
    kinds: &[RowKind],
    rows: usize,
    columns: usize,
) -> Result<Vec<Terms>, AllocError>
    requires { rows < 2 ^ 32 }
    ensures count { IfOk result (λ found. length found.items ≡ columns) }
    ensures terms { IfOk result (λ found. (j : ℕ) → j < columns → terms_at found.items j ≡ terms_below kinds.now (λ i. unwrap_or (number_in entries.now i j) zero_ℚ) rows) }
{
    let counts = column_counts(alloc, entries, rows, columns)?;
    let mut found = empty_columns(alloc, &counts)?;
    let mut id: u32 = 0;
    for i in 0..rows {
        id = add_row(&mut found, alloc, kind_at(kinds, i), id, entries.row(i))?;
    }
    Ok(found)
}
