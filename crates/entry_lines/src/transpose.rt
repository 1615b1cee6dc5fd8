//! Rows of columns.

ghost use Rattle.std.specs.Prelude.{◌≡◌, ◌<◌, ◌^◌, ◌++◌, ◌∷◌, [], ℕ, length, map, IfOk, OnOk, slice_index_or};
ghost use Rattle.std.specs.List.{All};
ghost use Rattle.lp_model.specs.Sparse.{Ascends};
ghost use Rattle.problem_model.specs.Matrices.{line_at};
ghost use Rattle.problem_model.specs.Programs.{line_of};
ghost use Rattle.entry_lines.specs.Across.{across, scattered};

use lp_model::{ColumnDef, Term, Terms};
use problem_model::Line;
use std::alloc::{AllocError, Global};
use std::mem::replace;

/// Adds a term at the end.
fn add(terms: &mut Terms, alloc: Global, term: Term) -> Result<(), AllocError>
    ensures { OnOk result (terms.new ≡ terms.old ++ term ∷ []) }
{
    let mut items = replace(terms, Terms::empty(alloc)).into_vec();
    items.push(term)?;
    *terms = Terms::new(items);
    Ok(())
}

/// Adds an entry in column `j` to each row that the column's terms name.
fn scatter(rows: &mut [Terms], alloc: Global, terms: &[Term], j: u32) -> Result<(), AllocError>
    requires { Ascends 0 (length rows.old) terms.now }
    ensures { OnOk result (rows.new ≡ scattered j rows.old terms.now) }
{
    for term in terms {
        let entry = Term {
            id: j,
            value: term.value,
        };
        add(&mut rows[term.id as usize], alloc, entry)?;
    }
    Ok(())
}

/// Counts one more.
fn count_one(counts: &mut [u32], i: u32)
    ensures { length counts.new ≡ length counts.old }
{
    if (i as usize) < counts.len() {
        counts[i as usize] = counts[i as usize].saturating_add(1);
    }
}

/// Counts the terms that name each row.
fn count_terms(counts: &mut [u32], terms: &[Term])
    ensures { length counts.new ≡ length counts.old }
{
    for term in terms {
        count_one(counts, term.id);
    }
}

/// How many terms of columns name each of `count` rows.
fn row_counts(alloc: Global, count: usize, columns: &[ColumnDef]) -> Result<Vec<u32>, AllocError>
    ensures { IfOk result (λ counts. length counts.items ≡ count) }
{
    let mut counts = vec![in alloc; 0u32; count]?;
    for column in columns {
        count_terms(counts.as_mut_slice(), column.entries.as_slice());
    }
    Ok(counts)
}

/// A row without entries for each count, with room for so many.
fn empty_rows(alloc: Global, counts: &[u32]) -> Result<Vec<Terms>, AllocError>
    ensures long { IfOk result (λ rows. length rows.items ≡ length counts.now) }
    ensures empty { IfOk result (λ rows. (i : ℕ) → slice_index_or rows.items i [] ≡ []) }
{
    let mut rows = Vec::with_capacity(alloc, counts.len())?;
    for room in counts {
        rows.push(Terms::new(Vec::with_capacity(alloc, *room as usize)?))?;
    }
    Ok(rows)
}

/// The entries of each of `count` rows, of these columns.
fn entries_across(
    alloc: Global,
    count: usize,
    columns: &[ColumnDef],
) -> Result<Vec<Terms>, AllocError>
    requires few { length columns.now < 2 ^ 32 }
    requires ascend { All (λ c. Ascends 0 count c.entries) columns.now }
    ensures long { IfOk result (λ rows. length rows.items ≡ count) }
    ensures rows { IfOk result (λ rows. (i : ℕ) → i < count → slice_index_or rows.items i [] ≡ across i 0 columns.now) }
{
    let counts = row_counts(alloc, count, columns)?;
    let mut rows = empty_rows(alloc, &counts)?;
    for j in 0..columns.len() {
        scatter(
            rows.as_mut_slice(),
            alloc,
            columns[j].entries.as_slice(),
            j as u32,
        )?;
    }
    Ok(rows)
}

/// A live line with these entries.
fn line_with(entries: Terms) -> Line
    ensures { result ≡ line_of entries }
{
    let live_entries = entries.as_slice().len();
    Line {
        live: true,
        entries,
        live_entries,
        changes: 0,
    }
}

/// A live line of each list of entries.
fn lines_of(alloc: Global, lists: Vec<Terms>) -> Result<Vec<Line>, AllocError>
    ensures { IfOk result (λ lines. lines.items ≡ map line_of lists.items) }
{
    let mut lines = Vec::with_capacity(alloc, lists.len())?;
    for entries in lists {
        lines.push(line_with(entries))?;
    }
    Ok(lines)
}

/// So many rows, all live, of these columns.
pub fn rows_of(alloc: Global, count: usize, columns: &[ColumnDef]) -> Result<Vec<Line>, AllocError>
    requires few { length columns.now < 2 ^ 32 }
    requires ascend { All (λ c. Ascends 0 count c.entries) columns.now }
    ensures long { IfOk result (λ rows. length rows.items ≡ count) }
    ensures rows { IfOk result (λ rows. (i : ℕ) → i < count → line_at rows.items i ≡ line_of (across i 0 columns.now)) }
{
    lines_of(alloc, entries_across(alloc, count, columns)?)
}

/// The columns, all live.
pub fn columns_of(alloc: Global, columns: &[ColumnDef]) -> Result<Vec<Line>, AllocError>
    ensures { IfOk result (λ lines. lines.items ≡ map (λ c. line_of c.entries) columns.now) }
{
    let mut lines = Vec::with_capacity(alloc, columns.len())?;
    for column in columns {
        lines.push(line_with(column.entries.copy(alloc)?))?;
    }
    Ok(lines)
}
