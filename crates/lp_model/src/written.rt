//! Whether a program can be written, and whether its entries are in order.

ghost use Rattle.std.specs.Prelude.{◌↔◌, IfSome, All, IsTrue, length};
ghost use Rattle.lp_model.specs.Sparse.{Ascends};
ghost use Rattle.lp_model.specs.Writable.{EntriesAscend, Writable, WritableBound, WritableColumn, WritableNumber, WritablePair, WritableRow, WritableWidth};

use crate::program::{ColumnDef, Program, RowDef};
use crate::terms::Term;
use crate::writing::{can_write, is_near};
use fractions::Numbers;
use fractions::ext::Ext;
use fractions::frac::Frac;

/// Whether the width of two sides that differ may be written, and has room above the lower one.
fn can_write_width(numbers: Numbers, lower: &Frac, upper: &Frac) -> bool
    ensures { IsTrue result ↔ WritableWidth numbers lower.now upper.now }
{
    match upper.sub(lower) {
        Ok(width) => can_write(numbers, &width) && lower.add(&width).is_ok(),
        Err(_) => false,
    }
}

/// Whether two finite sides may be written.
fn can_write_pair(numbers: Numbers, lower: &Frac, upper: &Frac) -> bool
    ensures { IsTrue result ↔ WritablePair numbers lower.now upper.now }
{
    can_write(numbers, lower)
        && can_write(numbers, upper)
        && lower.le(upper)
        && (lower.is_same(upper) || can_write_width(numbers, lower, upper))
}

/// Whether a row may be written.
fn can_write_row(numbers: Numbers, row: &RowDef) -> bool
    ensures { IsTrue result ↔ WritableRow numbers row.now }
{
    match (row.lower.number(), row.upper.number()) {
        (Some(lower), Some(upper)) => can_write_pair(numbers, &lower, &upper),
        (Some(lower), None) => can_write(numbers, &lower),
        (None, Some(upper)) => can_write(numbers, &upper),
        (None, None) => false,
    }
}

/// Whether a bound may be written.
fn can_write_bound(numbers: Numbers, bound: &Ext) -> bool
    ensures { IsTrue result ↔ IfSome bound.now (WritableBound numbers) }
{
    match bound.number() {
        Some(number) => can_write(numbers, &number) && is_near(&number),
        None => true,
    }
}

/// Whether the numbers of some terms may be written.
fn can_write_terms(numbers: Numbers, terms: &[Term]) -> bool
    ensures { IsTrue result ↔ All (λ term. WritableNumber numbers term.value) terms.now }
{
    terms.iter().all(|term| can_write(numbers, &term.value))
}

/// Whether a column may be written.
fn can_write_column(numbers: Numbers, column: &ColumnDef) -> bool
    ensures { IsTrue result ↔ WritableColumn numbers column.now }
{
    can_write(numbers, &column.cost)
        && can_write_bound(numbers, &column.lower)
        && can_write_bound(numbers, &column.upper)
        && can_write_terms(numbers, column.entries.as_slice())
}

/// Whether rows may be written.
fn can_write_rows(numbers: Numbers, rows: &[RowDef]) -> bool
    ensures { IsTrue result ↔ All (WritableRow numbers) rows.now }
{
    rows.iter().all(|row| can_write_row(numbers, row))
}

/// Whether columns may be written.
fn can_write_columns(numbers: Numbers, columns: &[ColumnDef]) -> bool
    ensures { IsTrue result ↔ All (WritableColumn numbers) columns.now }
{
    columns
        .iter()
        .all(|column| can_write_column(numbers, column))
}

/// Whether terms stand at ascending ids below a limit, and none is 0.
fn ascend(terms: &[Term], limit: usize) -> bool
    ensures { IsTrue result ↔ Ascends 0 limit terms.now }
{
    let mut next: usize = 0;
    let mut rest = terms;
    while let [term, after @ ..] = rest {
        let id = term.id as usize;
        if id < next || id >= limit || term.value.is_zero() {
            return false;
        }
        next = id + 1;
        rest = after;
    }
    true
}

/// Whether the entries of each column stand at ascending rows below a limit, and none is 0.
fn all_ascend(columns: &[ColumnDef], limit: usize) -> bool
    ensures { IsTrue result ↔ All (λ column. Ascends 0 limit column.entries) columns.now }
{
    columns
        .iter()
        .all(|column| ascend(column.entries.as_slice(), limit))
}

impl Program {
    /// Whether all numbers of the program can be written as an MPS text: they are decimal where these are the numbers, bounds are below 10^20
    /// in magnitude, and each row has a finite side, sides that are not crossed, and a width that can be written.
    pub fn is_writable(&self, numbers: Numbers) -> bool
        ensures { IsTrue result ↔ Writable numbers self.now }
    {
        can_write(numbers, &self.constant())
            && can_write_rows(numbers, self.rows())
            && can_write_columns(numbers, self.columns())
    }

    /// Whether the entries of each column stand at ascending rows of the program, and none is 0.
    pub fn has_ascending_entries(&self) -> bool
        ensures { IsTrue result ↔ EntriesAscend self.now }
    {
        all_ascend(self.columns(), self.rows().len())
    }
}
