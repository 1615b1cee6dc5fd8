//! Records.

ghost use Rattle.std.specs.Prelude.{◌≡◌, ◌↔◌, IsTrue};

use crate::lists::same_terms;
use undo_records::{
    BoundTightening, CoefficientTightening, DominatedColumn, DoubletonEquation, EndApart,
    FixedColumn, ForcingRow, FreeColumnSingleton, KeptEnd, KeptNumber, NumberApart,
    ParallelColumns, ParallelRows, RowFate, Side, SingletonRow, SlackColumnSingleton, Undo,
};

fn same_number(one: &KeptNumber, other: &KeptNumber) -> bool
    ensures { IsTrue result ↔ (one.now ≡ other.now) }
{
    one.get().is_same(&other.get())
}

fn same_end(one: &KeptEnd, other: &KeptEnd) -> bool
    ensures { IsTrue result ↔ (one.now ≡ other.now) }
{
    one.get().is_same(&other.get())
}

fn same_number_apart(one: &NumberApart, other: &NumberApart) -> bool
    ensures { IsTrue result ↔ (one.now ≡ other.now) }
{
    one.get().is_same(&other.get())
}

fn same_end_apart(one: &EndApart, other: &EndApart) -> bool
    ensures { IsTrue result ↔ (one.now ≡ other.now) }
{
    one.get().is_same(&other.get())
}

fn same_side(one: Side, other: Side) -> bool
    ensures { IsTrue result ↔ (one ≡ other) }
{
    one == other
}

fn same_fate(one: RowFate, other: RowFate) -> bool
    ensures { IsTrue result ↔ (one ≡ other) }
{
    one == other
}

fn same_singleton_row(one: &SingletonRow, other: &SingletonRow) -> bool
    ensures { IsTrue result ↔ (one.now ≡ other.now) }
{
    one.row == other.row
        && one.column == other.column
        && same_number(&one.value, &other.value)
        && same_end(&one.lower, &other.lower)
        && same_end(&one.upper, &other.upper)
}

fn same_fixed_column(one: &FixedColumn, other: &FixedColumn) -> bool
    ensures { IsTrue result ↔ (one.now ≡ other.now) }
{
    one.column == other.column
        && same_number(&one.value, &other.value)
        && same_number(&one.cost, &other.cost)
        && same_terms(one.entries.as_slice(), other.entries.as_slice())
}

fn same_forcing_row(one: &ForcingRow, other: &ForcingRow) -> bool
    ensures { IsTrue result ↔ (one.now ≡ other.now) }
{
    one.row == other.row
        && same_side(one.side, other.side)
        && same_terms(one.entries.as_slice(), other.entries.as_slice())
}

fn same_bound_tightening(one: &BoundTightening, other: &BoundTightening) -> bool
    ensures { IsTrue result ↔ (one.now ≡ other.now) }
{
    one.row == other.row
        && one.column == other.column
        && same_side(one.side, other.side)
        && same_end(&one.bound, &other.bound)
        && same_terms(one.entries.as_slice(), other.entries.as_slice())
}

fn same_coefficient_tightening(one: &CoefficientTightening, other: &CoefficientTightening) -> bool
    ensures { IsTrue result ↔ (one.now ≡ other.now) }
{
    one.row == other.row && one.column == other.column
}

fn same_dominated_column(one: &DominatedColumn, other: &DominatedColumn) -> bool
    ensures { IsTrue result ↔ (one.now ≡ other.now) }
{
    one.row == other.row && one.better == other.better && one.column == other.column
}

/// Whether all but the numbers at the deleted column are the same.
fn same_kept_column(one: &DoubletonEquation, other: &DoubletonEquation) -> bool
    ensures { IsTrue result ↔ ((one.now.row ≡ other.now.row) × (one.now.column ≡ other.now.column) × (one.now.kept ≡ other.now.kept) × (one.now.lower ≡ other.now.lower) × (one.now.upper ≡ other.now.upper)) }
{
    one.row == other.row
        && one.column == other.column
        && one.kept == other.kept
        && same_end_apart(&one.lower, &other.lower)
        && same_end_apart(&one.upper, &other.upper)
}

fn same_doubleton_equation(one: &DoubletonEquation, other: &DoubletonEquation) -> bool
    ensures { IsTrue result ↔ (one.now ≡ other.now) }
{
    same_kept_column(one, other)
        && same_number_apart(&one.value, &other.value)
        && same_number_apart(&one.kept_value, &other.kept_value)
        && same_number_apart(&one.equal, &other.equal)
        && same_number_apart(&one.cost, &other.cost)
        && same_terms(one.entries.as_slice(), other.entries.as_slice())
}

fn same_free_column_singleton(one: &FreeColumnSingleton, other: &FreeColumnSingleton) -> bool
    ensures { IsTrue result ↔ (one.now ≡ other.now) }
{
    one.column == other.column
        && one.row == other.row
        && same_number_apart(&one.value, &other.value)
        && same_number_apart(&one.at, &other.at)
        && same_number_apart(&one.price, &other.price)
        && same_terms(one.entries.as_slice(), other.entries.as_slice())
}

/// Whether the four ends are the same.
fn same_ends(one: &SlackColumnSingleton, other: &SlackColumnSingleton) -> bool
    ensures { IsTrue result ↔ ((one.now.lower_side ≡ other.now.lower_side) × (one.now.upper_side ≡ other.now.upper_side) × (one.now.lower ≡ other.now.lower) × (one.now.upper ≡ other.now.upper)) }
{
    same_end_apart(&one.lower_side, &other.lower_side)
        && same_end_apart(&one.upper_side, &other.upper_side)
        && same_end_apart(&one.lower, &other.lower)
        && same_end_apart(&one.upper, &other.upper)
}

fn same_slack_column_singleton(one: &SlackColumnSingleton, other: &SlackColumnSingleton) -> bool
    ensures { IsTrue result ↔ (one.now ≡ other.now) }
{
    one.column == other.column
        && one.row == other.row
        && same_number_apart(&one.value, &other.value)
        && same_number_apart(&one.price, &other.price)
        && same_ends(one, other)
        && same_fate(one.fate, other.fate)
        && same_terms(one.entries.as_slice(), other.entries.as_slice())
}

fn same_parallel_rows(one: &ParallelRows, other: &ParallelRows) -> bool
    ensures { IsTrue result ↔ (one.now ≡ other.now) }
{
    one.row == other.row
        && one.kept == other.kept
        && same_number_apart(&one.factor, &other.factor)
        && same_end_apart(&one.lower, &other.lower)
        && same_end_apart(&one.upper, &other.upper)
        && same_terms(one.entries.as_slice(), other.entries.as_slice())
}

fn same_parallel_columns(one: &ParallelColumns, other: &ParallelColumns) -> bool
    ensures { IsTrue result ↔ (one.now ≡ other.now) }
{
    one.column == other.column
        && one.kept == other.kept
        && same_number_apart(&one.factor, &other.factor)
        && same_end_apart(&one.lower, &other.lower)
        && same_end_apart(&one.upper, &other.upper)
        && same_end_apart(&one.kept_lower, &other.kept_lower)
        && same_end_apart(&one.kept_upper, &other.kept_upper)
}

/// Whether two records are the same: of one kind, with the same ids, numbers and lists.
pub fn same_record(one: &Undo, other: &Undo) -> bool
    ensures { IsTrue result ↔ (one.now ≡ other.now) }
{
    match (one, other) {
        (Undo::EmptyRow(a), Undo::EmptyRow(b)) => a.row == b.row,
        (Undo::SingletonRow(a), Undo::SingletonRow(b)) => same_singleton_row(a, b),
        (Undo::FixedColumn(a), Undo::FixedColumn(b)) => same_fixed_column(a, b),
        (Undo::RoundedBounds(a), Undo::RoundedBounds(b)) => a.column == b.column,
        (Undo::RedundantRow(a), Undo::RedundantRow(b)) => a.row == b.row,
        (Undo::RedundantSide(a), Undo::RedundantSide(b)) => a.row == b.row,
        (Undo::ForcingRow(a), Undo::ForcingRow(b)) => same_forcing_row(a, b),
        (Undo::BoundTightening(a), Undo::BoundTightening(b)) => same_bound_tightening(a, b),
        (Undo::CoefficientTightening(a), Undo::CoefficientTightening(b)) => {
            same_coefficient_tightening(a, b)
        }
        (Undo::DualFixing(a), Undo::DualFixing(b)) => a.column == b.column,
        (Undo::DominatedColumn(a), Undo::DominatedColumn(b)) => same_dominated_column(a, b),
        (Undo::DoubletonEquation(a), Undo::DoubletonEquation(b)) => same_doubleton_equation(a, b),
        (Undo::FreeColumnSingleton(a), Undo::FreeColumnSingleton(b)) => {
            same_free_column_singleton(a, b)
        }
        (Undo::SlackColumnSingleton(a), Undo::SlackColumnSingleton(b)) => {
            same_slack_column_singleton(a, b)
        }
        (Undo::ParallelRows(a), Undo::ParallelRows(b)) => same_parallel_rows(a, b),
        (Undo::ParallelColumns(a), Undo::ParallelColumns(b)) => same_parallel_columns(a, b),
        (Undo::EmptyColumn(a), Undo::EmptyColumn(b)) => a.column == b.column,
        _ => false,
    }
}
