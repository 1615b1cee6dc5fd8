//! The values of each kind of record that has more than ids.

ghost use Rattle.std.specs.Prelude.{◌≡◌};
ghost use Rattle.undo_records.specs.declared.undo.Undo.TheVariants as kind;
ghost use Rattle.record_values.specs.Values.{values};

use crate::value::{Listed, Value};
use undo_records::{
    BoundTightening, DoubletonEquation, FixedColumn, ForcingRow, FreeColumnSingleton,
    ParallelColumns, ParallelRows, SingletonRow, SlackColumnSingleton,
};

/// The values of a row with one entry.
pub fn singleton_row(undo: &SingletonRow) -> [Value<'_>; 5]
    ensures { result ≡ values (kind.SingletonRow undo.now) }
{
    [
        Value::Id(undo.row),
        Value::Id(undo.column),
        Value::Ratio(undo.value.get()),
        Value::LowerEnd(undo.lower.get()),
        Value::UpperEnd(undo.upper.get()),
    ]
}

/// The values of a column with equal bounds.
pub fn fixed_column(undo: &FixedColumn) -> [Value<'_>; 4]
    ensures { result ≡ values (kind.FixedColumn undo.now) }
{
    [
        Value::Id(undo.column),
        Value::Ratio(undo.value.get()),
        Value::Ratio(undo.cost.get()),
        Value::Entries(Listed::new(undo.entries.as_slice())),
    ]
}

/// The values of a row that fixed its columns.
pub fn forcing_row(undo: &ForcingRow) -> [Value<'_>; 3]
    ensures { result ≡ values (kind.ForcingRow undo.now) }
{
    [
        Value::Id(undo.row),
        Value::Letter(undo.side),
        Value::Entries(Listed::new(undo.entries.as_slice())),
    ]
}

/// The values of a bound that was replaced.
pub fn bound_tightening(undo: &BoundTightening) -> [Value<'_>; 4]
    ensures { result ≡ values (kind.BoundTightening undo.now) }
{
    [
        Value::Id(undo.row),
        Value::Id(undo.column),
        Value::Bound(undo.side, undo.bound.get()),
        Value::Entries(Listed::new(undo.entries.as_slice())),
    ]
}

/// The values of an equation of two columns.
pub fn doubleton_equation(undo: &DoubletonEquation) -> [Value<'_>; 10]
    ensures { result ≡ values (kind.DoubletonEquation undo.now) }
{
    [
        Value::Id(undo.row),
        Value::Id(undo.column),
        Value::Id(undo.kept),
        Value::Ratio(undo.value.get()),
        Value::Ratio(undo.kept_value.get()),
        Value::Ratio(undo.equal.get()),
        Value::LowerEnd(undo.lower.get()),
        Value::UpperEnd(undo.upper.get()),
        Value::Ratio(undo.cost.get()),
        Value::Entries(Listed::new(undo.entries.as_slice())),
    ]
}

/// The values of a free column singleton.
pub fn free_column_singleton(undo: &FreeColumnSingleton) -> [Value<'_>; 6]
    ensures { result ≡ values (kind.FreeColumnSingleton undo.now) }
{
    [
        Value::Id(undo.column),
        Value::Id(undo.row),
        Value::Ratio(undo.value.get()),
        Value::Ratio(undo.at.get()),
        Value::Ratio(undo.price.get()),
        Value::Entries(Listed::new(undo.entries.as_slice())),
    ]
}

/// The values of a slack column singleton.
pub fn slack_column_singleton(undo: &SlackColumnSingleton) -> [Value<'_>; 10]
    ensures { result ≡ values (kind.SlackColumnSingleton undo.now) }
{
    [
        Value::Id(undo.column),
        Value::Id(undo.row),
        Value::Ratio(undo.value.get()),
        Value::Ratio(undo.price.get()),
        Value::LowerEnd(undo.lower_side.get()),
        Value::UpperEnd(undo.upper_side.get()),
        Value::LowerEnd(undo.lower.get()),
        Value::UpperEnd(undo.upper.get()),
        Value::Fate(undo.fate),
        Value::Entries(Listed::new(undo.entries.as_slice())),
    ]
}

/// The values of parallel rows.
pub fn parallel_rows(undo: &ParallelRows) -> [Value<'_>; 6]
    ensures { result ≡ values (kind.ParallelRows undo.now) }
{
    [
        Value::Id(undo.row),
        Value::Id(undo.kept),
        Value::Ratio(undo.factor.get()),
        Value::LowerEnd(undo.lower.get()),
        Value::UpperEnd(undo.upper.get()),
        Value::Entries(Listed::new(undo.entries.as_slice())),
    ]
}

/// The values of parallel columns.
pub fn parallel_columns(undo: &ParallelColumns) -> [Value<'_>; 7]
    ensures { result ≡ values (kind.ParallelColumns undo.now) }
{
    [
        Value::Id(undo.column),
        Value::Id(undo.kept),
        Value::Ratio(undo.factor.get()),
        Value::LowerEnd(undo.lower.get()),
        Value::UpperEnd(undo.upper.get()),
        Value::LowerEnd(undo.kept_lower.get()),
        Value::UpperEnd(undo.kept_upper.get()),
    ]
}
