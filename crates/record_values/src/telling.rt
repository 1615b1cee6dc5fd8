//! A record tells its values.

ghost use Rattle.std.specs.Prelude.{List};
ghost use Rattle.record_values.specs.declared.value.Value.{Value};
ghost use Rattle.record_values.specs.Values.{values};

use crate::kinds;
use crate::value::Value;
use undo_records::Undo;

/// What hears the values of a record.
pub trait Hearer {
    /// What is kept of what was heard.
    type Kept;

    /// What is answered to values.
    type Answer;

    /// Whether these values lead from what was kept before to an answer and to what is kept after.
    ghost hears: { Self.Kept → List Value → Self.Answer → Self.Kept → Type 0 };

    /// Hears values.
    fn hear(kept: &mut Self::Kept, values: &[Value<'_>]) -> Self::Answer
        ensures { hears kept.old values.now result kept.new };
}

/// Tells a record's values, all at once.
pub fn tell<H: Hearer>(kept: &mut H::Kept, undo: &Undo) -> H::Answer
    ensures { H.hears kept.old (values undo.now) result kept.new }
{
    match undo {
        Undo::EmptyRow(record) => H::hear(kept, &[Value::Id(record.row)]),
        Undo::SingletonRow(record) => H::hear(kept, &kinds::singleton_row(record)),
        Undo::FixedColumn(record) => H::hear(kept, &kinds::fixed_column(record)),
        Undo::RoundedBounds(record) => H::hear(kept, &[Value::Id(record.column)]),
        Undo::RedundantRow(record) => H::hear(kept, &[Value::Id(record.row)]),
        Undo::RedundantSide(record) => H::hear(kept, &[Value::Id(record.row)]),
        Undo::ForcingRow(record) => H::hear(kept, &kinds::forcing_row(record)),
        Undo::BoundTightening(record) => H::hear(kept, &kinds::bound_tightening(record)),
        Undo::CoefficientTightening(record) => H::hear(
            kept,
            &[Value::Id(record.row), Value::Id(record.column)],
        ),
        Undo::DualFixing(record) => H::hear(kept, &[Value::Id(record.column)]),
        Undo::DominatedColumn(record) => H::hear(
            kept,
            &[
                Value::Id(record.row),
                Value::Id(record.better),
                Value::Id(record.column),
            ],
        ),
        Undo::DoubletonEquation(record) => H::hear(kept, &kinds::doubleton_equation(record)),
        Undo::FreeColumnSingleton(record) => H::hear(kept, &kinds::free_column_singleton(record)),
        Undo::SlackColumnSingleton(record) => H::hear(kept, &kinds::slack_column_singleton(record)),
        Undo::ParallelRows(record) => H::hear(kept, &kinds::parallel_rows(record)),
        Undo::ParallelColumns(record) => H::hear(kept, &kinds::parallel_columns(record)),
        Undo::EmptyColumn(record) => H::hear(kept, &[Value::Id(record.column)]),
    }
}
