//! The words of each record.

ghost use Rattle.std.specs.Prelude.{◌≡◌, OnOk};
ghost use Rattle.record_values.specs.Values.{rule_undone};
ghost use Rattle.record_file.specs.Fields.{rule_word, value_words, words_of_values, field_words};
ghost use Rattle.record_file.specs.Onto.{words_onto};

use crate::words::{
    push_bound, push_fate, push_id, push_lower, push_ratio, push_side, push_terms, push_upper,
};
use record_values::{Hearer, Value, tell};
use std::alloc::AllocError;
use std::convert::AsSlice;
use undo_records::Undo;

/// The rule of the reduction that a record undoes.
pub fn rule_name(undo: &Undo) -> &'static [u8]
    ensures { result.now ≡ rule_word (rule_undone undo.now) }
{
    match undo {
        Undo::EmptyRow(_) => b"K1",
        Undo::SingletonRow(_) => b"K2",
        Undo::FixedColumn(_) => b"K3",
        Undo::RoundedBounds(_) => b"K4",
        Undo::RedundantRow(_) => b"K5",
        Undo::RedundantSide(_) => b"K6",
        Undo::ForcingRow(_) => b"K7",
        Undo::BoundTightening(_) => b"K8",
        Undo::CoefficientTightening(_) => b"K9",
        Undo::DualFixing(_) => b"K10",
        Undo::DominatedColumn(_) => b"K11",
        Undo::DoubletonEquation(_) => b"K12",
        Undo::FreeColumnSingleton(_) => b"K13",
        Undo::SlackColumnSingleton(_) => b"K14",
        Undo::ParallelRows(_) => b"K15",
        Undo::ParallelColumns(_) => b"K16",
        Undo::EmptyColumn(_) => b"K17",
    }
}

/// Appends the words of a value.
fn push_value(out: &mut Vec<u8>, value: &Value<'_>) -> Result<(), AllocError>
    ensures { OnOk result (out.new.items ≡ words_onto out.old.items (value_words value.now)) }
{
    match value {
        Value::Id(id) => push_id(out, *id),
        Value::Ratio(number) => push_ratio(out, number),
        Value::LowerEnd(end) => push_lower(out, *end),
        Value::UpperEnd(end) => push_upper(out, *end),
        Value::Letter(side) => push_side(out, *side),
        Value::Bound(side, end) => push_bound(out, *side, *end),
        Value::Fate(fate) => push_fate(out, *fate),
        Value::Entries(terms) => push_terms(out, terms.as_slice()),
    }
}

/// Appends the words of values.
#[tactic(auto, using(crate::proofs::OntoLaws::values_onto_is))]
fn push_values(out: &mut Vec<u8>, values: &[Value<'_>]) -> Result<(), AllocError>
    ensures { OnOk result (out.new.items ≡ words_onto out.old.items (words_of_values values.now)) }
{
    let mut rest = values;
    while let [value, after @ ..] = rest {
        push_value(out, value)?;
        rest = after;
    }
    Ok(())
}

/// Hears values as words.
struct Words;

impl Hearer for Words {
    type Kept = Vec<u8>;

    type Answer = Result<(), AllocError>;

    ghost hears = { λ before values answer after. OnOk answer (after.items ≡ words_onto before.items (words_of_values values)) };

    fn hear(out: &mut Vec<u8>, values: &[Value<'_>]) -> Result<(), AllocError> {
        push_values(out, values)
    }
}

/// Appends the fields of a record.
pub fn push_fields(out: &mut Vec<u8>, undo: &Undo) -> Result<(), AllocError>
    ensures { OnOk result (out.new.items ≡ words_onto out.old.items (field_words undo.now)) }
{
    tell::<Words>(out, undo)
}
