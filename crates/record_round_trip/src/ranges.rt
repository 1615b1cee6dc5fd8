//! The range of records: what each value of their type keeps, and so what is asked for their text to be read again. The functions here go over a value, and change nothing.

ghost use Rattle.std.specs.Prelude.{◌≡◌, ◌<◌, ◌^◌, All, None};
ghost use Rattle.fractions.specs.Lowest.{Fits};
ghost use Rattle.record_values.specs.declared.version.TextVersion.TheVariants.{First, Second};
ghost use Rattle.record_file.specs.RecordText.{record_text};
ghost use Rattle.record_reader.specs.Reading.{first_fault, records_of};
ghost use Rattle.record_round_trip.specs.Ranges.{EndFits, HasRange, IsId, ListFits, PartFits, ReadFits, TransactionFits, UndoFits, ValueFits, without_transactions};

use fractions::ext::Ext;
use lp_model::Term;
use problem_model::Part;
use record_values::{Hearer, Value, tell};
use undo_records::{PartRead, Records, Transaction, Transactions, Undo};

/// An end that is a number has room.
fn end_fits(end: &Ext)
    ensures { EndFits end.now }
{
    match end.number() {
        None => {}
        Some(number) => {
            let _parts = number.parts();
        }
    }
}

/// The ids and numbers of a list.
fn list_fits(terms: &[Term])
    ensures { ListFits terms.now }
{
    for term in terms {
        let _id = term.id;
        let _parts = term.value.parts();
    }
}

/// The ids and numbers of a value.
fn value_fits(value: &Value<'_>)
    ensures { ValueFits value.now }
{
    match value {
        Value::Id(id) => {
            let _id = *id;
        }
        Value::Ratio(number) => {
            let _parts = number.parts();
        }
        Value::LowerEnd(end) | Value::UpperEnd(end) | Value::Bound(_, end) => end_fits(end),
        Value::Entries(terms) => list_fits(terms.as_slice()),
        Value::Letter(_) | Value::Fate(_) => {}
    }
}

/// The ids and numbers of values.
fn values_fit(values: &[Value<'_>])
    ensures { All ValueFits values.now }
{
    for value in values {
        value_fits(value);
    }
}

/// Hears that values have room.
struct Room;

impl Hearer for Room {
    type Kept = ();

    type Answer = ();

    ghost hears = { λ before values answer after. All ValueFits values };

    fn hear(_kept: &mut (), values: &[Value<'_>]) {
        values_fit(values);
    }
}

/// The ids and numbers of a record.
fn undo_fits(undo: &Undo)
    ensures { UndoFits undo.now }
{
    tell::<Room>(&mut (), undo);
}

/// The ids and numbers of all records.
fn undos_fit(undos: &[Undo])
    ensures { All UndoFits undos.now }
{
    for undo in undos {
        undo_fits(undo);
    }
}

/// The id of a part.
fn part_fits(part: Part)
    ensures { PartFits part }
{
    match part {
        Part::Row(id) | Part::Sides(id) | Part::Col(id) | Part::Bounds(id) => {
            let _id = id;
        }
    }
}

/// A part that was read.
fn read_fits(read: &PartRead)
    ensures { ReadFits read.now }
{
    part_fits(read.part);
    let _changes = read.changes;
}

/// All parts that were read.
fn reads_fit(reads: &[PartRead])
    ensures { All ReadFits reads.now }
{
    for read in reads {
        read_fits(read);
    }
}

/// The worker of a transaction, and what it read.
fn transaction_fits(transaction: &Transaction<'_>)
    ensures { TransactionFits transaction.now }
{
    let _worker = transaction.by();
    let _count = transaction.reads().len();
    reads_fit(transaction.reads());
}

/// The workers of all transactions, and what they read.
fn transactions_fit(transactions: &Transactions)
    ensures { All TransactionFits transactions.now }
{
    for place in 0..transactions.len() {
        if let Some(transaction) = transactions.get(place) {
            transaction_fits(&transaction);
        }
    }
}

/// Every value of the type has the range that is asked for its text to be read again.
pub fn records_have_range(records: &Records)
    ensures { HasRange records.now }
{
    let _columns = records.columns().len();
    let _rows = records.rows().len();
    let _undos = records.undos().len();
    let _parts = records.offset().parts();
    undos_fit(records.undos());
    transactions_fit(records.transactions());
}

/// What is written of a value of the type has no fault. The second version gives the same records back, and the first one the same
/// without their transactions: the type keeps all that is asked for.
pub fn records_come_back(records: &Records)
    ensures sound { first_fault (record_text Second records.now) ≡ None }
    ensures same { records_of (record_text Second records.now) ≡ records.now }
    ensures sound_first { first_fault (record_text First records.now) ≡ None }
    ensures same_first { records_of (record_text First records.now) ≡ without_transactions records.now }
{
    records.is_sound();
    records.is_named();
    records.is_told();
    records_have_range(records);
}
