//! The lift of a point, alone or with duals, and its texts.

ghost use Rattle.std.specs.Prelude.{◌≡◌, ◌<◌, Some, None, length, map, All, IfOk, IfSome};
ghost use Rattle.lp_model.specs.Writable.{EntriesAscend};
ghost use Rattle.point_text.specs.PairText.{pair_text_by};
ghost use Rattle.undo_pairs.specs.LiftPair.{lift_pair as lift_pair_of};
ghost use Rattle.undo_pairs.specs.Numbers.{IsSized, priced_of};
ghost use Rattle.record_reader.specs.Matching.{Matches};
ghost use Rattle.postsolve_command.specs.Lifted.{GivesTexts, Lifts, Starts, column_names, columns_text, counts_text, row_names, rows_text, stop_text, unpriced_text};

use crate::refusal::Refusal;
use exact_numbers::{Exact, Numbers};
use exact_texts::Textual;
use lp_model::{Labels, Program};
use point_text::{PairOf, write_pair_of};
use postsolve_dual::{PairBuf, lift_pair};
use postsolve_primal::{at_columns, lift};
use std::alloc::{AllocError, Global};
use undo_records::Records;

/// What a postsolve writes, and what it prints.
#[derive(Drop)]
pub struct Texts {
    pub result: Vec<u8>,
    pub printed: Vec<u8>,
}

/// The line that names the record at which a lift stops.
fn stop_line(alloc: Global, at: usize) -> Result<Vec<u8>, AllocError>
    ensures { IfOk result (λ line. line.items ≡ stop_text at) }
{
    let text = format!(in alloc; "past record {at}\n")?;
    Vec::from_slice(alloc, text.as_bytes())
}

/// The line that names the column whose reduced cost has no room.
fn unpriced_line(alloc: Global, program: &Program, column: usize) -> Result<Vec<u8>, AllocError>
    requires { column < length program.now.columns }
    ensures { IfOk result (λ line. line.items ≡ unpriced_text program.now column) }
{
    let mut line = Vec::from_slice(alloc, b"past column ")?;
    line.extend_from_slice(program.column_name(column).as_bytes())?;
    line.extend_from_slice(b"\n")?;
    Ok(line)
}

/// Each number has room in its kind. Says so, and does nothing.
fn have_room<T: Textual>(numbers: &[T])
    ensures { All T.room.number (map T.number numbers.now) }
{
    for number in numbers {
        number.has_room();
    }
}

/// The numbers, each of which has room in its kind.
fn with_room<T: Textual>(numbers: Numbers<T>) -> Numbers<T>
    ensures same { result ≡ numbers }
    ensures room { All T.room.number numbers }
{
    have_room(numbers.as_slice());
    numbers
}

/// The original point that the records make of a reduced one.
fn lifted_point<T: Textual>(
    alloc: Global,
    program: &Program,
    records: &Records,
    point: Numbers<T>,
) -> Result<PairOf<T>, Refusal>
    ensures { Lifts T.room records.now program.now point None result }
{
    let mut numbers = at_columns(alloc, records, point)?;
    match lift(alloc, records, &mut numbers)? {
        Ok(()) => Ok(PairOf {
            point: with_room(numbers),
            duals: None,
        }),
        Err(stop) => Err(Refusal::Stopped(stop_line(alloc, stop.at)?)),
    }
}

/// A reduced point with duals at the original ids.
fn started_pair<T: Textual>(
    alloc: Global,
    program: &Program,
    records: &Records,
    point: Numbers<T>,
    duals: Numbers<T>,
) -> Result<PairBuf<T>, Refusal>
    requires each { length duals ≡ length program.now.rows }
    requires ascends { EntriesAscend program.now }
    ensures { Starts T.room records.now program.now point duals result }
{
    match PairBuf::new(alloc, records, program, point, duals)? {
        Ok(pair) => Ok(pair),
        Err(unpriced) => {
            let line = unpriced_line(alloc, program, unpriced.column)?;
            Err(Refusal::Stopped(line))
        }
    }
}

/// The original point with duals that the records make of a reduced one.
fn lifted_pair<T: Textual>(
    alloc: Global,
    program: &Program,
    records: &Records,
    point: Numbers<T>,
    duals: Numbers<T>,
) -> Result<PairOf<T>, Refusal>
    requires each { length duals ≡ length program.now.rows }
    requires ascends { EntriesAscend program.now }
    ensures { Lifts T.room records.now program.now point (Some duals) result }
{
    let mut buffer = started_pair(alloc, program, records, point, duals)?;
    match lift_pair(alloc, records, &mut buffer)? {
        Ok(()) => {
            let (point, duals) = buffer.into_parts(records.sense());
            Ok(PairOf {
                point: with_room(point),
                duals: Some(with_room(duals)),
            })
        }
        Err(stop) => Err(Refusal::Stopped(stop_line(alloc, stop.at)?)),
    }
}

/// What the records make of a reduced point, with its duals if it has duals.
fn lifted<T: Textual>(
    alloc: Global,
    program: &Program,
    records: &Records,
    pair: PairOf<T>,
) -> Result<PairOf<T>, Refusal>
    requires each { IfSome pair.duals (λ duals. length duals ≡ length program.now.rows) }
    requires ascends { EntriesAscend program.now }
    ensures { Lifts T.room records.now program.now pair.point pair.duals result }
{
    let PairOf { point, duals } = pair;
    match duals {
        Some(duals) => lifted_pair(alloc, program, records, point, duals),
        None => lifted_point(alloc, program, records, point),
    }
}

/// The line that counts the columns of the reduced program and of the original one.
fn columns_line(alloc: Global, program: &Program, records: &Records) -> Result<Vec<u8>, AllocError>
    requires { Matches records.now program.now }
    ensures { IfOk result (λ line. line.items ≡ columns_text records.now) }
{
    let reduced = program.column_count();
    let all = records.columns().len();
    let text = format!(in alloc; "columns {reduced} -> {all}\n")?;
    Vec::from_slice(alloc, text.as_bytes())
}

/// The line that counts the rows of the reduced program and of the original one.
fn rows_line(alloc: Global, program: &Program, records: &Records) -> Result<Vec<u8>, AllocError>
    requires { Matches records.now program.now }
    ensures { IfOk result (λ line. line.items ≡ rows_text records.now) }
{
    let reduced = program.row_count();
    let all = records.rows().len();
    let text = format!(in alloc; "rows {reduced} -> {all}\n")?;
    Vec::from_slice(alloc, text.as_bytes())
}

/// The lines that count columns, and with duals rows.
fn counts<T: Exact>(
    alloc: Global,
    program: &Program,
    records: &Records,
    pair: &PairOf<T>,
) -> Result<Vec<u8>, AllocError>
    requires { Matches records.now program.now }
    ensures { IfOk result (λ text. text.items ≡ counts_text records.now pair.now.duals) }
{
    let mut text = columns_line(alloc, program, records)?;
    let Some(_duals) = &pair.duals else {
        return Ok(text);
    };
    let rows = rows_line(alloc, program, records)?;
    text.extend_from_slice(rows.as_slice())?;
    Ok(text)
}

/// The text of an original point by its names, with its duals if it has duals.
#[tactic(auto, using(crate::proofs::Columns::names_counted))]
fn result_text<T: Textual>(
    alloc: Global,
    records: &Records,
    pair: &PairOf<T>,
) -> Result<Vec<u8>, AllocError>
    requires point { length pair.now.point ≡ length records.now.columns }
    requires duals { IfSome pair.now.duals (λ duals. length duals ≡ length records.now.rows) }
    ensures { IfOk result (λ text. text.items ≡ pair_text_by T.texts.writing (column_names records.now) (row_names records.now) pair.now.point pair.now.duals) }
{
    write_pair_of(alloc, records, pair)
}

/// Brings a reduced point back, with its duals if it has duals, and makes the texts of it.
pub fn lifted_texts<T: Textual>(
    alloc: Global,
    program: &Program,
    records: &Records,
    pair: PairOf<T>,
) -> Result<Texts, Refusal>
    requires matches { Matches records.now program.now }
    requires each { IfSome pair.duals (λ duals. length duals ≡ length program.now.rows) }
    requires ascends { EntriesAscend program.now }
    ensures { GivesTexts T.room T.texts.writing records.now program.now pair.point pair.duals result }
{
    let printed = counts(alloc, program, records, &pair)?;
    let lifted = lifted(alloc, program, records, pair)?;
    let result = result_text(alloc, records, &lifted)?;
    Ok(Texts { result, printed })
}
