//! The reading of a solution with duals.

ghost use Rattle.std.specs.Prelude.{◌≡◌, ◌+◌, ◌<◌, ◌^◌, length, [], All, IfOk, IfSome};
ghost use Rattle.point_text.specs.Holding.{held, Holds};
ghost use Rattle.point_text.specs.PairReading.{TookColumns, AreColumnsRead, AreDualsRead, IsPairRead, IsPairReadBy};

use crate::faults::SolError;
use crate::pairs::PairOf;
use crate::reading::take_lines;
use crate::solution_lines::split_pair_line;
use crate::values::Values;
use exact_numbers::{Exact, Numbers};
use exact_texts::Textual;
use fractions::frac::Frac;
use lp_model::{Duals, Labels, Pair, Point};
use std::alloc::Global;
use text_lines::{Fault, first_line};

/// What follows the line of the duals.
#[derive(Drop)]
pub struct DualPart<'a> {
    pub text: &'a [u8],
    /// The number of the line of the duals, from 1.
    pub line: u64,
}

/// What the lines of columns give, and what follows them, if there is a line of the duals.
#[derive(Drop)]
pub struct ColumnPart<'a, T: Exact> {
    pub point: Numbers<T>,
    pub duals: Option<DualPart<'a>>,
}

/// Takes in the lines of a text up to the line of the duals, and says what follows this line.
fn take_column_lines<'a, T: Textual>(
    alloc: Global,
    values: &mut Values<T>,
    text: &'a [u8],
) -> Result<Option<DualPart<'a>>, SolError>
    requires len { length values.old.numbers.items ≡ length values.old.table }
    requires holds { Holds T.texts.reading [] (held T.number values.old) }
    ensures took { TookColumns T.texts.reading values.old.table text.now result (held T.number values.new) }
    ensures len { length values.new.numbers.items ≡ length values.new.table }
    ensures table { values.new.table ≡ values.old.table }
{
    let mut fields = Vec::new(alloc);
    let mut rest = text;
    let mut line_number: u64 = 0;
    while !rest.is_empty() {
        let (line, after) = first_line(rest);
        line_number += 1;
        let Some(said) = split_pair_line(&mut fields, line)? else {
            return Ok(Some(DualPart {
                text: after,
                line: line_number,
            }));
        };
        if let Err(kind) = values.take_line(alloc, said)? {
            return Err(SolError::Fault(Fault {
                kind,
                line: line_number,
            }));
        }
        rest = after;
    }
    Ok(None)
}

/// The point of the lines of columns, and what follows them.
fn read_columns<'a, T: Textual, L: Labels>(
    alloc: Global,
    text: &'a [u8],
    labels: &L,
) -> Result<ColumnPart<'a, T>, SolError>
    ensures read { AreColumnsRead T.texts.reading (L.column_names labels.now) text.now result }
    ensures kept { IfOk result (λ part. All T.room.number part.point) }
{
    let mut values = Values::new(alloc, labels)?;
    match take_column_lines(alloc, &mut values, text) {
        Ok(duals) => {
            let point = values.point(alloc, labels)?;
            Ok(ColumnPart { point, duals })
        }
        Err(error) => Err(error),
    }
}

/// The duals of a text that follows so many lines.
fn read_duals<T: Textual, L: Labels>(
    alloc: Global,
    text: &[u8],
    lines_before: u64,
    labels: &L,
) -> Result<Numbers<T>, SolError>
    requires { lines_before + length text.now < 2 ^ 64 }
    ensures read { AreDualsRead T.texts.reading (L.row_names labels.now) lines_before text.now result }
    ensures kept { IfOk result (λ duals. All T.room.number duals) }
{
    let mut values = Values::of_rows(alloc, labels)?;
    match take_lines(alloc, &mut values, text, lines_before) {
        Ok(()) => Ok(values.duals(alloc, labels)?),
        Err(error) => Err(error),
    }
}

/// The point that a text gives, and its duals if it has the line of the duals, `=duals=` alone, in exact numbers of a kind: the lines before it
/// give values to columns, those after it give duals to rows. A column or a row that no line names has 0.
///
/// A line is a name and a number with spaces or tabs between them. Blank lines count for nothing, and so does a line whose name is `=obj=`.
/// Numbers are read exactly, fractions among them, as the kind reads them.
///
/// # Errors
/// [`SolError::Fault`] exactly where a line has a fault: the first such line, and its fault with
/// the lowest number; a second line of the duals has not two fields.
/// [`SolError::NoMemory`] where memory is short.
pub fn read_pair_of<T: Textual, L: Labels>(
    alloc: Global,
    bytes: &[u8],
    labels: &L,
) -> Result<PairOf<T>, SolError>
    ensures read { IsPairReadBy T.texts.reading (L.column_names labels.now) (L.row_names labels.now) bytes.now result }
    ensures point_kept { IfOk result (λ pair. All T.room.number pair.point) }
    ensures duals_kept { IfOk result (λ pair. IfSome pair.duals (λ duals. All T.room.number duals)) }
{
    match read_columns(alloc, bytes, labels) {
        Ok(ColumnPart { point, duals }) => match duals {
            Some(part) => match read_duals(alloc, part.text, part.line, labels) {
                Ok(duals) => Ok(PairOf {
                    point,
                    duals: Some(duals),
                }),
                Err(error) => Err(error),
            },
            None => Ok(PairOf { point, duals: None }),
        },
        Err(error) => Err(error),
    }
}

/// The point that a text gives, and its duals if it has the line of the duals, in fractions, as [`read_pair_of`] reads them.
///
/// # Errors
/// [`SolError::Fault`] exactly where a line has a fault: the first such line, and its fault with
/// the lowest number; a second line of the duals has not two fields.
/// [`SolError::NoMemory`] where memory is short.
pub fn read_pair<L: Labels>(alloc: Global, bytes: &[u8], labels: &L) -> Result<Pair, SolError>
    ensures { IsPairRead (L.column_names labels.now) (L.row_names labels.now) bytes.now result }
{
    let read: Result<PairOf<Frac>, SolError> = read_pair_of(alloc, bytes, labels);
    match read {
        Ok(PairOf { point, duals }) => {
            let duals = match duals {
                Some(duals) => Some(Duals::new(duals.into_fractions())),
                None => None,
            };
            Ok(Pair {
                point: Point::new(point.into_fractions()),
                duals,
            })
        }
        Err(error) => Err(error),
    }
}
