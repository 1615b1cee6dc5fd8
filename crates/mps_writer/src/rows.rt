//! The sections of rows.

ghost use Rattle.std.specs.Prelude.{◌≡◌, ◌++◌, OnOk, IfOk, IsOkUnless, flat_map};
ghost use Rattle.mps_writer.specs.declared.error.WriteError.TheVariants.{NoMemory};
ghost use Rattle.mps_writer.specs.Sections.{type_by, row_text, right_side_by, right_side_card, range_text};
ghost use Rattle.mps_writer.specs.MpsText.{rows_section, right_sides, WidthFits, WidthsFit};

use crate::cards::{push_card, push_value_card};
use crate::error::WriteError;
use fractions::frac::Frac;
use lp_model::{Name, RowDef};
use std::alloc::{AllocError, Global};

/// How a row's number stands to its sides.
#[derive(Clone, Copy, Debug, PartialEq, Eq)]
pub enum RowType {
    /// Both sides.
    Equal,
    /// The upper side.
    AtMost,
    /// The lower side.
    AtLeast,
}

/// The type of a row.
fn row_type(row: &RowDef) -> RowType
    ensures { result ≡ type_by row.now.lower row.now.upper }
{
    match (row.lower.number(), row.upper.number()) {
        (Some(lower), Some(upper)) => {
            if lower.is_same(&upper) {
                RowType::Equal
            } else {
                RowType::AtLeast
            }
        }
        (None, Some(_)) => RowType::AtMost,
        (_, None) => RowType::AtLeast,
    }
}

/// Appends the card that declares a row.
fn push_row(out: &mut Vec<u8>, row: &RowDef) -> Result<(), AllocError>
    ensures { OnOk result (out.new.items ≡ out.old.items ++ row_text row.now) }
{
    let word: &[u8] = match row_type(row) {
        RowType::Equal => b"E",
        RowType::AtMost => b"L",
        RowType::AtLeast => b"G",
    };
    push_card(out, word, row.name.as_bytes())
}

/// Appends the section that declares the objective and the rows.
pub fn push_rows(out: &mut Vec<u8>, objective: &Name, rows: &[RowDef]) -> Result<(), AllocError>
    ensures { OnOk result (out.new.items ≡ out.old.items ++ rows_section objective.now rows.now) }
{
    out.extend_from_slice(b"ROWS\n")?;
    push_card(out, b"N", objective.as_bytes())?;
    let mut rest = rows;
    while let [row, after @ ..] = rest {
        push_row(out, row)?;
        rest = after;
    }
    Ok(())
}

/// Appends a right side that isn't 0.
fn push_right_side(out: &mut Vec<u8>, name: &Name, side: Option<Frac>) -> Result<(), AllocError>
    ensures { OnOk result (out.new.items ≡ out.old.items ++ right_side_card name.now side) }
{
    match side {
        Some(value) if !value.is_zero() => push_value_card(out, b"RHS", name.as_bytes(), &value),
        _ => Ok(()),
    }
}

/// The number of a row: its lower side, or the upper one where that is infinite.
fn right_side(row: &RowDef) -> Option<Frac>
    ensures { result ≡ right_side_by row.now.lower row.now.upper }
{
    row.lower.number().or(row.upper.number())
}

/// The cards of the right sides: minus the constant at the objective, and the rows' numbers.
pub fn right_sides(
    alloc: Global,
    objective: &Name,
    constant: &Frac,
    rows: &[RowDef],
) -> Result<Vec<u8>, AllocError>
    ensures { IfOk result (λ text. text.items ≡ right_sides objective.now constant.now rows.now) }
{
    let mut out = Vec::new(alloc);
    push_right_side(&mut out, objective, Some(constant.neg()))?;
    let mut rest = rows;
    while let [row, after @ ..] = rest {
        push_right_side(&mut out, &row.name, right_side(row))?;
        rest = after;
    }
    Ok(out)
}

/// Appends the width between two different finite sides.
///
/// # Errors
/// `Past` where the width is out of range.
fn push_range(out: &mut Vec<u8>, row: &RowDef) -> Result<(), WriteError>
    ensures text { OnOk result (out.new.items ≡ out.old.items ++ range_text row.now) }
    ensures fits { WidthFits row.now → IsOkUnless result NoMemory }
{
    let (Some(lower), Some(upper)) = (row.lower.number(), row.upper.number()) else {
        return Ok(());
    };
    if lower.is_same(&upper) {
        return Ok(());
    }
    let Ok(width) = upper.sub(&lower) else {
        return Err(WriteError::Past);
    };
    push_value_card(out, b"RNG", row.name.as_bytes(), &width)?;
    Ok(())
}

/// The cards of the ranges.
///
/// # Errors
/// `Past` where the width between a row's sides is out of range.
pub fn ranges(alloc: Global, rows: &[RowDef]) -> Result<Vec<u8>, WriteError>
    ensures text { IfOk result (λ text. text.items ≡ flat_map range_text rows.now) }
    ensures fits { WidthsFit rows.now → IsOkUnless result NoMemory }
{
    let mut out = Vec::new(alloc);
    let mut rest = rows;
    while let [row, after @ ..] = rest {
        push_range(&mut out, row)?;
        rest = after;
    }
    Ok(out)
}
