//! Rows: their types, which are drawn first, and their sides, which are drawn last.

ghost use Rattle.std.specs.Prelude.{◌≡◌, ◌≤◌, ◌<◌, ◌+◌, ◌^◌, ℕ, map, length, IfOk, OnOk, slice_index, slice_index_or};
ghost use Rattle.std.specs.List.{range_with_len};
ghost use Rattle.lp_gen.specs.declared.rows.RowKind.TheVariants.{AtMost};
ghost use Rattle.lp_gen.specs.Draws.{state_after, drawn};
ghost use Rattle.lp_gen.specs.Rows.{kind_of, lower_side, upper_side, row_with};

use crate::draws::Draws;
use crate::parts::{difference, numbered, whole};
use fractions::ext::Ext;
use lp_model::RowDef;
use std::alloc::{AllocError, Global};

/// The type of a row.
#[derive(Clone, Copy, Debug, PartialEq, Eq)]
pub enum RowKind {
    /// L: it has an upper side.
    AtMost,
    /// G: it has a lower side.
    AtLeast,
    /// E: both sides are one number.
    Equal,
}

/// The type that a number from 0 to 2 means.
fn kind_of(number: u32) -> RowKind
    ensures { result ≡ kind_of number }
{
    match number {
        0 => RowKind::AtMost,
        1 => RowKind::AtLeast,
        _ => RowKind::Equal,
    }
}

/// The types of rows, drawn one by one.
///
/// # Errors
///
/// Where there is no memory.
pub fn draw_kinds(draws: &mut Draws, alloc: Global, rows: u32) -> Result<Vec<RowKind>, AllocError>
    ensures kinds { IfOk result (λ kinds. kinds.items ≡ map (λ i. kind_of (drawn draws.old i 3)) (range_with_len 0 rows)) }
    ensures state { OnOk result (draws.new ≡ state_after draws.old rows) }
{
    let mut kinds = Vec::with_capacity(alloc, rows as usize)?;
    for i in 0..rows {
        kinds.push(kind_of(draws.draw(3)))?;
    }
    Ok(kinds)
}

/// The lower side of a row, by the sum of its coefficients and a drawn number.
fn lower_side(kind: RowKind, sum: u32, drawn: u32) -> Ext
    ensures { result ≡ lower_side kind sum drawn }
{
    match kind {
        RowKind::AtMost => Ext::none(),
        RowKind::AtLeast => Ext::at(difference(sum, drawn)),
        RowKind::Equal => Ext::at(whole(sum)),
    }
}

/// The upper side, likewise.
fn upper_side(kind: RowKind, sum: u32, drawn: u32) -> Ext
    requires { sum + drawn < 2 ^ 32 }
    ensures { result ≡ upper_side kind sum drawn }
{
    match kind {
        RowKind::AtMost => Ext::at(whole(sum + drawn)),
        RowKind::AtLeast => Ext::none(),
        RowKind::Equal => Ext::at(whole(sum)),
    }
}

/// The row with a number, with its type, the sum of its coefficients and what is drawn for its sides.
fn draw_row(
    draws: &mut Draws,
    alloc: Global,
    number: u32,
    kind: RowKind,
    sum: u32,
) -> Result<RowDef, AllocError>
    requires { sum + 5 < 2 ^ 32 }
    ensures row { IfOk result (λ row. row ≡ row_with number kind sum (drawn draws.old 0 5)) }
    ensures state { OnOk result (draws.new ≡ state_after draws.old 1) }
{
    let drawn = draws.draw(5);
    Ok(RowDef {
        name: numbered(alloc, b'R', number)?,
        lower: lower_side(kind, sum, drawn),
        upper: upper_side(kind, sum, drawn),
    })
}

/// Rows by number, each with its type and the sum of its coefficients.
///
/// # Errors
///
/// Where there is no memory.
pub fn draw_rows(
    draws: &mut Draws,
    alloc: Global,
    rows: u32,
    kinds: &[RowKind],
    sums: &[u32],
) -> Result<Vec<RowDef>, AllocError>
    requires kinds { length kinds.now ≡ rows }
    requires sums { length sums.now ≡ rows }
    requires small { (i : ℕ) → i < rows → slice_index sums.now i + 5 < 2 ^ 32 }
    ensures { IfOk result (λ found. found.items ≡ map (λ i. row_with i (slice_index_or kinds.now i AtMost) (slice_index sums.now i) (drawn draws.old i 5)) (range_with_len 0 rows)) }
{
    let mut found = Vec::with_capacity(alloc, rows as usize)?;
    for i in 0..rows {
        let row = draw_row(draws, alloc, i, kinds[i as usize], sums[i as usize])?;
        found.push(row)?;
    }
    Ok(found)
}
