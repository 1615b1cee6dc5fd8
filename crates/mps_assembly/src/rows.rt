//! The rows of a program.

ghost use Rattle.std.specs.Prelude.{◌≡◌, ◌++◌, length, All, None, IfOk, OnOk, unwrap_or, slice_index_or};
ghost use Rattle.fractions.specs.Number.{zero_ℚ};
ghost use Rattle.lp_model.specs.Name.{IsName};
ghost use Rattle.mps_profile.specs.Sides.{sides_of};
ghost use Rattle.mps_profile.specs.Program.{row_defs_at, rows_below};

use crate::places::{kind_at, name_at, value_at};
use fractions::ext::Ext;
use fractions::frac::Frac;
use lp_model::{Name, RowDef};
use mps_profile::row_kinds::{Interval, RowKind};
use names::Names;
use std::alloc::{AllocError, Global};

/// What is told of rows, by their places. Past its end a list tells nothing.
#[derive(Clone, Copy)]
pub struct RowTables<'a> {
    /// Their names.
    pub names: &'a Names,
    /// Their types.
    pub kinds: &'a [RowKind],
    /// Their right sides.
    pub right_sides: &'a [Option<Frac>],
    /// The sides of their ranges.
    pub ranges: &'a [Option<Interval>],
}

/// The sides of a row with a right side, and with the sides of its range where it has one. An N row
/// has none.
pub fn sides(kind: RowKind, side: Frac, range: Option<Interval>) -> Option<(Ext, Ext)>
    ensures { result ≡ sides_of kind side range }
{
    match (kind, range) {
        (RowKind::Free, _) => None,
        (_, Some(interval)) => Some((Ext::at(interval.lower), Ext::at(interval.upper))),
        (RowKind::AtMost, None) => Some((Ext::none(), Ext::at(side))),
        (RowKind::AtLeast, None) => Some((Ext::at(side), Ext::none())),
        (RowKind::Equal, None) => Some((Ext::at(side), Ext::at(side))),
    }
}

/// Adds a row with its sides, unless it is an N row, which has none.
///
/// # Errors
///
/// Where there is no memory.
pub fn add_row(
    found: &mut Vec<RowDef>,
    alloc: Global,
    name: &[u8],
    sides: Option<(Ext, Ext)>,
) -> Result<(), AllocError>
    requires { IsName name.now }
    ensures { OnOk result (found.new.items ≡ found.old.items ++ row_defs_at name.now sides) }
{
    if let Some((lower, upper)) = sides {
        found.push(RowDef {
            name: Name::from_slice(alloc, name)?,
            lower,
            upper,
        })?;
    }
    Ok(())
}

/// The right side, or 0 where none is told.
pub fn right_side(sides: &[Option<Frac>], place: usize) -> Frac
    ensures { result ≡ unwrap_or (slice_index_or sides.now place None) zero_ℚ }
{
    match value_at(sides, place) {
        Some(side) => side,
        None => Frac::zero(),
    }
}

/// The rows that are no N rows, in order. All rows have names.
///
/// # Errors
///
/// Where there is no memory.
pub fn row_definitions(alloc: Global, rows: &RowTables<'_>) -> Result<Vec<RowDef>, AllocError>
    requires { All IsName rows.now.names.now }
    ensures { IfOk result (λ found. found.items ≡ rows_below rows.now.names.now rows.now.kinds.now (λ i. unwrap_or (slice_index_or rows.now.right_sides.now i None) zero_ℚ) (λ i. slice_index_or rows.now.ranges.now i None) (length rows.now.names.now)) }
{
    let mut found = Vec::new(alloc);
    for i in 0..rows.names.len() {
        let side = right_side(rows.right_sides, i);
        let sides = sides(kind_at(rows.kinds, i), side, value_at(rows.ranges, i));
        add_row(&mut found, alloc, name_at(rows.names, i), sides)?;
    }
    Ok(found)
}
