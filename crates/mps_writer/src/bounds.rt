//! The section of bounds.

ghost use Rattle.std.specs.Prelude.{◌≡◌, ◌++◌, OnOk, IfOk, flat_map};
ghost use Rattle.mps_writer.specs.Sections.{is_below_zero, lower_text, upper_text, ends_text, bounds_by, semi_lower_text, semi_upper_text, semi_text, bounds_text};

use crate::cards::{push_bound, push_bound_at, push_infinite_bound};
use fractions::frac::Frac;
use lp_model::ColumnDef;
use std::alloc::{AllocError, Global};

/// Whether a bound is a negative number.
fn is_below_zero(bound: Option<Frac>) -> bool
    ensures { result ≡ is_below_zero bound }
{
    match bound {
        Some(number) => number.is_negative(),
        None => false,
    }
}

/// Appends a column's lower bound; 0 is left out unless the upper one is negative.
fn push_lower(out: &mut Vec<u8>, column: &ColumnDef) -> Result<(), AllocError>
    ensures { OnOk result (out.new.items ≡ out.old.items ++ lower_text column.now.name column.now.lower column.now.upper) }
{
    let name = column.name.as_bytes();
    let Some(lower) = column.lower.number() else {
        return push_bound(out, b"MI", name);
    };
    if lower.is_zero() && !is_below_zero(column.upper.number()) {
        return Ok(());
    }
    push_bound_at(out, b"LO", name, &lower)
}

/// Appends a column's upper bound; none is left out unless the column is whole.
fn push_upper(out: &mut Vec<u8>, column: &ColumnDef) -> Result<(), AllocError>
    ensures { OnOk result (out.new.items ≡ out.old.items ++ upper_text column.now.name column.now.whole column.now.upper) }
{
    let name = column.name.as_bytes();
    match column.upper.number() {
        Some(upper) => push_bound_at(out, b"UP", name, &upper),
        None if column.whole => push_bound(out, b"PL", name),
        None => Ok(()),
    }
}

/// Appends each end of a column by itself.
fn push_ends(out: &mut Vec<u8>, column: &ColumnDef) -> Result<(), AllocError>
    ensures { OnOk result (out.new.items ≡ out.old.items ++ ends_text column.now) }
{
    push_lower(out, column)?;
    push_upper(out, column)
}

/// Appends the bounds of a column that isn't semi-continuous, where they aren't those that a column has without cards.
fn push_plain(out: &mut Vec<u8>, column: &ColumnDef) -> Result<(), AllocError>
    ensures { OnOk result (out.new.items ≡ out.old.items ++ bounds_by column.now column.now.lower column.now.upper) }
{
    let name = column.name.as_bytes();
    match (column.lower.number(), column.upper.number()) {
        (None, None) => push_bound(out, b"FR", name),
        (Some(lower), Some(upper)) => {
            if lower.is_same(&upper) {
                push_bound_at(out, b"FX", name, &lower)
            } else {
                push_ends(out, column)
            }
        }
        _ => push_ends(out, column),
    }
}

/// Appends the lower bound of a semi-continuous column; 0 is left out.
fn push_semi_lower(out: &mut Vec<u8>, column: &ColumnDef) -> Result<(), AllocError>
    ensures { OnOk result (out.new.items ≡ out.old.items ++ semi_lower_text column.now.name column.now.lower) }
{
    let name = column.name.as_bytes();
    match column.lower.number() {
        Some(lower) if lower.is_zero() => Ok(()),
        Some(lower) => push_bound_at(out, b"LO", name, &lower),
        None => push_bound(out, b"MI", name),
    }
}

/// Appends the upper bound of a semi-continuous column, of the type that makes it one.
fn push_semi_upper(out: &mut Vec<u8>, column: &ColumnDef) -> Result<(), AllocError>
    ensures { OnOk result (out.new.items ≡ out.old.items ++ semi_upper_text column.now.name column.now.upper) }
{
    let name = column.name.as_bytes();
    match column.upper.number() {
        Some(upper) => push_bound_at(out, b"SC", name, &upper),
        None => push_infinite_bound(out, b"SC", name),
    }
}

/// Appends the bounds of a semi-continuous column.
fn push_semi(out: &mut Vec<u8>, column: &ColumnDef) -> Result<(), AllocError>
    ensures { OnOk result (out.new.items ≡ out.old.items ++ semi_text column.now) }
{
    push_semi_lower(out, column)?;
    push_semi_upper(out, column)
}

/// Appends a column's bounds.
fn push_bounds(out: &mut Vec<u8>, column: &ColumnDef) -> Result<(), AllocError>
    ensures { OnOk result (out.new.items ≡ out.old.items ++ bounds_text column.now) }
{
    if column.semi {
        push_semi(out, column)
    } else {
        push_plain(out, column)
    }
}

/// The cards of the bounds.
pub fn bounds(alloc: Global, columns: &[ColumnDef]) -> Result<Vec<u8>, AllocError>
    ensures { IfOk result (λ text. text.items ≡ flat_map bounds_text columns.now) }
{
    let mut out = Vec::new(alloc);
    let mut rest = columns;
    while let [column, after @ ..] = rest {
        push_bounds(&mut out, column)?;
        rest = after;
    }
    Ok(out)
}
