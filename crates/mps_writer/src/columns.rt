//! The section of columns.

ghost use Rattle.std.specs.Prelude.{◌≡◌, ◌++◌, OnOk};
ghost use Rattle.mps_writer.specs.Sections.{cost_text, entry_text, column_text, marker_text};
ghost use Rattle.mps_writer.specs.MpsText.{columns_section};

use crate::cards::push_value_card;
use lp_model::{ColumnDef, Name, RowDef, Term};
use std::alloc::AllocError;

/// Appends a column's cost, where it isn't 0 or the column has no entry.
fn push_cost(out: &mut Vec<u8>, objective: &Name, column: &ColumnDef) -> Result<(), AllocError>
    ensures { OnOk result (out.new.items ≡ out.old.items ++ cost_text objective.now column.now) }
{
    if column.cost.is_zero() && !column.entries.as_slice().is_empty() {
        return Ok(());
    }
    push_value_card(
        out,
        column.name.as_bytes(),
        objective.as_bytes(),
        &column.cost,
    )
}

/// Appends an entry of a column; one whose id is past the last row makes no card.
fn push_entry(
    out: &mut Vec<u8>,
    rows: &[RowDef],
    column: &Name,
    term: &Term,
) -> Result<(), AllocError>
    ensures { OnOk result (out.new.items ≡ out.old.items ++ entry_text rows.now column.now term.now) }
{
    match rows.get(term.id as usize) {
        Some(row) => push_value_card(out, column.as_bytes(), row.name.as_bytes(), &term.value),
        None => Ok(()),
    }
}

/// Appends a column: its cost and its entries.
fn push_column(
    out: &mut Vec<u8>,
    objective: &Name,
    rows: &[RowDef],
    column: &ColumnDef,
) -> Result<(), AllocError>
    ensures { OnOk result (out.new.items ≡ out.old.items ++ column_text objective.now rows.now column.now) }
{
    push_cost(out, objective, column)?;
    let mut rest = column.entries.as_slice();
    while let [term, after @ ..] = rest {
        push_entry(out, rows, &column.name, term)?;
        rest = after;
    }
    Ok(())
}

/// Appends the marker between a column and the next one.
fn push_marker(out: &mut Vec<u8>, whole: bool, next: bool) -> Result<(), AllocError>
    ensures { OnOk result (out.new.items ≡ out.old.items ++ marker_text whole next) }
{
    match (whole, next) {
        (false, true) => out.extend_from_slice(b" MARKER 'MARKER' 'INTORG'\n"),
        (true, false) => out.extend_from_slice(b" MARKER 'MARKER' 'INTEND'\n"),
        _ => Ok(()),
    }
}

/// Appends the section of the columns.
pub fn push_columns(
    out: &mut Vec<u8>,
    objective: &Name,
    rows: &[RowDef],
    columns: &[ColumnDef],
) -> Result<(), AllocError>
    ensures { OnOk result (out.new.items ≡ out.old.items ++ columns_section objective.now rows.now columns.now) }
{
    out.extend_from_slice(b"COLUMNS\n")?;
    let mut whole = false;
    let mut rest = columns;
    while let [column, after @ ..] = rest {
        push_marker(out, whole, column.whole)?;
        push_column(out, objective, rows, column)?;
        whole = column.whole;
        rest = after;
    }
    push_marker(out, whole, false)
}
