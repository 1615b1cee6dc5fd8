//! Whether records are those of a reduced program.

ghost use Rattle.std.specs.Prelude.{◌≡◌, ◌↔◌, ◌&&◌, IsTrue};
ghost use Rattle.lp_model.specs.Names.{names_of_rows, names_of_columns};
ghost use Rattle.undo_records.specs.Named.{live_names};
ghost use Rattle.record_reader.specs.Matching.{same_names, Matches};

use lp_model::{ColumnDef, Program, RowDef};
use undo_records::{Label, Records};

/// Whether the live labels' names are those of the columns, in order.
fn are_columns(labels: &[Label], columns: &[ColumnDef]) -> bool
    ensures { result ≡ same_names (live_names labels.now) (names_of_columns columns.now) }
{
    let mut left = columns;
    let mut rest = labels;
    while let [label, after @ ..] = rest {
        if label.live {
            let [column, more @ ..] = left else {
                return false;
            };
            if label.name.as_bytes() != column.name.as_bytes() {
                return false;
            }
            left = more;
        }
        rest = after;
    }
    left.is_empty()
}

/// Whether the live labels' names are those of the rows, in order.
fn are_rows(labels: &[Label], rows: &[RowDef]) -> bool
    ensures { result ≡ same_names (live_names labels.now) (names_of_rows rows.now) }
{
    let mut left = rows;
    let mut rest = labels;
    while let [label, after @ ..] = rest {
        if label.live {
            let [row, more @ ..] = left else {
                return false;
            };
            if label.name.as_bytes() != row.name.as_bytes() {
                return false;
            }
            left = more;
        }
        rest = after;
    }
    left.is_empty()
}

/// Whether the names of the live columns and rows are those of the program.
fn names_match(records: &Records, program: &Program) -> bool
    ensures { result ≡ (same_names (live_names records.now.columns) (names_of_columns program.now.columns) && same_names (live_names records.now.rows) (names_of_rows program.now.rows)) }
{
    are_columns(records.columns(), program.columns()) && are_rows(records.rows(), program.rows())
}

/// Whether records are those of a reduced program: the names of the live columns, in order, are the names of its columns, and so for rows.
pub fn matches(records: &Records, program: &Program) -> bool
    ensures { IsTrue result ↔ Matches records.now program.now }
{
    names_match(records, program)
}
