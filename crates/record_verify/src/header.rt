//! The header of records.

ghost use Rattle.std.specs.Prelude.{◌≡◌, ◌↔◌, ◌<◌, ◌^◌, IsTrue, length};
ghost use Rattle.lp_model.specs.Meaning.{meaning};
ghost use Rattle.lp_model.specs.Names.{names_of_columns, names_of_rows};
ghost use Rattle.lp_model.specs.Optimality.{Continuous};
ghost use Rattle.presolve_model.specs.Telling.{names_in};
ghost use Rattle.walk_laws.specs.Walk.{HasHeader};

use lp_check::first_not_continuous;
use lp_model::{ColumnDef, Name, Program, RowDef};
use undo_records::{Label, Records};

/// Whether a label tells this name.
fn tells(label: &Label, name: &Name) -> bool
    ensures { IsTrue result ↔ (label.now.name ≡ name.now) }
{
    label.name.as_bytes() == name.as_bytes()
}

/// Whether labels tell the names of these rows.
fn name_rows(labels: &[Label], rows: &[RowDef]) -> bool
    ensures { IsTrue result ↔ (names_in labels.now ≡ names_of_rows rows.now) }
{
    let mut rest = labels;
    let mut left = rows;
    while let [label, after @ ..] = rest {
        let [row, more @ ..] = left else {
            return false;
        };
        if !tells(label, &row.name) {
            return false;
        }
        rest = after;
        left = more;
    }
    left.is_empty()
}

/// Whether labels tell the names of these columns.
fn name_columns(labels: &[Label], columns: &[ColumnDef]) -> bool
    ensures { IsTrue result ↔ (names_in labels.now ≡ names_of_columns columns.now) }
{
    let mut rest = labels;
    let mut left = columns;
    while let [label, after @ ..] = rest {
        let [column, more @ ..] = left else {
            return false;
        };
        if !tells(label, &column.name) {
            return false;
        }
        rest = after;
        left = more;
    }
    left.is_empty()
}

/// Whether no column has to be whole or is semi-continuous.
fn is_continuous(program: &Program) -> bool
    requires { length program.now.columns < 2 ^ 32 }
    ensures { IsTrue result ↔ Continuous (meaning program.now) }
{
    first_not_continuous(program).is_none()
}

/// Whether the sense and the names are the program's, and duals are undone only where no column is whole or semi-continuous.
pub fn has_header(program: &Program, records: &Records) -> bool
    requires { length program.now.columns < 2 ^ 32 }
    ensures { IsTrue result ↔ HasHeader program.now records.now }
{
    records.sense() == program.sense()
        && name_rows(records.rows(), program.rows())
        && name_columns(records.columns(), program.columns())
        && (!records.undoes_duals() || is_continuous(program))
}
