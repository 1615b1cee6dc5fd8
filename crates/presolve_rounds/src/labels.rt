//! The problem that is left, and the records of what was reduced.

ghost use Rattle.std.specs.Prelude.{◌≡◌, length, IfOk};
ghost use Rattle.lp_model.specs.Names.{names_of_columns, names_of_rows};
ghost use Rattle.undo_records.specs.Walk.{lives};
ghost use Rattle.problem_model.specs.Programs.{IsProblemOf};
ghost use Rattle.presolve_model.specs.Telling.{names_in};
ghost use Rattle.presolve_model.specs.Telling.{are_live, IsToldOf};
ghost use Rattle.presolve_rounds.specs.Sources.{IsKept};

use crate::source::Source;
use entry_lines::Lines;
use lp_model::{ColumnDef, RowDef};
use problem_data::in_sense;
use round_marks::txn_book::Book;
use sparse_problem::Problem;
use std::alloc::{AllocError, Global};
use undo_records::{Label, Records};

/// The names of the rows, and which are live.
fn row_labels(alloc: Global, rows: &[RowDef], lines: &Lines) -> Result<Vec<Label>, AllocError>
    requires { length lines.now ≡ length rows.now }
    ensures names { IfOk result (λ labels. names_in labels.items ≡ names_of_rows rows.now) }
    ensures live { IfOk result (λ labels. lives labels.items ≡ are_live lines.now) }
{
    let mut labels = Vec::with_capacity(alloc, rows.len())?;
    for i in 0..rows.len() {
        labels.push(Label {
            name: rows[i].name.copy(alloc)?,
            live: lines.at(i).live,
        })?;
    }
    Ok(labels)
}

/// The names of the columns, and which are live.
fn column_labels(
    alloc: Global,
    columns: &[ColumnDef],
    lines: &Lines,
) -> Result<Vec<Label>, AllocError>
    requires { length lines.now ≡ length columns.now }
    ensures names { IfOk result (λ labels. names_in labels.items ≡ names_of_columns columns.now) }
    ensures live { IfOk result (λ labels. lives labels.items ≡ are_live lines.now) }
{
    let mut labels = Vec::with_capacity(alloc, columns.len())?;
    for j in 0..columns.len() {
        labels.push(Label {
            name: columns[j].name.copy(alloc)?,
            live: lines.at(j).live,
        })?;
    }
    Ok(labels)
}

/// What is left of a book: the problem, and the records of what was reduced.
#[derive(Drop)]
pub struct Left {
    pub problem: Problem,
    pub records: Records,
}

/// The problem and the records of a book that was opened with a program's problem, which undo duals too where that is asked for.
pub fn left_of(alloc: Global, source: &Source, dual: bool, book: Book) -> Result<Left, AllocError>
    requires kept { IsKept source.now }
    requires start { IsProblemOf source.now.given book.start }
    ensures problem { IfOk result (λ left. left.problem ≡ book.problem) }
    ensures told { IfOk result (λ left. IsToldOf dual source.now.given book left.records) }
{
    book.stands();
    let program = source.kept();
    let _name = program.objective();
    let rows = row_labels(alloc, program.rows(), &book.problem().rows())?;
    let columns = column_labels(alloc, program.columns(), &book.problem().columns())?;
    let offset = in_sense(program.sense(), &book.problem().offset());
    let ended = book.close();
    let records = Records::new(
        program.sense(),
        dual,
        columns,
        rows,
        offset,
        ended.records,
        ended.transactions,
    );
    Ok(Left {
        problem: ended.problem,
        records,
    })
}
