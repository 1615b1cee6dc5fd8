//! What a report counts of a program, and of what is left of it.

ghost use Rattle.std.specs.Prelude.{◌≡◌, ◌-◌, ◌^◌, length, min};
ghost use Rattle.std.specs.List.{sum_by};
ghost use Rattle.lp_model.specs.ProgramData.{ProgramData};
ghost use Rattle.presolve_report.specs.Outcomes.{Tells, entries_of};

use crate::report::{Change, Report};
use lp_model::{ColumnDef, Program};
use presolve_rounds::ReducedProgram;

// How many entries these columns have.
fn count_entries(columns: &[ColumnDef]) -> u64
    ensures { result ≡ min (sum_by (λ column. length column.entries) columns.now) (2 ^ 64 - 1) }
{
    let mut count: u64 = 0;
    let mut rest = columns;
    while let [column, after @ ..] = rest {
        count = count.saturating_add(column.entries.as_slice().len() as u64);
        rest = after;
    }
    count
}

/// How many rows, columns and entries a program has.
#[derive(Clone, Copy)]
pub struct Size {
    pub rows: u64,
    pub columns: u64,
    pub entries: u64,
}

/// How many there are. The entries are counted up to the end of their type.
pub fn size_of(program: &Program) -> Size
    ensures rows { result.rows ≡ length program.now.rows }
    ensures columns { result.columns ≡ length program.now.columns }
    ensures entries { result.entries ≡ entries_of program.now }
{
    Size {
        rows: program.rows().len() as u64,
        columns: program.columns().len() as u64,
        entries: count_entries(program.columns()),
    }
}

/// The report of a presolve of a program of this size.
pub fn report_for(made: &ReducedProgram, before: Size) -> Report
    ensures told { (source : ProgramData) → before.rows ≡ length source.rows → before.columns ≡ length source.columns → before.entries ≡ entries_of source
        → Tells (record { source = source; program = made.now.program; records = made.now.records; report = result }) }
    ensures end { result.end ≡ made.now.end }
{
    let left = size_of(&made.program);
    let records = &made.records;
    Report {
        rows: Change {
            before: before.rows,
            after: left.rows,
        },
        columns: Change {
            before: before.columns,
            after: left.columns,
        },
        entries: Change {
            before: before.entries,
            after: left.entries,
        },
        records: records.undos().len() as u64,
        offset: records.offset(),
        end: made.end,
    }
}
