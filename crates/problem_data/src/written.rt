//! Programs of problems.

ghost use Rattle.std.specs.Prelude.{◌≡◌, ◌<◌, ◌++◌, ◌∷◌, ◌^◌, [], length, if◌then◌else◌, IfOk, OnOk};
ghost use Rattle.problem_model.specs.Programs.{written_column, written_columns, written_program, written_rows};
ghost use Rattle.entry_lines.specs.Ranks.{AreRanks};

use crate::made::in_sense;
use crate::problem::{Parts, ProblemData};
use entry_lines::{new_ids, renumber};
use fractions::frac::Frac;
use lp_model::{ColumnDef, Program, RowDef, Sense};
use problem_model::{Bounds, Line, Sides};
use std::alloc::{AllocError, Global};

/// What columns are written for: the file's sense, and the rows with their new ids.
#[derive(Drop)]
struct Target<'a> {
    sense: Sense,
    rows: &'a [Line],
    ids: &'a [u32],
}

/// Adds a row with its present sides if its line is live.
fn keep_row(
    rows: &mut Vec<RowDef>,
    original: RowDef,
    line: &Line,
    sides: &Sides,
) -> Result<(), AllocError>
    ensures { OnOk result (rows.new.items ≡ rows.old.items ++ (if line.now.live then record original { lower = sides.now.lower; upper = sides.now.upper } ∷ [] else [])) }
{
    if line.live {
        rows.push(RowDef {
            name: original.name,
            lower: sides.lower,
            upper: sides.upper,
        })?;
    }
    Ok(())
}

/// The live rows, with their present sides.
fn live_rows(
    alloc: Global,
    originals: Vec<RowDef>,
    lines: &[Line],
    sides: &[Sides],
) -> Result<Vec<RowDef>, AllocError>
    requires { length sides.now ≡ length lines.now }
    ensures { IfOk result (λ rows. rows.items ≡ written_rows originals.items lines.now sides.now) }
{
    let mut rows = Vec::with_capacity(alloc, lines.len())?;
    let mut left = originals.into_iter();
    for i in 0..lines.len() {
        if let Some(original) = left.next() {
            keep_row(&mut rows, original, &lines[i], &sides[i])?;
        }
    }
    Ok(rows)
}

/// A live column with its present bounds, cost and live entries, by the new ids of the rows.
fn present_column(
    alloc: Global,
    target: &Target,
    original: ColumnDef,
    line: &Line,
    bounds: &Bounds,
    cost: &Frac,
) -> Result<ColumnDef, AllocError>
    requires { AreRanks target.now.rows.now target.now.ids.now }
    ensures { IfOk result (λ c. c ≡ written_column target.now.sense target.now.rows.now original line.now bounds.now cost.now) }
{
    let entries = renumber(alloc, target.rows, target.ids, line.entries.as_slice())?;
    Ok(ColumnDef {
        name: original.name,
        cost: in_sense(target.sense, cost),
        lower: bounds.lower,
        upper: bounds.upper,
        whole: bounds.whole,
        semi: bounds.semi,
        entries,
    })
}

/// Adds a column as it is now if its line is live.
fn keep_column(
    columns: &mut Vec<ColumnDef>,
    alloc: Global,
    target: &Target,
    original: ColumnDef,
    line: &Line,
    bounds: &Bounds,
    cost: &Frac,
) -> Result<(), AllocError>
    requires { AreRanks target.now.rows.now target.now.ids.now }
    ensures { OnOk result (columns.new.items ≡ columns.old.items ++ (if line.now.live then written_column target.now.sense target.now.rows.now original line.now bounds.now cost.now ∷ [] else [])) }
{
    if line.live {
        columns.push(present_column(alloc, target, original, line, bounds, cost)?)?;
    }
    Ok(())
}

/// The live columns, as they are now, by the new ids of the rows. Each line is let go once its column is made.
fn live_columns(
    alloc: Global,
    target: &Target,
    originals: Vec<ColumnDef>,
    lines: Vec<Line>,
    bounds: &[Bounds],
    costs: &[Frac],
) -> Result<Vec<ColumnDef>, AllocError>
    requires ranks { AreRanks target.now.rows.now target.now.ids.now }
    requires costs { length costs.now ≡ length bounds.now }
    ensures { IfOk result (λ columns. columns.items ≡ written_columns target.now.sense target.now.rows.now originals.items lines.items bounds.now costs.now) }
{
    let mut columns = Vec::with_capacity(alloc, bounds.len())?;
    let mut originals = originals.into_iter();
    let mut lines = lines.into_iter();
    for j in 0..bounds.len() {
        let Some(original) = originals.next() else {
            return Ok(columns);
        };
        let Some(line) = lines.next() else {
            return Ok(columns);
        };
        keep_column(
            &mut columns,
            alloc,
            target,
            original,
            &line,
            &bounds[j],
            &costs[j],
        )?;
    }
    Ok(columns)
}

impl ProblemData {
    /// The program of the live rows and columns, with new ids in the same order. Names, sense, objective and constant are those of
    /// the program that the problem was made of, and are not copied. Both are gone.
    pub fn into_program(self, alloc: Global, original: Program) -> Result<Program, AllocError>
        ensures { IfOk result (λ r. r ≡ written_program original self) }
    {
        let Parts {
            rows: row_lines,
            columns: column_lines,
            sides,
            bounds,
            costs,
        } = self.into_parts();
        let sense = original.sense();
        let constant = original.constant();
        let (objective, row_defs, column_defs) = original.into_parts();
        let rows = live_rows(
            alloc,
            row_defs.into_vec(),
            row_lines.as_slice(),
            sides.as_slice(),
        )?;
        let ids = new_ids(alloc, row_lines.as_slice())?;
        let target = Target {
            sense,
            rows: row_lines.as_slice(),
            ids: ids.as_slice(),
        };
        let columns = live_columns(
            alloc,
            &target,
            column_defs.into_vec(),
            column_lines,
            bounds.as_slice(),
            costs.as_slice(),
        )?;
        Ok(Program::new(sense, objective, constant, rows, columns))
    }
}
