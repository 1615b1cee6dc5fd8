//! Problems of programs, and copies of problems.

ghost use Rattle.std.specs.Prelude.{◌≡◌, ◌<◌, ◌^◌, length, map, IfOk};
ghost use Rattle.lp_model.specs.Writable.{EntriesAscend};
ghost use Rattle.lp_model.specs.Turning.{signed};
ghost use Rattle.problem_model.specs.Programs.{bounds_of, IsProblemOf, sides_of};

use crate::problem::ProblemData;
use entry_lines::{columns_of, copy_lines, rows_of};
use fractions::frac::Frac;
use lp_model::{ColumnDef, Program, RowDef, Sense};
use problem_model::{Bounds, Sides};
use std::alloc::{AllocError, Global};

/// A cost of the file in the minimizing sense, or back: the two are negatives of one another for MAX, and the same for MIN.
pub fn in_sense(sense: Sense, cost: &Frac) -> Frac
    ensures { result ≡ signed sense cost.now }
{
    match sense {
        Sense::Min => *cost,
        Sense::Max => cost.neg(),
    }
}

/// The sides of each row, none of which has changed.
fn all_sides(alloc: Global, rows: &[RowDef]) -> Result<Vec<Sides>, AllocError>
    ensures { IfOk result (λ sides. sides.items ≡ map sides_of rows.now) }
{
    let mut sides = Vec::with_capacity(alloc, rows.len())?;
    for row in rows {
        sides.push(Sides {
            lower: row.lower,
            upper: row.upper,
            changes: 0,
        })?;
    }
    Ok(sides)
}

/// The bounds of each column, none of which has changed.
fn all_bounds(alloc: Global, columns: &[ColumnDef]) -> Result<Vec<Bounds>, AllocError>
    ensures { IfOk result (λ bounds. bounds.items ≡ map bounds_of columns.now) }
{
    let mut bounds = Vec::with_capacity(alloc, columns.len())?;
    for column in columns {
        bounds.push(Bounds {
            lower: column.lower,
            upper: column.upper,
            whole: column.whole,
            semi: column.semi,
            changes: 0,
        })?;
    }
    Ok(bounds)
}

/// The cost of each column, in the minimizing sense.
fn all_costs(alloc: Global, sense: Sense, columns: &[ColumnDef]) -> Result<Vec<Frac>, AllocError>
    ensures { IfOk result (λ costs. costs.items ≡ map (λ c. signed sense c.cost) columns.now) }
{
    let mut costs = Vec::with_capacity(alloc, columns.len())?;
    for column in columns {
        costs.push(in_sense(sense, &column.cost))?;
    }
    Ok(costs)
}

impl ProblemData {
    /// The problem of a program: with its rows and columns, all live, and costs negated for MAX.
    pub fn from_program(alloc: Global, program: &Program) -> Result<ProblemData, AllocError>
        requires entries { EntriesAscend program.now }
        requires few_rows { length program.now.rows < 2 ^ 32 }
        requires few_columns { length program.now.columns < 2 ^ 32 }
        ensures { IfOk result (IsProblemOf program.now) }
    {
        let rows = rows_of(alloc, program.rows().len(), program.columns())?;
        let columns = columns_of(alloc, program.columns())?;
        let sides = all_sides(alloc, program.rows())?;
        let bounds = all_bounds(alloc, program.columns())?;
        let costs = all_costs(alloc, program.sense(), program.columns())?;
        let constant = in_sense(program.sense(), &program.constant());
        Ok(ProblemData::new(rows, columns, sides, bounds, costs, Frac::zero(), constant))
    }

    /// An equal problem.
    pub fn copy(&self, alloc: Global) -> Result<ProblemData, AllocError>
        ensures { IfOk result (λ p. p ≡ self.now) }
    {
        self.is_sparse();
        let rows = copy_lines(alloc, self.rows())?;
        let columns = copy_lines(alloc, self.columns())?;
        let sides = Vec::from_slice(alloc, self.all_sides())?;
        let bounds = Vec::from_slice(alloc, self.all_bounds())?;
        let costs = Vec::from_slice(alloc, self.costs())?;
        Ok(ProblemData::new(
            rows,
            columns,
            sides,
            bounds,
            costs,
            self.offset(),
            self.constant(),
        ))
    }
}
