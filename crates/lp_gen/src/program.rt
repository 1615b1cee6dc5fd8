//! The program that is made from a seed.

ghost use Rattle.std.specs.Prelude.{◌≡◌, ◌≤◌, length, IfOk};
ghost use Rattle.fractions.specs.declared.Numbers.{Numbers};
ghost use Rattle.lp_model.specs.Writable.{EntriesAscend, Writable};
ghost use Rattle.lp_gen.specs.Generated.{generated};

use crate::columns::draw_columns;
use crate::draws::Draws;
use crate::rows::{draw_kinds, draw_rows};
use fractions::frac::Frac;
use lp_model::{ColumnDef, Name, Program, RowDef, Sense};
use std::alloc::{AllocError, Global};

/// The rows and the columns of a program.
#[derive(Drop)]
struct Parts {
    rows: Vec<RowDef>,
    columns: Vec<ColumnDef>,
}

/// The rows and the columns that are made from a seed: the types of the rows are drawn first, then the columns, and the right sides last.
fn draw_parts(alloc: Global, seed: u64, rows: u32, columns: u32) -> Result<Parts, AllocError>
    requires some_rows { 1 ≤ rows }
    requires few_columns { columns ≤ 100000 }
    ensures rows { IfOk result (λ parts. parts.rows.items ≡ (generated seed rows columns).rows) }
    ensures columns { IfOk result (λ parts. parts.columns.items ≡ (generated seed rows columns).columns) }
{
    let mut draws = Draws::new(seed);
    let kinds = draw_kinds(&mut draws, alloc, rows)?;
    let mut sums = vec![in alloc; 0u32; rows as usize]?;
    let column_list = draw_columns(&mut draws, alloc, rows, columns, sums.as_mut_slice())?;
    let row_list = draw_rows(&mut draws, alloc, rows, kinds.as_slice(), sums.as_slice())?;
    Ok(Parts {
        rows: row_list,
        columns: column_list,
    })
}

/// The program with so many rows and columns that is made from a seed: there is a row at least, and there are 100,000 columns at most.
///
/// First the type of each row is drawn. Then for each column a cost from 0 to 10 is drawn, and three times a row and a coefficient from 1 to 9;
/// a coefficient in a row that the column has already is left out. Last a number from 0 to 4 is drawn for each row: its right side is the sum of
/// its coefficients, with that number added for an L row, and taken off for a G row. The columns are continuous, from 0 to 10. Rows are named by an
/// R and their number, from 0, columns by a C and theirs, and the objective, which is minimized, COST. What a draw is, the definitions say
/// (`Draws`).
///
/// # Errors
///
/// Where there is no memory.
pub fn generate(alloc: Global, seed: u64, rows: u32, columns: u32) -> Result<Program, AllocError>
    requires some_rows { 1 ≤ rows }
    requires few_columns { columns ≤ 100000 }
    ensures program { IfOk result (λ program. program ≡ generated seed rows columns) }
    ensures rows { IfOk result (λ program. length program.rows ≡ rows) }
    ensures columns { IfOk result (λ program. length program.columns ≡ columns) }
    ensures ascends { IfOk result EntriesAscend }
    ensures writable { (numbers : Numbers) → IfOk result (Writable numbers) }
{
    let parts = draw_parts(alloc, seed, rows, columns)?;
    let objective = Name::from_slice(alloc, b"COST")?;
    Ok(Program::new(
        Sense::Min,
        objective,
        Frac::zero(),
        parts.rows,
        parts.columns,
    ))
}
