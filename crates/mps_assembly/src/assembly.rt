//! The program that the parts give.

ghost use Rattle.std.specs.Prelude.{◌≡◌, ◌<◌, ◌^◌, List, All, length, position, unwrap_or, IfOk};
ghost use Rattle.lp_model.specs.Name.{IsName};
ghost use Rattle.lp_model.specs.Names.{WellNamed};
ghost use Rattle.mps_profile.specs.Texts.{field};
ghost use Rattle.mps_profile.specs.Cards.{Card};
ghost use Rattle.mps_profile.specs.Rows.{is_free};
ghost use Rattle.mps_profile.specs.Program.{sense_in, program_in};
ghost use Rattle.mps_profile.specs.declared.dialect.Dialect.{Dialect};
ghost use Rattle.mps_assembly.specs.Assembled.{AreOf, AreDefined};

use crate::columns::{ColumnTables, column_definitions};
use crate::costs::costs_by_column;
use crate::places::name_at;
use crate::rows::{RowTables, right_side, row_definitions};
use crate::terms::terms_by_column;
use fractions::frac::Frac;
use lp_model::{ColumnDef, Name, Program, RowDef, Sense};
use mps_profile::progress::Told;
use mps_profile::row_kinds::RowKind;
use mps_stores::RowEntries;
use std::alloc::{AllocError, Global};

/// What is told of the rows and the columns of a program.
#[derive(Clone, Copy)]
pub struct Parts<'a> {
    /// The rows, N rows among them.
    pub rows: RowTables<'a>,
    /// The columns.
    pub columns: ColumnTables<'a>,
    /// The numbers at rows and columns.
    pub entries: &'a RowEntries,
}

/// The objective, the rows and the columns of a program.
#[derive(Drop)]
pub struct Definitions {
    /// The objective's name.
    pub objective: Name,
    /// The constant of the cost.
    pub constant: Frac,
    /// The rows, by id.
    pub rows: Vec<RowDef>,
    /// The columns, by id.
    pub columns: Vec<ColumnDef>,
}

/// The sense that is told; it is the least where none is.
fn sense_of(told: Told) -> Sense
    ensures { result ≡ sense_in told }
{
    match told {
        Told::Sense(sense) => sense,
        _ => Sense::Min,
    }
}

/// The place of the first N row.
fn first_free(kinds: &[RowKind]) -> Option<usize>
    ensures { result ≡ position is_free kinds.now }
{
    kinds.iter().position(|kind| matches!(kind, RowKind::Free))
}

/// The place of the first N row, or 0 where there is none.
fn objective_place(kinds: &[RowKind]) -> usize
    ensures { result ≡ unwrap_or (position is_free kinds.now) 0 }
{
    match first_free(kinds) {
        Some(place) => place,
        None => 0,
    }
}

/// The objective, the rows and the columns that the parts give. The first N row is the objective, the
/// other N rows are left out. All of these have names.
///
/// # Errors
///
/// Where there is no memory.
pub fn define(alloc: Global, parts: &Parts<'_>) -> Result<Definitions, AllocError>
    requires few { length parts.now.rows.names.now < 2 ^ 32 }
    requires rows { All IsName parts.now.rows.names.now }
    requires columns { All IsName parts.now.columns.names.now }
    requires objective { IsName (field parts.now.rows.names.now (unwrap_or (position is_free parts.now.rows.kinds.now) 0)) }
    ensures { (dialect : Dialect) (cards : List Card) → AreOf dialect cards parts.now → IfOk result (λ found. AreDefined dialect cards found) }
{
    let objective = objective_place(parts.rows.kinds);
    let count = parts.columns.names.len();
    let costs = costs_by_column(alloc, parts.entries.row(objective), count)?;
    let rows = parts.rows.names.len();
    let terms = terms_by_column(alloc, parts.entries, parts.rows.kinds, rows, count)?;
    Ok(Definitions {
        objective: Name::from_slice(alloc, name_at(parts.rows.names, objective))?,
        constant: right_side(parts.rows.right_sides, objective).neg(),
        rows: row_definitions(alloc, &parts.rows)?,
        columns: column_definitions(alloc, &parts.columns, costs.as_slice(), terms)?,
    })
}

/// The program of the parts. Cards say these parts, all rows and columns have names, and the names in the program of the cards differ.
///
/// # Errors
///
/// Where there is no memory.
pub fn assemble(alloc: Global, told: Told, parts: &Parts<'_>) -> Result<Program, AllocError>
    requires few { length parts.now.rows.names.now < 2 ^ 32 }
    requires rows { All IsName parts.now.rows.names.now }
    requires columns { All IsName parts.now.columns.names.now }
    requires named { (dialect : Dialect) × (cards : List Card) × AreOf dialect cards parts.now × WellNamed (program_in dialect told cards).objective (program_in dialect told cards).rows (program_in dialect told cards).columns }
    ensures { (dialect : Dialect) (cards : List Card) → AreOf dialect cards parts.now → IfOk result (λ program. program ≡ program_in dialect told cards) }
{
    let found = define(alloc, parts)?;
    let sense = sense_of(told);
    Ok(Program::new(
        sense,
        found.objective,
        found.constant,
        found.rows,
        found.columns,
    ))
}
