//! Programs.

ghost use Rattle.std.specs.Prelude.{◌≡◌, ◌<◌, length};
ghost use Rattle.lp_model.specs.ProgramData.{ProgramData};
ghost use Rattle.lp_model.specs.Names.{WellNamed};

use crate::name::Name;
use crate::terms::Terms;
use fractions::ext::Ext;
use fractions::frac::Frac;
use std::marker::Model;

/// Whether the cost is to be least or greatest.
#[derive(Clone, Copy, Debug, PartialEq, Eq)]
pub enum Sense {
    Min,
    Max,
}

/// A row: `lower <= sum of its entries times the columns' values <= upper`.
#[derive(Drop)]
pub struct RowDef {
    pub name: Name,
    pub lower: Ext,
    pub upper: Ext,
}

/// A column: a variable with its cost in the file's sense, its bounds, whether it must be whole, and its entries by row id.
#[derive(Drop)]
pub struct ColumnDef {
    pub name: Name,
    pub cost: Frac,
    pub lower: Ext,
    pub upper: Ext,
    pub whole: bool,
    pub semi: bool,
    pub entries: Terms,
}

/// Rows, by id.
#[derive(Drop)]
pub struct Rows {
    items: Vec<RowDef>,
}

impl Model for Rows {
    ghost use Rattle.std.specs.Prelude.{List};
    ghost use Rattle.std.specs.Coded.{codes};
    ghost use Rattle.fractions.specs.Lowest.{number_code};
    ghost use Rattle.lp_model.specs.declared.program.RowDef.{RowDef};

    ghost Value = { List RowDef };

    ghost coded = { Prim.hlevel (codes, number_code) };

    ghost view = { λ rows. rows.items.items };
}

impl Rows {
    /// These rows.
    pub fn new(items: Vec<RowDef>) -> Rows
        ensures { result ≡ items.items }
    {
        Rows { items }
    }

    /// The rows, by id.
    pub fn as_slice(&self) -> &[RowDef]
        ensures { result.now ≡ self.now }
    {
        self.items.as_slice()
    }

    /// The same rows as a vector.
    pub fn into_vec(self) -> Vec<RowDef>
        ensures { result.items ≡ self }
    {
        self.items
    }
}

/// Columns, by id.
#[derive(Drop)]
pub struct Columns {
    items: Vec<ColumnDef>,
}

impl Model for Columns {
    ghost use Rattle.std.specs.Prelude.{List};
    ghost use Rattle.std.specs.Coded.{codes};
    ghost use Rattle.fractions.specs.Lowest.{number_code};
    ghost use Rattle.lp_model.specs.declared.program.ColumnDef.{ColumnDef};

    ghost Value = { List ColumnDef };

    ghost coded = { Prim.hlevel (codes, number_code) };

    ghost view = { λ columns. columns.items.items };
}

impl Columns {
    /// These columns.
    pub fn new(items: Vec<ColumnDef>) -> Columns
        ensures { result ≡ items.items }
    {
        Columns { items }
    }

    /// The columns, by id.
    pub fn as_slice(&self) -> &[ColumnDef]
        ensures { result.now ≡ self.now }
    {
        self.items.as_slice()
    }

    /// The same columns as a vector.
    pub fn into_vec(self) -> Vec<ColumnDef>
        ensures { result.items ≡ self }
    {
        self.items
    }
}

/// A program: the least or greatest of `constant + sum of cost times value` over the points within all rows and bounds.
/// All names are some bytes without a space, a tab or a line feed. Those of its rows and of its objective differ, and so do those of its columns.
#[derive(Drop)]
pub struct Program {
    sense: Sense,
    objective: Name,
    constant: Frac,
    rows: Rows,
    columns: Columns,
}

impl Model for Program {
    ghost use Rattle.std.specs.Coded.{codes};
    ghost use Rattle.fractions.specs.Lowest.{number_code};
    ghost use Rattle.lp_model.specs.ProgramData.{ProgramData};
    ghost use Rattle.lp_model.specs.Names.{WellNamed};

    ghost Value = { ProgramData };

    ghost coded = { Prim.hlevel (codes, number_code) };

    ghost view = { λ p. record { sense = p.sense; objective = p.objective; constant = p.constant; rows = p.rows; columns = p.columns } };

    ghost invariant = { λ p. WellNamed p.objective p.rows p.columns };
}

impl Program {
    /// The program of these parts. Their names are names by their type, and differ, as [`names_differ`](crate::names_differ) tells.
    pub fn new(
        sense: Sense,
        objective: Name,
        constant: Frac,
        rows: Vec<RowDef>,
        columns: Vec<ColumnDef>,
    ) -> Program
        requires { WellNamed objective rows.items columns.items }
        ensures { result ≡ record { sense = sense; objective = objective; constant = constant; rows = rows.items; columns = columns.items } }
    {
        Program {
            sense,
            objective,
            constant,
            rows: Rows::new(rows),
            columns: Columns::new(columns),
        }
    }

    /// Whether the least or the greatest cost is wanted.
    pub fn sense(&self) -> Sense
        ensures { result ≡ self.now.sense }
    {
        self.sense
    }

    /// The objective's name. No row has it, no two rows have one name, and no two columns.
    pub fn objective(&self) -> &Name
        ensures name { result.now ≡ self.now.objective }
        ensures named { WellNamed self.now.objective self.now.rows self.now.columns }
    {
        &self.objective
    }

    /// The constant of the cost, in the file's sense.
    pub fn constant(&self) -> Frac
        ensures { result ≡ self.now.constant }
    {
        self.constant
    }

    /// The rows, by id.
    pub fn rows(&self) -> &[RowDef]
        ensures { result.now ≡ self.now.rows }
    {
        self.rows.as_slice()
    }

    /// The columns, by id.
    pub fn columns(&self) -> &[ColumnDef]
        ensures { result.now ≡ self.now.columns }
    {
        self.columns.as_slice()
    }

    /// The objective's name, the rows and the columns, back without a copy. Their names differ.
    pub fn into_parts(self) -> (Name, Rows, Columns)
        ensures objective { result.0 ≡ self.objective }
        ensures rows { result.1 ≡ self.rows }
        ensures columns { result.2 ≡ self.columns }
        ensures named { WellNamed self.objective self.rows self.columns }
    {
        (self.objective, self.rows, self.columns)
    }
}
