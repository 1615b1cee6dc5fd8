//! Problems.

ghost use Rattle.std.specs.Prelude.{◌≡◌, ◌<◌, ◌^◌, length, IfOk, IfSome, OnErr, OnOk, true, [], ◌∷◌};
ghost use Rattle.std.specs.List.{All};
ghost use Rattle.problem_model.specs.Edits.{bounds_set, column_deleted, cost_set, offset_set, row_deleted, sides_set};
ghost use Rattle.problem_model.specs.Parts.{changes_of};
ghost use Rattle.problem_model.specs.declared.part.Part.TheVariants as part;
ghost use Rattle.entry_lines.specs.Putting.{AreInside, entries_given, entries_set, GivesBack, IdsAscend};
ghost use Rattle.problem_data.specs.Renumbered.{changes_put, IsThere};
ghost use Rattle.problem_model.specs.Problems.{bounds_at, column_at, column_entries, cost_at, IsSparse, row_at, row_entries, sides_at};

use crate::ends::{move_bounds, move_sides};
use entry_lines::{
    Replaced, delete_line, exchange, exchange_all, first_live, give_back, is_live, line_changes,
    line_with_terms, live_entries_of, live_terms_of, number_line, rows_with, whole_line,
};
use fractions::ext::Ext;
use fractions::frac::Frac;
use lp_model::{Term, Terms};
use problem_model::{Bounds, Line, Part, Sides};
use std::alloc::{AllocError, Global};
use std::marker::Model;

/// A problem to be minimized: rows and columns by the ids of the program that it was made of, deleted ones among them.
#[derive(Drop)]
pub struct ProblemData {
    rows: Vec<Line>,
    columns: Vec<Line>,
    sides: Vec<Sides>,
    bounds: Vec<Bounds>,
    costs: Vec<Frac>,
    offset: Frac,
    constant: Frac,
}

impl Model for ProblemData {
    ghost use Rattle.std.specs.Coded.{codes};
    ghost use Rattle.fractions.specs.Lowest.{number_code};
    ghost use Rattle.problem_model.specs.Sparse.{Sparse};

    ghost Value = { Sparse };

    ghost coded = { Prim.hlevel (codes, number_code) };

    ghost use Rattle.problem_model.specs.Problems.{IsSparse};

    ghost view = { λ p. record { matrix = record { rows = p.rows.items; columns = p.columns.items }; sides = p.sides.items; bounds = p.bounds.items; costs = p.costs.items; offset = p.offset; constant = p.constant } };

    ghost invariant = { λ p. IsSparse (record { matrix = record { rows = p.rows.items; columns = p.columns.items }; sides = p.sides.items; bounds = p.bounds.items; costs = p.costs.items; offset = p.offset; constant = p.constant }) };
}

/// What is written of a problem, each list by id, deleted lines among them.
#[derive(Drop)]
pub(crate) struct Parts {
    pub rows: Vec<Line>,
    pub columns: Vec<Line>,
    pub sides: Vec<Sides>,
    pub bounds: Vec<Bounds>,
    /// In the minimizing sense.
    pub costs: Vec<Frac>,
}

impl ProblemData {
    /// The problem of these parts.
    pub(crate) fn new(
        rows: Vec<Line>,
        columns: Vec<Line>,
        sides: Vec<Sides>,
        bounds: Vec<Bounds>,
        costs: Vec<Frac>,
        offset: Frac,
        constant: Frac,
    ) -> ProblemData
        requires { IsSparse (record { matrix = record { rows = rows.items; columns = columns.items }; sides = sides.items; bounds = bounds.items; costs = costs.items; offset = offset; constant = constant }) }
        ensures { result ≡ record { matrix = record { rows = rows.items; columns = columns.items }; sides = sides.items; bounds = bounds.items; costs = costs.items; offset = offset; constant = constant } }
    {
        ProblemData {
            rows,
            columns,
            sides,
            bounds,
            costs,
            offset,
            constant,
        }
    }

    /// Its rows, columns, sides, bounds and costs, without a copy.
    pub(crate) fn into_parts(self) -> Parts
        ensures rows { result.rows.items ≡ self.matrix.rows }
        ensures columns { result.columns.items ≡ self.matrix.columns }
        ensures sides { result.sides.items ≡ self.sides }
        ensures bounds { result.bounds.items ≡ self.bounds }
        ensures costs { result.costs.items ≡ self.costs }
        ensures sparse { IsSparse self }
    {
        Parts {
            rows: self.rows,
            columns: self.columns,
            sides: self.sides,
            bounds: self.bounds,
            costs: self.costs,
        }
    }

    /// That rows and columns agree, and that ids have 32 bits.
    pub fn is_sparse(&self)
        ensures { IsSparse self.now }
    {
        let _ = &self.offset;
    }

    /// The rows, by id, deleted ones among them.
    pub fn rows(&self) -> &[Line]
        ensures { result.now ≡ self.now.matrix.rows }
    {
        self.rows.as_slice()
    }

    /// The columns, by id, deleted ones among them.
    pub fn columns(&self) -> &[Line]
        ensures { result.now ≡ self.now.matrix.columns }
    {
        self.columns.as_slice()
    }

    /// The sides of each row.
    pub fn all_sides(&self) -> &[Sides]
        ensures value { result.now ≡ self.now.sides }
        ensures long { length result.now ≡ length self.now.matrix.rows }
    {
        self.sides.as_slice()
    }

    /// The bounds of each column.
    pub fn all_bounds(&self) -> &[Bounds]
        ensures value { result.now ≡ self.now.bounds }
        ensures long { length result.now ≡ length self.now.matrix.columns }
    {
        self.bounds.as_slice()
    }

    /// The cost of each column, in the minimizing sense.
    pub fn costs(&self) -> &[Frac]
        ensures value { result.now ≡ self.now.costs }
        ensures long { length result.now ≡ length self.now.matrix.columns }
    {
        self.costs.as_slice()
    }

    /// What was added to the cost, in the minimizing sense.
    pub fn offset(&self) -> Frac
        ensures { result ≡ self.now.offset }
    {
        self.offset
    }

    /// The constant of the cost, in the minimizing sense.
    pub fn constant(&self) -> Frac
        ensures { result ≡ self.now.constant }
    {
        self.constant
    }

    /// How many rows there are, deleted ones among them.
    pub fn row_count(&self) -> usize
        ensures value { result ≡ length self.now.matrix.rows }
        ensures few { result < 2 ^ 32 }
    {
        self.rows.len()
    }

    /// How many columns there are, deleted ones among them.
    pub fn column_count(&self) -> usize
        ensures value { result ≡ length self.now.matrix.columns }
        ensures few { result < 2 ^ 32 }
    {
        self.columns.len()
    }

    /// Whether a row is there. One past the last isn't.
    pub fn is_row_live(&self, i: u32) -> bool
        ensures { result ≡ (row_at self.now i).live }
    {
        is_live(self.rows.as_slice(), i)
    }

    /// Whether a column is there. One past the last isn't.
    pub fn is_column_live(&self, j: u32) -> bool
        ensures { result ≡ (column_at self.now j).live }
    {
        is_live(self.columns.as_slice(), j)
    }

    /// How many entries of a row are in live columns.
    pub fn live_row_entries(&self, i: u32) -> usize
        ensures { result ≡ length (row_entries self.now i) }
    {
        live_entries_of(self.rows.as_slice(), i)
    }

    /// How many entries of a column are in live rows.
    pub fn live_column_entries(&self, j: u32) -> usize
        ensures { result ≡ length (column_entries self.now j) }
    {
        live_entries_of(self.columns.as_slice(), j)
    }

    /// The sides of a row.
    pub fn sides(&self, i: u32) -> Sides
        requires { (row_at self.now i).live ≡ true }
        ensures { result ≡ sides_at self.now i }
    {
        self.sides[i as usize]
    }

    /// The bounds of a column.
    pub fn bounds(&self, j: u32) -> Bounds
        requires { (column_at self.now j).live ≡ true }
        ensures { result ≡ bounds_at self.now j }
    {
        self.bounds[j as usize]
    }

    /// The cost of a column, in the minimizing sense.
    pub fn cost(&self, j: u32) -> Frac
        requires { (column_at self.now j).live ≡ true }
        ensures { result ≡ cost_at self.now j }
    {
        self.costs[j as usize]
    }

    /// The one entry of a row in a live column.
    pub fn sole_entry(&self, i: u32) -> Term
        requires live { (row_at self.now i).live ≡ true }
        requires sole { length (row_entries self.now i) ≡ 1 }
        ensures { row_entries self.now i ≡ result ∷ [] }
    {
        let row = &self.rows[i as usize];
        match first_live(self.columns.as_slice(), row.entries.as_slice()) {
            Some(term) => term,
            None => unreachable!(),
        }
    }

    /// The entries of a row in live columns, by column id.
    pub fn row_terms(&self, alloc: Global, i: u32) -> Result<Terms, AllocError>
        ensures { IfOk result (λ terms. terms ≡ row_entries self.now i) }
    {
        match self.whole_row(i) {
            Some(terms) => Ok(Terms::new(Vec::from_slice(alloc, terms)?)),
            None => live_terms_of(alloc, self.rows.as_slice(), self.columns.as_slice(), i),
        }
    }

    /// The entries of a row, if all that it holds are in live columns.
    pub fn whole_row(&self, i: u32) -> Option<&[Term]>
        ensures { IfSome result (λ terms. terms.now ≡ row_entries self.now i) }
    {
        self.is_sparse();
        whole_line(self.rows(), i)
    }

    /// The entries of a column, if all that it holds are in live rows.
    pub fn whole_column(&self, j: u32) -> Option<&[Term]>
        ensures { IfSome result (λ terms. terms.now ≡ column_entries self.now j) }
    {
        self.is_sparse();
        whole_line(self.columns(), j)
    }

    /// The entries of a column in live rows, by row id.
    pub fn column_terms(&self, alloc: Global, j: u32) -> Result<Terms, AllocError>
        ensures { IfOk result (λ terms. terms ≡ column_entries self.now j) }
    {
        match self.whole_column(j) {
            Some(terms) => Ok(Terms::new(Vec::from_slice(alloc, terms)?)),
            None => live_terms_of(alloc, self.columns.as_slice(), self.rows.as_slice(), j),
        }
    }

    /// Sets what was added to the cost, in the minimizing sense.
    pub fn set_offset(&mut self, offset: Frac)
        ensures { self.new ≡ offset_set self.old offset }
    {
        self.offset = offset;
    }

    /// Gives a row sides.
    pub fn set_sides(&mut self, i: u32, lower: Ext, upper: Ext)
        requires { (row_at self.old i).live ≡ true }
        ensures { self.new ≡ sides_set self.old i lower upper }
    {
        move_sides(&mut self.sides[i as usize], lower, upper);
    }

    /// Gives a column bounds.
    pub fn set_bounds(&mut self, j: u32, lower: Ext, upper: Ext)
        requires { (column_at self.old j).live ≡ true }
        ensures { self.new ≡ bounds_set self.old j lower upper }
    {
        move_bounds(&mut self.bounds[j as usize], lower, upper);
    }

    /// Gives a column a cost, in the minimizing sense.
    pub fn set_cost(&mut self, j: u32, cost: Frac)
        requires { (column_at self.old j).live ≡ true }
        ensures { self.new ≡ cost_set self.old j cost }
    {
        self.costs[j as usize] = cost;
    }

    /// Deletes a row with its sides. The columns' entries there are live no more; a column that has fewer live entries than others keeps
    /// those alone.
    pub fn delete_row(&mut self, i: u32)
        requires { (row_at self.old i).live ≡ true }
        ensures { self.new ≡ row_deleted self.old i }
    {
        delete_line(&mut self.rows, &mut self.columns, i);
    }

    /// Deletes a column with its bounds and its cost. The rows' entries there are live no more; a row that has fewer live entries than
    /// others keeps those alone.
    pub fn delete_column(&mut self, j: u32)
        requires { (column_at self.old j).live ≡ true }
        ensures { self.new ≡ column_deleted self.old j }
    {
        delete_line(&mut self.columns, &mut self.rows, j);
    }

    /// Says how often a row's entries have changed.
    fn set_row_changes(&mut self, i: u32, changes: u64)
        requires { i < length self.old.matrix.rows }
        ensures { self.new ≡ changes_put self.old (part.Row i) changes }
    {
        number_line(&mut self.rows, i, changes);
    }

    /// Says how often a column's entries and cost have changed.
    fn set_column_changes(&mut self, j: u32, changes: u64)
        requires { j < length self.old.matrix.columns }
        ensures { self.new ≡ changes_put self.old (part.Col j) changes }
    {
        number_line(&mut self.columns, j, changes);
    }

    /// Says how often a row's sides have changed.
    fn set_sides_changes(&mut self, i: u32, changes: u64)
        requires { i < length self.old.sides }
        ensures { self.new ≡ changes_put self.old (part.Sides i) changes }
    {
        let sides = &mut self.sides[i as usize];
        sides.changes = changes;
    }

    /// Says how often a column's bounds have changed.
    fn set_bounds_changes(&mut self, j: u32, changes: u64)
        requires { j < length self.old.bounds }
        ensures { self.new ≡ changes_put self.old (part.Bounds j) changes }
    {
        let bounds = &mut self.bounds[j as usize];
        bounds.changes = changes;
    }

    /// Says how often a part has changed.
    pub fn set_changes(&mut self, part: Part, changes: u64)
        requires { IsThere self.old part }
        ensures { self.new ≡ changes_put self.old part changes }
    {
        match part {
            Part::Row(i) => self.set_row_changes(i, changes),
            Part::Sides(i) => self.set_sides_changes(i, changes),
            Part::Col(j) => self.set_column_changes(j, changes),
            Part::Bounds(j) => self.set_bounds_changes(j, changes),
        }
    }

    /// How often a part has changed; a part past the ids never has.
    pub fn changes(&self, part: Part) -> u64
        ensures { result ≡ changes_of self.now part }
    {
        match part {
            Part::Row(i) => line_changes(self.rows.as_slice(), i),
            Part::Sides(i) => match self.sides.get(i as usize) {
                Some(sides) => sides.changes,
                None => 0,
            },
            Part::Col(j) => line_changes(self.columns.as_slice(), j),
            Part::Bounds(j) => match self.bounds.get(j as usize) {
                Some(bounds) => bounds.changes,
                None => 0,
            },
        }
    }

    /// Sets entries of a column, each in the row that its term names, and hands out the entries that these lines had. 0 leaves no entry.
    /// The new lists, one for each line, are made before the first of them is put in place.
    ///
    /// # Errors
    /// Memory ran out. The problem is as it was.
    pub fn set_entries(
        &mut self,
        alloc: Global,
        j: u32,
        terms: &[Term],
    ) -> Result<Replaced, AllocError>
        requires rows { All (λ t. (row_at self.old t.id).live ≡ true) terms.now }
        requires column { (column_at self.old j).live ≡ true }
        requires ascends { IdsAscend 0 terms.now }
        ensures set { OnOk result (self.new ≡ entries_set self.old j terms.now) }
        ensures back { IfOk result (λ c. GivesBack c self.new self.old) }
        ensures err { OnErr result (self.new ≡ self.old) }
    {
        let mut in_column = line_with_terms(alloc, self.columns.as_slice(), j, terms)?;
        let mut in_rows = rows_with(alloc, self.rows.as_slice(), j, terms)?;
        exchange(&mut self.columns, &mut in_column);
        exchange_all(&mut self.rows, &mut in_rows);
        Ok(Replaced { in_column, in_rows })
    }

    /// Gives rows and a column the entries that they had.
    pub fn put_back(&mut self, before: Replaced)
        requires rows { AreInside before.in_rows.items self.old.matrix.rows }
        requires column { before.in_column.line < length self.old.matrix.columns }
        requires sound { IsSparse (entries_given self.old before) }
        ensures { self.new ≡ entries_given self.old before }
    {
        let mut in_column = before.in_column;
        exchange(&mut self.columns, &mut in_column);
        give_back(&mut self.rows, before.in_rows);
    }
}
