//! Problems.

ghost use Rattle.std.specs.Prelude.{◌≡◌, ◌<◌, ◌^◌, length, map, IfNone, IfOk, IfSome, OnErr, OnOk, true, [], ◌∷◌};
ghost use Rattle.std.specs.List.{All};
ghost use Rattle.lp_model.specs.Writable.{EntriesAscend};
ghost use Rattle.problem_model.specs.Edits.{bounds_set, column_deleted, cost_set, offset_set, row_deleted, sides_set};
ghost use Rattle.problem_model.specs.Parts.{changes_of};
ghost use Rattle.problem_model.specs.Problems.{bounds_at, column_at, column_entries, cost_at, IsSparse, row_at, row_entries, sides_at};
ghost use Rattle.problem_model.specs.Programs.{IsProblemOf, written_program};
ghost use Rattle.entry_lines.specs.Putting.{AreInside, entries_given, entries_set, GivesBack, IdsAscend};
ghost use Rattle.problem_data.specs.Renumbered.{changes_put, IsThere};
ghost use Rattle.row_spans.specs.Spans.{spans_of};
ghost use Rattle.kept_sums.specs.KeptSums.{AreSumsOf, crossed_count};
ghost use Rattle.kept_sums.specs.RowTotals.{AreTotals, IsTame};

use crate::kept_rows::{
    forget_all, forget_rows, kept_of, lose_in_rows, move_in_rows, nothing_kept, put, sums_of_row,
};
use crate::row_totals::totals_of_row;
use entry_lines::{Lines, Replaced};
use fractions::ext::Ext;
use fractions::frac::Frac;
use kept_sums::{KeptSums, RowTotals};
use lp_model::{Program, Term, Terms};
use problem_data::ProblemData;
use problem_model::{Bounds, Line, Part, Sides};
use std::alloc::{AllocError, Global};
use std::marker::Model;

/// A problem to be minimized: rows and columns by the ids of the program that it was made of, deleted ones among them. Beside them it keeps
/// sums of rows and counts of their crossed bounds, which are mended as the problem changes.
#[derive(Drop)]
pub struct Problem {
    parts: ProblemData,
    kept: Vec<Option<KeptSums>>,
}

impl Model for Problem {
    ghost use Rattle.std.specs.Coded.{codes};
    ghost use Rattle.fractions.specs.Lowest.{number_code};
    ghost use Rattle.problem_model.specs.Sparse.{Sparse};

    ghost Value = { Sparse };

    ghost coded = { Prim.hlevel (codes, number_code) };

    ghost use Rattle.sparse_problem.specs.KeptRows.{AreKept};

    ghost view = { λ p. p.parts };

    ghost invariant = { λ p. AreKept p.parts p.kept.items };
}

impl Problem {
    /// The problem of a program: with its rows and columns, all live, and costs negated for MAX.
    pub fn from_program(alloc: Global, program: &Program) -> Result<Problem, AllocError>
        requires entries { EntriesAscend program.now }
        requires few_rows { length program.now.rows < 2 ^ 32 }
        requires few_columns { length program.now.columns < 2 ^ 32 }
        ensures { IfOk result (IsProblemOf program.now) }
    {
        let parts = ProblemData::from_program(alloc, program)?;
        let kept = nothing_kept(alloc, parts.row_count())?;
        Ok(Problem { parts, kept })
    }

    /// An equal problem, which keeps the same sums.
    pub fn copy(&self, alloc: Global) -> Result<Problem, AllocError>
        ensures { IfOk result (λ p. p ≡ self.now) }
    {
        let parts = self.parts.copy(alloc)?;
        let kept = Vec::from_slice(alloc, self.kept.as_slice())?;
        Ok(Problem { parts, kept })
    }

    /// The program of the live rows and columns, with new ids in the same order. Names, sense, objective and constant are those of
    /// the program that the problem was made of, and are not copied. Both are gone.
    pub fn into_program(self, alloc: Global, original: Program) -> Result<Program, AllocError>
        ensures { IfOk result (λ r. r ≡ written_program original self) }
    {
        self.parts.into_program(alloc, original)
    }

    /// What is kept of a row.
    pub fn kept_sums(&self, i: u32) -> Option<KeptSums>
        ensures { IfSome result (AreSumsOf (spans_of self.now i)) }
    {
        kept_of(self.kept.as_slice(), i)
    }

    /// How many entries of a row are at columns with crossed bounds, if sums are kept of it.
    pub fn crossed_columns(&self, i: u32) -> Option<usize>
        ensures { IfSome result (λ n. n ≡ crossed_count (spans_of self.now i)) }
    {
        let kept = self.kept_sums(i)?;
        Some(kept.crossed)
    }

    /// The sums of a row of which none are kept, if its numbers have room.
    pub fn missing_sums(&self, i: u32) -> Option<KeptSums>
        ensures { IfSome result (AreSumsOf (spans_of self.now i)) }
    {
        if kept_of(self.kept.as_slice(), i).is_some() {
            return None;
        }
        sums_of_row(&self.parts, i)
    }

    /// Keeps these sums of a row. The problem stays the same.
    pub fn keep(&mut self, i: u32, sums: KeptSums)
        requires { AreSumsOf (spans_of self.old i) sums }
        ensures { self.new ≡ self.old }
    {
        put(&mut self.kept, i, Some(sums));
    }

    /// Makes the sums of a row, if none are kept and its numbers have room. The problem stays the same.
    fn keep_row(&mut self, i: u32)
        ensures { self.new ≡ self.old }
    {
        if let Some(sums) = self.missing_sums(i) {
            self.keep(i, sums);
        }
    }

    /// Makes the sums of these rows, where none are kept and their numbers have room. The problem stays the same.
    pub fn keep_sums(&mut self, rows: &[u32])
        ensures { self.new ≡ self.old }
    {
        for row in rows {
            self.keep_row(*row);
        }
    }

    /// What a row's least and greatest terms come to, over the least denominator that they have in common. `None` exactly where the row is
    /// gone, or where this denominator or a sum of absolute numerators over it is above 2^63. It takes no memory.
    pub fn row_sums(&self, i: u32) -> Option<RowTotals>
        ensures live { IfSome result (λ r. (row_at self.now i).live ≡ true) }
        ensures some { IfSome result (AreTotals (spans_of self.now i)) }
        ensures tame { IfSome result (λ r. IsTame (spans_of self.now i)) }
        ensures none { IfNone result ((row_at self.now i).live ≡ true → IsTame (spans_of self.now i) → ⊥) }
    {
        totals_of_row(&self.parts, i)
    }

    /// That rows and columns agree, and that ids have 32 bits.
    pub fn is_sparse(&self)
        ensures { IsSparse self.now }
    {
        self.parts.is_sparse()
    }

    /// The rows, to be read by their ids, deleted ones among them.
    pub fn rows(&self) -> Lines<'_>
        ensures { result ≡ self.now.matrix.rows }
    {
        Lines::new(self.parts.rows())
    }

    /// The columns, to be read by their ids, deleted ones among them.
    pub fn columns(&self) -> Lines<'_>
        ensures { result ≡ self.now.matrix.columns }
    {
        Lines::new(self.parts.columns())
    }

    /// A row, with its entries, those in deleted columns among them.
    pub fn row_line(&self, i: u32) -> &Line
        requires { (row_at self.now i).live ≡ true }
        ensures { result.now ≡ row_at self.now i }
    {
        self.rows().live_line(i)
    }

    /// A column, with its entries, those in deleted rows among them.
    pub fn column_line(&self, j: u32) -> &Line
        requires { (column_at self.now j).live ≡ true }
        ensures { result.now ≡ column_at self.now j }
    {
        self.columns().live_line(j)
    }

    /// How often each row has changed.
    pub fn row_changes(&self, alloc: Global) -> Result<Vec<u64>, AllocError>
        ensures { IfOk result (λ numbers. numbers.items ≡ map (λ line. line.changes) self.now.matrix.rows) }
    {
        self.parts.row_changes(alloc)
    }

    /// How often the sides of each row have changed.
    pub fn side_changes(&self, alloc: Global) -> Result<Vec<u64>, AllocError>
        ensures { IfOk result (λ numbers. numbers.items ≡ map (λ sides. sides.changes) self.now.sides) }
    {
        self.parts.side_changes(alloc)
    }

    /// How often each column has changed.
    pub fn column_changes(&self, alloc: Global) -> Result<Vec<u64>, AllocError>
        ensures { IfOk result (λ numbers. numbers.items ≡ map (λ line. line.changes) self.now.matrix.columns) }
    {
        self.parts.column_changes(alloc)
    }

    /// How often the bounds of each column have changed.
    pub fn bound_changes(&self, alloc: Global) -> Result<Vec<u64>, AllocError>
        ensures { IfOk result (λ numbers. numbers.items ≡ map (λ bounds. bounds.changes) self.now.bounds) }
    {
        self.parts.bound_changes(alloc)
    }

    /// What was added to the cost, in the minimizing sense.
    pub fn offset(&self) -> Frac
        ensures { result ≡ self.now.offset }
    {
        self.parts.offset()
    }

    /// The constant of the cost, in the minimizing sense.
    pub fn constant(&self) -> Frac
        ensures { result ≡ self.now.constant }
    {
        self.parts.constant()
    }

    /// How many rows there are, deleted ones among them.
    pub fn row_count(&self) -> usize
        ensures value { result ≡ length self.now.matrix.rows }
        ensures few { result < 2 ^ 32 }
    {
        self.parts.row_count()
    }

    /// How many columns there are, deleted ones among them.
    pub fn column_count(&self) -> usize
        ensures value { result ≡ length self.now.matrix.columns }
        ensures few { result < 2 ^ 32 }
    {
        self.parts.column_count()
    }

    /// Whether a row is there. One past the last isn't.
    pub fn is_row_live(&self, i: u32) -> bool
        ensures { result ≡ (row_at self.now i).live }
    {
        self.parts.is_row_live(i)
    }

    /// Whether a column is there. One past the last isn't.
    pub fn is_column_live(&self, j: u32) -> bool
        ensures { result ≡ (column_at self.now j).live }
    {
        self.parts.is_column_live(j)
    }

    /// How many entries of a row are in live columns.
    pub fn live_row_entries(&self, i: u32) -> usize
        ensures { result ≡ length (row_entries self.now i) }
    {
        self.parts.live_row_entries(i)
    }

    /// How many entries of a column are in live rows.
    pub fn live_column_entries(&self, j: u32) -> usize
        ensures { result ≡ length (column_entries self.now j) }
    {
        self.parts.live_column_entries(j)
    }

    /// The sides of a row.
    pub fn sides(&self, i: u32) -> Sides
        requires { (row_at self.now i).live ≡ true }
        ensures { result ≡ sides_at self.now i }
    {
        self.parts.sides(i)
    }

    /// The bounds of a column.
    pub fn bounds(&self, j: u32) -> Bounds
        requires { (column_at self.now j).live ≡ true }
        ensures { result ≡ bounds_at self.now j }
    {
        self.parts.bounds(j)
    }

    /// The cost of a column, in the minimizing sense.
    pub fn cost(&self, j: u32) -> Frac
        requires { (column_at self.now j).live ≡ true }
        ensures { result ≡ cost_at self.now j }
    {
        self.parts.cost(j)
    }

    /// The one entry of a row in a live column.
    pub fn sole_entry(&self, i: u32) -> Term
        requires live { (row_at self.now i).live ≡ true }
        requires sole { length (row_entries self.now i) ≡ 1 }
        ensures { row_entries self.now i ≡ result ∷ [] }
    {
        self.parts.sole_entry(i)
    }

    /// The entries of a row in live columns, by column id.
    pub fn row_terms(&self, alloc: Global, i: u32) -> Result<Terms, AllocError>
        ensures { IfOk result (λ terms. terms ≡ row_entries self.now i) }
    {
        self.parts.row_terms(alloc, i)
    }

    /// The entries of a column in live rows, by row id.
    pub fn column_terms(&self, alloc: Global, j: u32) -> Result<Terms, AllocError>
        ensures { IfOk result (λ terms. terms ≡ column_entries self.now j) }
    {
        self.parts.column_terms(alloc, j)
    }

    /// The entries of a row, if all that it holds are in live columns.
    pub fn whole_row(&self, i: u32) -> Option<&[Term]>
        ensures { IfSome result (λ terms. terms.now ≡ row_entries self.now i) }
    {
        self.parts.whole_row(i)
    }

    /// The entries of a column, if all that it holds are in live rows.
    pub fn whole_column(&self, j: u32) -> Option<&[Term]>
        ensures { IfSome result (λ terms. terms.now ≡ column_entries self.now j) }
    {
        self.parts.whole_column(j)
    }

    /// How often a part has changed; a part past the ids never has.
    pub fn changes(&self, part: Part) -> u64
        ensures { result ≡ changes_of self.now part }
    {
        self.parts.changes(part)
    }

    /// Sets what was added to the cost, in the minimizing sense.
    pub fn set_offset(&mut self, offset: Frac)
        ensures { self.new ≡ offset_set self.old offset }
    {
        self.parts.set_offset(offset);
    }

    /// Gives a row sides.
    pub fn set_sides(&mut self, i: u32, lower: Ext, upper: Ext)
        requires { (row_at self.old i).live ≡ true }
        ensures { self.new ≡ sides_set self.old i lower upper }
    {
        self.parts.set_sides(i, lower, upper);
    }

    /// Gives a column bounds.
    pub fn set_bounds(&mut self, j: u32, lower: Ext, upper: Ext)
        requires { (column_at self.old j).live ≡ true }
        ensures { self.new ≡ bounds_set self.old j lower upper }
    {
        move_in_rows(&mut self.kept, &self.parts, j, &lower, &upper);
        self.parts.set_bounds(j, lower, upper);
    }

    /// Gives a column a cost, in the minimizing sense.
    pub fn set_cost(&mut self, j: u32, cost: Frac)
        requires { (column_at self.old j).live ≡ true }
        ensures { self.new ≡ cost_set self.old j cost }
    {
        self.parts.set_cost(j, cost);
    }

    /// Deletes a row with its sides. The columns' entries there are live no more; a column that has fewer live entries than others keeps
    /// those alone.
    pub fn delete_row(&mut self, i: u32)
        requires { (row_at self.old i).live ≡ true }
        ensures { self.new ≡ row_deleted self.old i }
    {
        put(&mut self.kept, i, None);
        self.parts.delete_row(i);
    }

    /// Deletes a column with its bounds and its cost. The rows' entries there are live no more; a row that has fewer live entries than
    /// others keeps those alone.
    pub fn delete_column(&mut self, j: u32)
        requires { (column_at self.old j).live ≡ true }
        ensures { self.new ≡ column_deleted self.old j }
    {
        lose_in_rows(&mut self.kept, &self.parts, j);
        self.parts.delete_column(j);
    }

    /// Says how often a part has changed.
    pub fn set_changes(&mut self, part: Part, changes: u64)
        requires { IsThere self.old part }
        ensures { self.new ≡ changes_put self.old part changes }
    {
        self.parts.set_changes(part, changes);
    }

    /// Sets entries of a column, each in the row that its term names, and hands out the entries that these lines had. 0 leaves no entry.
    /// The new lists, one for each line, are made before the first of them is put in place.
    ///
    /// # Errors
    /// Memory ran out. The problem is as it was.
    pub fn set_entries(
        &mut self,
        alloc: Global,
        j: u32,
        terms: &[Term],
    ) -> Result<Replaced, AllocError>
        requires rows { All (λ t. (row_at self.old t.id).live ≡ true) terms.now }
        requires column { (column_at self.old j).live ≡ true }
        requires ascends { IdsAscend 0 terms.now }
        ensures set { OnOk result (self.new ≡ entries_set self.old j terms.now) }
        ensures back { IfOk result (λ c. GivesBack c self.new self.old) }
        ensures err { OnErr result (self.new ≡ self.old) }
    {
        let replaced = self.parts.set_entries(alloc, j, terms)?;
        forget_rows(&mut self.kept, terms);
        Ok(replaced)
    }

    /// Gives rows and a column the entries that they had.
    pub fn put_back(&mut self, before: Replaced)
        requires rows { AreInside before.in_rows.items self.old.matrix.rows }
        requires column { before.in_column.line < length self.old.matrix.columns }
        requires sound { IsSparse (entries_given self.old before) }
        ensures { self.new ≡ entries_given self.old before }
    {
        forget_all(&mut self.kept);
        self.parts.put_back(before);
    }
}
