//! Notes of what edits touch, taken before they are made.

ghost use Rattle.std.specs.Prelude.{◌≡◌, ◌++◌, ◌∷◌, [], map, IfOk, OnOk};
ghost use Rattle.problem_model.specs.Matrices.{live_only};
ghost use Rattle.problem_model.specs.declared.edit.Edit.TheVariants as edit;
ghost use Rattle.problem_model.specs.declared.part.Part.TheVariants as part;
ghost use Rattle.problem_commits.specs.Noting.{all_noted, asked, certain, column_noted, columns_noted, cost_noted, goes_on, noted, rows_noted};

use crate::parts::read_contents;
use fractions::frac::Frac;
use lp_model::Term;
use problem_model::{Contents, Edit, Part};
use sparse_problem::Problem;
use std::alloc::{AllocError, Global};

/// What is kept of a part that edits touch, to tell afterwards whether it changed.
#[derive(Drop)]
pub enum Held {
    /// Nothing: it changes for certain.
    Certain,
    /// What it held.
    Whole(Contents),
    /// The cost of a column, where that is set. Edits that touch its entries have notes of their own.
    Cost(Frac),
}

/// A part as it stood before edits.
#[derive(Drop)]
pub struct Note {
    pub part: Part,
    /// How often it had changed.
    pub changes: u64,
    pub held: Held,
}

/// Notes a part that may change.
fn ask(
    notes: &mut Vec<Note>,
    alloc: Global,
    problem: &Problem,
    part: Part,
) -> Result<(), AllocError>
    ensures { OnOk result (notes.new.items ≡ notes.old.items ++ asked problem.now part ∷ []) }
{
    let contents = read_contents(alloc, problem, part)?;
    notes.push(Note {
        part,
        changes: problem.changes(part),
        held: Held::Whole(contents),
    })?;
    Ok(())
}

/// Notes a part that changes for certain.
fn note_certain(notes: &mut Vec<Note>, problem: &Problem, part: Part) -> Result<(), AllocError>
    ensures { OnOk result (notes.new.items ≡ notes.old.items ++ certain problem.now part ∷ []) }
{
    notes.push(Note {
        part,
        changes: problem.changes(part),
        held: Held::Certain,
    })?;
    Ok(())
}

/// Notes the cost of a column, if it is there.
fn note_cost(notes: &mut Vec<Note>, problem: &Problem, column: u32) -> Result<(), AllocError>
    ensures { OnOk result (notes.new.items ≡ notes.old.items ++ cost_noted problem.now column) }
{
    if !problem.is_column_live(column) {
        return Ok(());
    }
    notes.push(Note {
        part: Part::Col(column),
        changes: problem.changes(Part::Col(column)),
        held: Held::Cost(problem.cost(column)),
    })?;
    Ok(())
}

/// Notes a column that loses an entry, if it is there.
fn note_column(notes: &mut Vec<Note>, problem: &Problem, term: &Term) -> Result<(), AllocError>
    ensures { OnOk result (notes.new.items ≡ notes.old.items ++ columns_noted problem.now (live_only problem.now.matrix.columns (term.now ∷ []))) }
{
    if problem.is_column_live(term.id) {
        note_certain(notes, problem, Part::Col(term.id))?;
    }
    Ok(())
}

/// Notes a row that loses an entry, if it is there.
fn note_row(notes: &mut Vec<Note>, problem: &Problem, term: &Term) -> Result<(), AllocError>
    ensures { OnOk result (notes.new.items ≡ notes.old.items ++ rows_noted problem.now (live_only problem.now.matrix.rows (term.now ∷ []))) }
{
    if problem.is_row_live(term.id) {
        note_certain(notes, problem, Part::Row(term.id))?;
    }
    Ok(())
}

/// Notes the columns that terms name and that are there.
fn note_columns(notes: &mut Vec<Note>, problem: &Problem, terms: &[Term]) -> Result<(), AllocError>
    ensures { OnOk result (notes.new.items ≡ notes.old.items ++ columns_noted problem.now (live_only problem.now.matrix.columns terms.now)) }
{
    let mut rest = terms;
    while let [term, after @ ..] = rest {
        note_column(notes, problem, term)?;
        rest = after;
    }
    Ok(())
}

/// Notes the rows that terms name and that are there.
fn note_rows(notes: &mut Vec<Note>, problem: &Problem, terms: &[Term]) -> Result<(), AllocError>
    ensures { OnOk result (notes.new.items ≡ notes.old.items ++ rows_noted problem.now (live_only problem.now.matrix.rows terms.now)) }
{
    let mut rest = terms;
    while let [term, after @ ..] = rest {
        note_row(notes, problem, term)?;
        rest = after;
    }
    Ok(())
}

/// Notes a row that is deleted, its sides, and the columns that lose an entry.
fn note_deleted_row(notes: &mut Vec<Note>, problem: &Problem, i: u32) -> Result<(), AllocError>
    ensures { OnOk result (notes.new.items ≡ notes.old.items ++ noted problem.now (edit.DeleteRow i) []) }
{
    note_certain(notes, problem, Part::Row(i))?;
    note_certain(notes, problem, Part::Sides(i))?;
    note_columns(notes, problem, problem.rows().entries(i))
}

/// Notes a column that is deleted, its bounds, and the rows that lose an entry.
fn note_deleted_column(notes: &mut Vec<Note>, problem: &Problem, j: u32) -> Result<(), AllocError>
    ensures { OnOk result (notes.new.items ≡ notes.old.items ++ noted problem.now (edit.DeleteColumn j) []) }
{
    note_certain(notes, problem, Part::Col(j))?;
    note_certain(notes, problem, Part::Bounds(j))?;
    note_rows(notes, problem, problem.columns().entries(j))
}

/// Whether edits begin with one that sets an entry of a column.
fn goes_on(edits: &[Edit], j: u32) -> bool
    ensures { result ≡ goes_on j edits.now }
{
    match edits {
        [Edit::SetEntry { column, .. }, ..] => *column == j,
        _ => false,
    }
}

/// Notes the row and the column in which an entry crosses; the column with the last of its entries that are set one after the other.
fn note_entry(
    notes: &mut Vec<Note>,
    alloc: Global,
    problem: &Problem,
    i: u32,
    j: u32,
    after: &[Edit],
) -> Result<(), AllocError>
    ensures { OnOk result (notes.new.items ≡ notes.old.items ++ asked problem.now (part.Row i) ∷ column_noted problem.now j after.now) }
{
    ask(notes, alloc, problem, Part::Row(i))?;
    if !goes_on(after, j) {
        ask(notes, alloc, problem, Part::Col(j))?;
    }
    Ok(())
}

/// Notes what an edit touches, behind which others come.
fn note_edit(
    notes: &mut Vec<Note>,
    alloc: Global,
    problem: &Problem,
    edit: &Edit,
    after: &[Edit],
) -> Result<(), AllocError>
    ensures { OnOk result (notes.new.items ≡ notes.old.items ++ noted problem.now edit.now after.now) }
{
    match edit {
        Edit::DeleteRow { row } => note_deleted_row(notes, problem, *row),
        Edit::DeleteColumn { column } => note_deleted_column(notes, problem, *column),
        Edit::SetSides { row, .. } => ask(notes, alloc, problem, Part::Sides(*row)),
        Edit::SetBounds { column, .. } => ask(notes, alloc, problem, Part::Bounds(*column)),
        Edit::AddOffset { .. } => Ok(()),
        Edit::SetCost { column, .. } => note_cost(notes, problem, *column),
        Edit::SetEntry { row, column, .. } => note_entry(
            notes, alloc, problem, *row, *column, after,
        ),
    }
}

/// Notes what edits touch.
pub fn note_all(alloc: Global, problem: &Problem, edits: &[Edit]) -> Result<Vec<Note>, AllocError>
    ensures { IfOk result (λ notes. notes.items ≡ all_noted problem.now edits.now) }
{
    let mut notes = Vec::new(alloc);
    let mut rest = edits;
    while let [edit, after @ ..] = rest {
        note_edit(&mut notes, alloc, problem, edit, after)?;
        rest = after;
    }
    Ok(notes)
}
