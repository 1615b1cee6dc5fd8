//! Columns with one entry.

ghost use Rattle.std.specs.Prelude.{◌≡◌, ◌++◌, ◌∷◌, [], OnOk};
ghost use Rattle.std.specs.List.{flat_map};
ghost use Rattle.undo_records.specs.Ids.{ids_of};
ghost use Rattle.problem_model.specs.Matrices.{live_only};
ghost use Rattle.problem_model.specs.Problems.{row_entries};
ghost use Rattle.round_marks.specs.Soles.{soles};

use lp_model::Term;
use sparse_problem::Problem;
use std::alloc::AllocError;

/// Adds a column, if it has one entry.
fn add_if_sole(problem: &Problem, column: u32, ids: &mut Vec<u32>) -> Result<(), AllocError>
    ensures { OnOk result (ids.new.items ≡ ids.old.items ++ soles problem.now (column ∷ [])) }
{
    if problem.live_column_entries(column) == 1 {
        ids.push(column)?;
    }
    Ok(())
}

/// Adds those of some columns that have one entry.
pub fn add_soles(problem: &Problem, columns: &[u32], ids: &mut Vec<u32>) -> Result<(), AllocError>
    ensures { OnOk result (ids.new.items ≡ ids.old.items ++ soles problem.now columns.now) }
{
    let mut rest = columns;
    while let [column, after @ ..] = rest {
        add_if_sole(problem, *column, ids)?;
        rest = after;
    }
    Ok(())
}

/// Adds the column of a term, if it is live and has one entry.
fn add_if_live(problem: &Problem, term: &Term, ids: &mut Vec<u32>) -> Result<(), AllocError>
    ensures { OnOk result (ids.new.items ≡ ids.old.items ++ soles problem.now (ids_of (live_only problem.now.matrix.columns (term.now ∷ [])))) }
{
    if problem.is_column_live(term.id) {
        add_if_sole(problem, term.id, ids)?;
    }
    Ok(())
}

/// Adds those of the live columns of terms that have one entry.
fn add_live(problem: &Problem, terms: &[Term], ids: &mut Vec<u32>) -> Result<(), AllocError>
    ensures { OnOk result (ids.new.items ≡ ids.old.items ++ soles problem.now (ids_of (live_only problem.now.matrix.columns terms.now))) }
{
    let mut rest = terms;
    while let [term, after @ ..] = rest {
        add_if_live(problem, term, ids)?;
        rest = after;
    }
    Ok(())
}

/// Adds the columns with one entry that stand in a row. One past the last has none.
fn add_of_row(problem: &Problem, row: u32, ids: &mut Vec<u32>) -> Result<(), AllocError>
    ensures { OnOk result (ids.new.items ≡ ids.old.items ++ soles problem.now (ids_of (row_entries problem.now row))) }
{
    add_live(problem, problem.rows().entries(row), ids)
}

/// Adds the columns with one entry that stand in rows with these ids.
pub fn add_soles_of_rows(
    problem: &Problem,
    rows: &[u32],
    ids: &mut Vec<u32>,
) -> Result<(), AllocError>
    ensures { OnOk result (ids.new.items ≡ ids.old.items ++ flat_map (λ i. soles problem.now (ids_of (row_entries problem.now i))) rows.now) }
{
    let mut rest = rows;
    while let [row, after @ ..] = rest {
        add_of_row(problem, *row, ids)?;
        rest = after;
    }
    Ok(())
}
