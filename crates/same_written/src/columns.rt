//! Columns.

ghost use Rattle.std.specs.Prelude.{◌≡◌, ◌≢◌, ◌↔◌, ◌++◌, IfNone, IfSome, IsTrue, List, length, true};
ghost use Rattle.lp_model.specs.declared.program.ColumnDef.{ColumnDef};
ghost use Rattle.problem_model.specs.Problems.{bounds_at, column_at, cost_at};
ghost use Rattle.problem_model.specs.Programs.{written_column, written_columns};
ghost use Rattle.entry_lines.specs.Ranks.{AreRanks};
ghost use Rattle.same_written.specs.Pieces.{column_piece};

use crate::entries::are_renumbered;
use lp_model::{ColumnDef, Sense};
use problem_data::in_sense;
use problem_model::Bounds;
use sparse_problem::Problem;

/// Whether a column has these bounds, and is whole or semi-continuous as they say.
fn has_bounds(column: &ColumnDef, bounds: &Bounds) -> bool
    ensures { IsTrue result ↔ ((column.now.lower ≡ bounds.now.lower) × (column.now.upper ≡ bounds.now.upper) × (column.now.whole ≡ bounds.now.whole) × (column.now.semi ≡ bounds.now.semi)) }
{
    column.lower.is_same(&bounds.lower)
        && column.upper.is_same(&bounds.upper)
        && column.whole == bounds.whole
        && column.semi == bounds.semi
}

/// Whether a column is the one that is written of the live one with this id.
fn is_column_of(
    problem: &Problem,
    sense: Sense,
    ids: &[u32],
    original: &ColumnDef,
    j: u32,
    column: &ColumnDef,
) -> bool
    requires ids { AreRanks problem.now.matrix.rows ids.now }
    requires live { (column_at problem.now j).live ≡ true }
    ensures { IsTrue result ↔ (column.now ≡ written_column sense problem.now.matrix.rows original.now (column_at problem.now j) (bounds_at problem.now j) (cost_at problem.now j)) }
{
    let entries = problem.columns().entries(j);
    column.name.as_bytes() == original.name.as_bytes()
        && column.cost.is_same(&in_sense(sense, &problem.cost(j)))
        && has_bounds(column, &problem.bounds(j))
        && are_renumbered(&problem.rows(), ids, entries, column.entries.as_slice())
}

/// What stands behind the column that is written of the one with this id; all, where that is gone. None where another column stands first.
fn behind_column<'a>(
    problem: &Problem,
    sense: Sense,
    ids: &[u32],
    original: &ColumnDef,
    j: u32,
    columns: &'a [ColumnDef],
) -> Option<&'a [ColumnDef]>
    requires { AreRanks problem.now.matrix.rows ids.now }
    ensures some { IfSome result (λ rest. columns.now ≡ column_piece sense problem.now.matrix.rows original.now (column_at problem.now j) (bounds_at problem.now j) (cost_at problem.now j) ++ rest.now) }
    ensures none { IfNone result ((rest : List ColumnDef) → columns.now ≢ column_piece sense problem.now.matrix.rows original.now (column_at problem.now j) (bounds_at problem.now j) (cost_at problem.now j) ++ rest) }
{
    if !problem.is_column_live(j) {
        return Some(columns);
    }
    let [column, rest @ ..] = columns else {
        return None;
    };
    if !is_column_of(problem, sense, ids, original, j, column) {
        return None;
    }
    Some(rest)
}

/// Whether these are the live columns of a problem, with their present bounds, costs and entries and the names of the original ones.
pub fn are_columns_of(
    problem: &Problem,
    sense: Sense,
    ids: &[u32],
    originals: &[ColumnDef],
    columns: &[ColumnDef],
) -> bool
    requires ids { AreRanks problem.now.matrix.rows ids.now }
    requires long { length originals.now ≡ length problem.now.matrix.columns }
    ensures { IsTrue result ↔ (columns.now ≡ written_columns sense problem.now.matrix.rows originals.now problem.now.matrix.columns problem.now.bounds problem.now.costs) }
{
    problem.is_sparse();
    let mut left = columns;
    for j in 0..originals.len() {
        let Some(rest) = behind_column(problem, sense, ids, &originals[j], j as u32, left) else {
            return false;
        };
        left = rest;
    }
    left.is_empty()
}
