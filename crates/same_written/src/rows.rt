//! Rows.

ghost use Rattle.std.specs.Prelude.{◌≡◌, ◌≢◌, ◌↔◌, ◌++◌, IfNone, IfSome, IsTrue, List, length};
ghost use Rattle.lp_model.specs.declared.program.RowDef.{RowDef};
ghost use Rattle.problem_model.specs.Problems.{row_at, sides_at};
ghost use Rattle.problem_model.specs.Programs.{written_rows};
ghost use Rattle.same_written.specs.Pieces.{row_piece};

use lp_model::RowDef;
use problem_model::Sides;
use sparse_problem::Problem;

/// Whether a row has the name of an original one, and these sides.
fn has_sides(row: &RowDef, original: &RowDef, sides: &Sides) -> bool
    ensures { IsTrue result ↔ (row.now ≡ record original.now { lower = sides.now.lower; upper = sides.now.upper }) }
{
    row.name.as_bytes() == original.name.as_bytes()
        && row.lower.is_same(&sides.lower)
        && row.upper.is_same(&sides.upper)
}

/// What stands behind the row that is written of the one with this id; all, where that is gone. None where another row stands first.
fn behind_row<'a>(
    problem: &Problem,
    original: &RowDef,
    i: u32,
    rows: &'a [RowDef],
) -> Option<&'a [RowDef]>
    ensures some { IfSome result (λ rest. rows.now ≡ row_piece original.now (row_at problem.now i) (sides_at problem.now i) ++ rest.now) }
    ensures none { IfNone result ((rest : List RowDef) → rows.now ≢ row_piece original.now (row_at problem.now i) (sides_at problem.now i) ++ rest) }
{
    if !problem.is_row_live(i) {
        return Some(rows);
    }
    let [row, rest @ ..] = rows else {
        return None;
    };
    if !has_sides(row, original, &problem.sides(i)) {
        return None;
    }
    Some(rest)
}

/// Whether these are the live rows of a problem, with their present sides and the names of the original ones.
pub fn are_rows_of(problem: &Problem, originals: &[RowDef], rows: &[RowDef]) -> bool
    requires { length originals.now ≡ length problem.now.matrix.rows }
    ensures { IsTrue result ↔ (rows.now ≡ written_rows originals.now problem.now.matrix.rows problem.now.sides) }
{
    problem.is_sparse();
    let mut left = rows;
    for i in 0..originals.len() {
        let Some(rest) = behind_row(problem, &originals[i], i as u32, left) else {
            return false;
        };
        left = rest;
    }
    left.is_empty()
}
