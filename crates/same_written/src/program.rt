//! The whole program.

ghost use Rattle.std.specs.Prelude.{◌≡◌, ◌↔◌, IfOk, IsTrue, length};
ghost use Rattle.problem_model.specs.Programs.{written_program};

use crate::columns::are_columns_of;
use crate::entries::new_row_ids;
use crate::rows::are_rows_of;
use lp_model::Program;
use sparse_problem::Problem;
use std::alloc::{AllocError, Global};

/// Whether two programs have the same sense, objective and constant.
fn same_head(one: &Program, other: &Program) -> bool
    ensures { IsTrue result ↔ ((one.now.sense ≡ other.now.sense) × (one.now.objective ≡ other.now.objective) × (one.now.constant ≡ other.now.constant)) }
{
    one.sense() == other.sense()
        && one.objective().as_bytes() == other.objective().as_bytes()
        && one.constant().is_same(&other.constant())
}

/// Whether a program is the one that is written of a problem, which was made of an original one: its live rows and columns in the same order,
/// with the original names, sense, objective and constant.
///
/// # Errors
/// Memory ran out: a new id is kept for each row.
pub fn is_written_of(
    alloc: Global,
    problem: &Problem,
    original: &Program,
    program: &Program,
) -> Result<bool, AllocError>
    requires rows { length original.now.rows ≡ length problem.now.matrix.rows }
    requires columns { length original.now.columns ≡ length problem.now.matrix.columns }
    ensures { IfOk result (λ said. IsTrue said ↔ (program.now ≡ written_program original.now problem.now)) }
{
    if !same_head(program, original) || !are_rows_of(problem, original.rows(), program.rows()) {
        return Ok(false);
    }
    let ids = new_row_ids(alloc, problem)?;
    Ok(are_columns_of(
        problem,
        original.sense(),
        ids.as_slice(),
        original.columns(),
        program.columns(),
    ))
}
