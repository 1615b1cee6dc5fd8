//! Edits made.

ghost use Rattle.std.specs.Prelude.{◌≡◌, ◌∷◌, []};
ghost use Rattle.fractions.specs.FracWords.{SumFits};
ghost use Rattle.fractions.specs.Number.{◌+ℚ◌};
ghost use Rattle.problem_model.specs.Allowed.{AreAllowed, IsAllowed, NoEntries};
ghost use Rattle.problem_model.specs.Applied.{applied, edited};
ghost use Rattle.problem_model.specs.Edits.{offset_set};
ghost use Rattle.problem_model.specs.Offsets.{OffsetFits};

use fractions::frac::Frac;
use problem_model::Edit;
use sparse_problem::Problem;

/// Adds to the offset.
fn add_offset(problem: &mut Problem, amount: Frac)
    requires { SumFits problem.old.offset amount }
    ensures { problem.new ≡ offset_set problem.old (problem.old.offset +ℚ amount) }
{
    match problem.offset().add(&amount) {
        Ok(offset) => problem.set_offset(offset),
        Err(_) => unreachable!(),
    }
}

/// Makes one edit, which sets no entry.
fn make(problem: &mut Problem, edit: Edit)
    requires allowed { IsAllowed problem.old edit }
    requires fits { OffsetFits problem.old.offset (edit ∷ []) }
    requires plain { NoEntries (edit ∷ []) }
    ensures { problem.new ≡ edited problem.old edit }
{
    match edit {
        Edit::DeleteRow { row } => problem.delete_row(row),
        Edit::DeleteColumn { column } => problem.delete_column(column),
        Edit::SetSides { row, lower, upper } => problem.set_sides(row, lower, upper),
        Edit::SetBounds {
            column,
            lower,
            upper,
        } => problem.set_bounds(column, lower, upper),
        Edit::AddOffset { amount } => add_offset(problem, amount),
        Edit::SetCost { column, cost } => problem.set_cost(column, cost),
        Edit::SetEntry { .. } => unreachable!(),
    }
}

/// Makes edits that set no entry, one after the other.
pub fn make_all(problem: &mut Problem, edits: &[Edit])
    requires allowed { AreAllowed problem.old edits.now }
    requires fits { OffsetFits problem.old.offset edits.now }
    requires plain { NoEntries edits.now }
    ensures { problem.new ≡ applied problem.old edits.now }
{
    let mut rest = edits;
    while let [edit, after @ ..] = rest {
        make(problem, *edit);
        rest = after;
    }
}
