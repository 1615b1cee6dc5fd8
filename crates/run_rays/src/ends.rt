//! Which of the ends moved that a reduction met with others.

ghost use Rattle.std.specs.Prelude.{◌≡◌};
ghost use Rattle.lp_rays.specs.Handing.{moved};
ghost use Rattle.problem_model.specs.Showing.{shown};
ghost use Rattle.ray_steps.specs.StepBack.{high_moved, low_moved};

use fractions::ext::Ext;
use sparse_problem::Problem;
use undo_records::Undo;

/// Whether the lower and the upper end moved.
#[derive(Clone, Copy)]
pub(crate) struct Moved {
    pub(crate) low: bool,
    pub(crate) high: bool,
}

/// Whether an end moved.
fn is_moved(before: &Ext, after: &Ext) -> bool
    ensures { result ≡ moved before.now after.now }
{
    match before.number() {
        None => !after.is_none(),
        Some(number) => match after.number() {
            None => true,
            Some(other) => !number.is_same(&other),
        },
    }
}

/// The lower bound of a column, none where the column is gone.
fn lower_bound(problem: &Problem, column: u32) -> Ext
    ensures { result ≡ (shown problem.now).lower_bound column }
{
    if !problem.is_column_live(column) {
        return Ext::none();
    }
    problem.bounds(column).reach_lower()
}

/// The upper bound of a column, none where the column is gone.
fn upper_bound(problem: &Problem, column: u32) -> Ext
    ensures { result ≡ (shown problem.now).upper_bound column }
{
    if !problem.is_column_live(column) {
        return Ext::none();
    }
    problem.bounds(column).reach_upper()
}

/// The lower side of a row, none where the row is gone.
fn lower_side(problem: &Problem, row: u32) -> Ext
    ensures { result ≡ (shown problem.now).lower_side row }
{
    if !problem.is_row_live(row) {
        return Ext::none();
    }
    problem.sides(row).lower
}

/// The upper side of a row, none where the row is gone.
fn upper_side(problem: &Problem, row: u32) -> Ext
    ensures { result ≡ (shown problem.now).upper_side row }
{
    if !problem.is_row_live(row) {
        return Ext::none();
    }
    problem.sides(row).upper
}

/// Which bounds of a column moved that were these.
fn moved_bounds(problem: &Problem, column: u32, lower: &Ext, upper: &Ext) -> Moved
    ensures low { result.low ≡ moved lower.now ((shown problem.now).lower_bound column) }
    ensures high { result.high ≡ moved upper.now ((shown problem.now).upper_bound column) }
{
    Moved {
        low: is_moved(lower, &lower_bound(problem, column)),
        high: is_moved(upper, &upper_bound(problem, column)),
    }
}

/// Which sides of a row moved that were these.
fn moved_sides(problem: &Problem, row: u32, lower: &Ext, upper: &Ext) -> Moved
    ensures low { result.low ≡ moved lower.now ((shown problem.now).lower_side row) }
    ensures high { result.high ≡ moved upper.now ((shown problem.now).upper_side row) }
{
    Moved {
        low: is_moved(lower, &lower_side(problem, row)),
        high: is_moved(upper, &upper_side(problem, row)),
    }
}

/// Which ends moved that the reduction of a record met with others: those of the column of K2, of the kept column of K12, or of the kept row
/// of K15. The problem is the one after it.
pub(crate) fn moved_ends(problem: &Problem, undo: &Undo) -> Moved
    ensures low { result.low ≡ low_moved undo.now (shown problem.now) }
    ensures high { result.high ≡ high_moved undo.now (shown problem.now) }
{
    match undo {
        Undo::SingletonRow(it) => {
            moved_bounds(problem, it.column, &it.lower.get(), &it.upper.get())
        }
        Undo::DoubletonEquation(it) => {
            moved_bounds(problem, it.kept, &it.lower.get(), &it.upper.get())
        }
        Undo::ParallelRows(it) => moved_sides(problem, it.kept, &it.lower.get(), &it.upper.get()),
        _ => Moved {
            low: false,
            high: false,
        },
    }
}
