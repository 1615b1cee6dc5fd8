//! Whether the rows of a column take its moves in a direction. Nothing is copied: what is passed over is what stands in deleted rows.

ghost use Rattle.std.specs.Prelude.{◌≡◌, ◌||◌, ◌&&◌, not, true, length, map};
ghost use Rattle.lp_model.specs.Sparse.{Ascends};
ghost use Rattle.problem_model.specs.declared.part.Part.TheVariants as part;
ghost use Rattle.problem_model.specs.Matrices.{live_only};
ghost use Rattle.problem_model.specs.Parts.{contents_of};
ghost use Rattle.problem_model.specs.Problems.{column_at, row_at};
ghost use Rattle.rule_words.specs.Reading.{sides_of, terms_in};
ghost use Rattle.dual_laws.specs.Locks.{all_take, are_uncrossed, is_uncrossed};
ghost use Rattle.dual_rules.specs.Directions.{takes};

use lp_model::Term;
use lp_model::ends::in_order;
use sparse_problem::Problem;

/// Towards the lower bound, or towards the upper one.
#[derive(Clone, Copy)]
pub enum Direction {
    Down,
    Up,
}

/// Whether a row stays within its sides when the column of a term moves.
fn row_takes(problem: &Problem, direction: Direction, term: &Term) -> bool
    requires { (row_at problem.now term.now.id).live ≡ true }
    ensures { result ≡ takes direction term.now.value (contents_of problem.now (part.Sides term.now.id)) }
{
    let sides = problem.sides(term.id);
    let (behind, ahead) = match direction {
        Direction::Down => (sides.lower, sides.upper),
        Direction::Up => (sides.upper, sides.lower),
    };
    (!term.value.is_positive() || behind.is_none())
        && (!term.value.is_negative() || ahead.is_none())
}

/// Whether the sides of a row aren't crossed.
fn row_uncrossed(problem: &Problem, term: &Term) -> bool
    requires { (row_at problem.now term.now.id).live ≡ true }
    ensures { result ≡ is_uncrossed (contents_of problem.now (part.Sides term.now.id)) }
{
    let sides = problem.sides(term.id);
    in_order(&sides.lower, &sides.upper)
}

/// Whether each live row of a column with these entries takes a move.
pub fn rows_take(problem: &Problem, direction: Direction, entries: &[Term]) -> bool
    ensures { result ≡ all_take (takes direction) (live_only problem.now.matrix.rows entries.now) (map (contents_of problem.now) (sides_of (live_only problem.now.matrix.rows entries.now))) }
{
    let mut rest = entries;
    while let [term, after @ ..] = rest {
        if problem.is_row_live(term.id) && !row_takes(problem, direction, term) {
            return false;
        }
        rest = after;
    }
    true
}

/// Whether no live row of a column with these entries has crossed sides.
pub fn rows_uncrossed(problem: &Problem, entries: &[Term]) -> bool
    ensures { result ≡ are_uncrossed (map (contents_of problem.now) (sides_of (live_only problem.now.matrix.rows entries.now))) }
{
    let mut rest = entries;
    while let [term, after @ ..] = rest {
        if problem.is_row_live(term.id) && !row_uncrossed(problem, term) {
            return false;
        }
        rest = after;
    }
    true
}

/// The entries of a column, those in deleted rows among them.
pub fn entries(problem: &Problem, column: u32) -> &[Term]
    requires { (column_at problem.now column).live ≡ true }
    ensures { result.now ≡ (column_at problem.now column).entries }
{
    problem.column_line(column).entries.as_slice()
}

/// The entries of a column, those in deleted rows among them; none if it isn't live.
pub fn entries_if_live(problem: &Problem, column: u32) -> &[Term]
    ensures named { live_only problem.now.matrix.rows result.now ≡ terms_in (contents_of problem.now (part.Col column)) }
    ensures ascend { Ascends 0 (length problem.now.matrix.rows) result.now }
{
    problem.is_sparse();
    if problem.is_column_live(column) {
        entries(problem, column)
    } else {
        &[]
    }
}
