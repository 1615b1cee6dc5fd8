//! A row of two entries that is an equation.

ghost use Rattle.std.specs.Prelude.{◌≡◌, ◌≢◌, ◌&&◌, true};
ghost use Rattle.fractions.specs.Number.{zero_ℚ};
ghost use Rattle.lp_model.specs.EndTests.{is_in_order};
ghost use Rattle.problem_model.specs.Problems.{bounds_at, column_at, row_at, row_entries};
ghost use Rattle.row_spans.specs.Exact.{exact_quotient};
ghost use Rattle.aggregation_laws.specs.DoubletonEquation.{are_at, entry_at, equal_of, is_made_whole};
ghost use Rattle.aggregation_rules.specs.Looks.{equation_at, is_in_range as is_within, is_open as column_is_open, is_pair as is_pair_of, keeps_whole as whole_is_kept};

use fractions::frac::Frac;
use lp_model::ends::{fixed, in_order};
use lp_model::{Term, number_at};
use row_spans::exact::quotient;
use sparse_problem::Problem;

/// The numbers of a row a x + b y = r, whose column x goes: a, b and r.
#[derive(Clone, Copy)]
pub struct Equation {
    pub value: Frac,
    pub kept_value: Frac,
    pub equal: Frac,
}

/// The entries of a row, those in deleted columns among them.
fn entries_of_row(problem: &Problem, row: u32) -> &[Term]
    requires { (row_at problem.now row).live ≡ true }
    ensures { result.now ≡ (row_at problem.now row).entries }
{
    problem.row_line(row).entries.as_slice()
}

/// The entry of a row in a column: 0 where it has none there.
fn entry_of(problem: &Problem, row: u32, column: u32) -> Frac
    requires row { (row_at problem.now row).live ≡ true }
    requires column { (column_at problem.now column).live ≡ true }
    ensures { result ≡ entry_at problem.now row column }
{
    number_at(entries_of_row(problem, row), column as usize)
}

/// Whether a row has an entry in each of two columns, and no other one.
#[tactic(auto, using(crate::proofs::Looks::two_is))]
fn has_two(problem: &Problem, row: u32, column: u32, other: u32) -> bool
    requires row { (row_at problem.now row).live ≡ true }
    requires first { (column_at problem.now column).live ≡ true }
    requires second { (column_at problem.now other).live ≡ true }
    ensures { result ≡ are_at column other (row_entries problem.now row) }
{
    problem.is_sparse();
    problem.live_row_entries(row) == 2
        && column != other
        && !entry_of(problem, row, column).is_zero()
        && !entry_of(problem, row, other).is_zero()
}

/// Whether a row and two columns are live, and it has an entry in each of them and no other one.
pub fn is_pair(problem: &Problem, row: u32, column: u32, other: u32) -> bool
    ensures { result ≡ is_pair_of problem.now row column other }
{
    problem.is_row_live(row)
        && problem.is_column_live(column)
        && problem.is_column_live(other)
        && has_two(problem, row, column, other)
}

/// Whether a column is not semi-continuous, and its bounds are in order.
fn is_open(problem: &Problem, column: u32) -> bool
    requires { (column_at problem.now column).live ≡ true }
    ensures { result ≡ column_is_open problem.now column }
{
    let bounds = problem.bounds(column);
    !bounds.semi && in_order(&bounds.lower, &bounds.upper)
}

/// Whether both sides of the row are one number, and both columns are not semi-continuous, with bounds in order.
#[tactic(auto, using(crate::proofs::Looks::row_on, crate::proofs::Looks::first_on, crate::proofs::Looks::second_on))]
pub fn is_in_range(problem: &Problem, row: u32, column: u32, other: u32) -> bool
    requires { is_pair_of problem.now row column other ≡ true }
    ensures { result ≡ is_within problem.now row column other }
{
    let sides = problem.sides(row);
    fixed(&sides.lower, &sides.upper, false) && is_open(problem, column) && is_open(problem, other)
}

/// What a row is equal to, if both its sides are one number.
fn equal_to(problem: &Problem, row: u32) -> Frac
    requires { (row_at problem.now row).live ≡ true }
    ensures { result ≡ equal_of problem.now row }
{
    match problem.sides(row).lower.number() {
        Some(number) => number,
        None => Frac::zero(),
    }
}

/// The equation.
#[tactic(auto, using(crate::proofs::Looks::row_on, crate::proofs::Looks::first_on, crate::proofs::Looks::second_on))]
pub fn equation_of(problem: &Problem, row: u32, column: u32, other: u32) -> Equation
    requires { is_pair_of problem.now row column other ≡ true }
    ensures { result ≡ equation_at problem.now row column other }
{
    Equation {
        value: entry_of(problem, row, column),
        kept_value: entry_of(problem, row, other),
        equal: equal_to(problem, row),
    }
}

/// Whether a quotient has room and is whole.
fn is_whole_over(number: &Frac, divisor: &Frac) -> bool
    requires { divisor.now ≢ zero_ℚ }
    ensures { result ≡ is_made_whole (exact_quotient number.now divisor.now) }
{
    match quotient(number, divisor) {
        Ok(made) => made.is_whole(),
        Err(_) => false,
    }
}

/// Whether both quotients of an equation have room and are whole.
fn has_whole_quotients(equation: &Equation) -> bool
    requires { equation.now.value ≢ zero_ℚ }
    ensures { result ≡ (is_made_whole (exact_quotient equation.now.kept_value equation.now.value) && is_made_whole (exact_quotient equation.now.equal equation.now.value)) }
{
    is_whole_over(&equation.kept_value, &equation.value)
        && is_whole_over(&equation.equal, &equation.value)
}

/// Whether what is whole stays so.
#[tactic(auto, using(crate::proofs::Looks::first_on, crate::proofs::Looks::second_on, crate::proofs::Looks::first_some))]
pub fn keeps_whole(problem: &Problem, row: u32, column: u32, other: u32) -> bool
    requires { is_pair_of problem.now row column other ≡ true }
    ensures { result ≡ whole_is_kept problem.now row column other }
{
    if !problem.bounds(column).whole {
        return true;
    }
    problem.is_sparse();
    problem.bounds(other).whole && has_whole_quotients(&equation_of(problem, row, column, other))
}
