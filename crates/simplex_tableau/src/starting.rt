//! The parts of the tableau at which a run starts.

ghost use Rattle.std.specs.Prelude.{◌≡◌, ◌↔◌, ℕ, ◌<◌, false, [], length, IfOk, IfErr, IsOk};
ghost use Rattle.fractions.specs.Number.{zero_ℚ};
ghost use Rattle.lp_model.specs.Vectors.{vector_of};
ghost use Rattle.lp_model.specs.Meaning.{meaning, column_at};
ghost use Rattle.lp_model.specs.Gaps.{reach_lower as lowest, reach_upper as highest};
ghost use Rattle.lp_model.specs.Turning.{signed};
ghost use Rattle.tableau_laws.specs.Variables.{joined, variables, resting as resting_at};
ghost use Rattle.tableau_laws.specs.Tableaus.{start, start_point};
ghost use Rattle.tableau_laws.specs.Room.{StartFits};
ghost use Rattle.simplex_tableau.specs.Starting.{Lists, IsFirstRow, first_prices as prices_of, FirstFits};
ghost use Rattle.simplex_tableau.specs.declared.starting.NoStart.TheVariants.{Past as SumPast, NoMemory};

use fractions::Past;
use fractions::ext::Ext;
use fractions::frac::Frac;
use lp_model::ends::{reach_lower, reach_upper};
use lp_model::{ColumnDef, Point, Program, Sense, number_at, row_value};
use std::alloc::{AllocError, AllocFailed, Global};
use tableau_rows::Row;

/// Why there is no first tableau.
#[derive(Clone, Copy, Debug, PartialEq, Eq)]
pub enum NoStart {
    /// The sum of a row has no room.
    Past,
    /// Want of memory.
    NoMemory,
}

impl From<Past> for NoStart {
    ghost from_gives = { λ _ e. e ≡ SumPast };

    fn from(_e: Past) -> NoStart {
        NoStart::Past
    }
}

impl From<AllocError> for NoStart {
    ghost from_gives = { λ _ e. e ≡ NoMemory };

    fn from(_e: AllocError) -> NoStart {
        NoStart::NoMemory
    }
}

impl<T: Drop> From<AllocFailed<T>> for NoStart {
    ghost from_gives = { λ _ e. e ≡ NoMemory };

    fn from(_e: AllocFailed<T>) -> NoStart {
        NoStart::NoMemory
    }
}

/// How many variables a program has: one for each column and each row.
fn count(program: &Program) -> usize
    ensures { result ≡ variables (meaning program.now) }
{
    program.columns().len() + program.rows().len()
}

/// Where a column starts: at its lower end, else at its upper one, else at 0.
fn resting(lower: &Ext, upper: &Ext) -> Frac
    ensures { result ≡ resting_at lower.now upper.now }
{
    match (lower.number(), upper.number()) {
        (Some(number), _) => number,
        (None, Some(number)) => number,
        (None, None) => Frac::zero(),
    }
}

/// The number of a column at the start.
fn first_number(column: &ColumnDef) -> Frac
    ensures { result ≡ resting_at (lowest column.now.semi column.now.lower column.now.upper) (highest column.now.semi column.now.lower column.now.upper) }
{
    resting(
        &reach_lower(column.semi, &column.lower, &column.upper),
        &reach_upper(column.semi, &column.lower, &column.upper),
    )
}

/// The point at which a run starts.
pub fn first_point(alloc: Global, program: &Program) -> Result<Point, AllocError>
    ensures long { IfOk result (λ x. length x ≡ length program.now.columns) }
    ensures numbers { IfOk result (λ x. vector_of x ≡ start_point (meaning program.now)) }
{
    let columns = program.columns();
    let mut numbers = Vec::with_capacity(alloc, columns.len())?;
    for j in 0..columns.len() {
        numbers.push(first_number(&columns[j]))?;
    }
    Ok(Point::new(numbers))
}

/// The value of a variable at the start: of a row's, the sum of its coefficients times the columns' numbers.
///
/// # Errors
/// [`Past`] exactly where a product or a sum of it has no room.
fn first_value(program: &Program, point: &Point, k: usize) -> Result<Frac, Past>
    requires long { length point.now ≡ length program.now.columns }
    requires point { vector_of point.now ≡ start_point (meaning program.now) }
    requires within { k < variables (meaning program.now) }
    ensures value { IfOk result (λ v. v ≡ (start (meaning program.now)).values k) }
    ensures fits { IsOk result ↔ FirstFits (meaning program.now) k }
{
    let numbers = point.as_slice();
    if k < numbers.len() {
        return Ok(numbers[k]);
    }
    row_value(program, k - numbers.len(), point)
}

/// The values of all variables at the start.
///
/// # Errors
/// [`NoStart::Past`] exactly where the sum of a row has no room.
pub fn first_values(alloc: Global, program: &Program, point: &Point) -> Result<Vec<Frac>, NoStart>
    requires long { length point.now ≡ length program.now.columns }
    requires point { vector_of point.now ≡ start_point (meaning program.now) }
    ensures values { IfOk result (λ v. Lists zero_ℚ (λ k x. x ≡ (start (meaning program.now)).values k) (variables (meaning program.now)) v.items) }
    ensures room { IfOk result (λ v. StartFits (meaning program.now)) }
    ensures past { IfErr result (λ e. e ≡ SumPast → StartFits (meaning program.now) → ⊥) }
{
    let size = count(program);
    let mut values = Vec::with_capacity(alloc, size)?;
    for k in 0..size {
        let value = first_value(program, point, k)?;
        values.push(value)?;
    }
    Ok(values)
}

/// A cost as it is minimized.
fn minimized_cost(sense: Sense, cost: &Frac) -> Frac
    ensures { result ≡ signed sense cost.now }
{
    match sense {
        Sense::Min => *cost,
        Sense::Max => cost.neg(),
    }
}

/// The price of a variable at the start.
fn first_price(program: &Program, k: usize) -> Frac
    ensures { result ≡ prices_of program.now k }
{
    let columns = program.columns();
    if k < columns.len() {
        minimized_cost(program.sense(), &columns[k].cost)
    } else {
        Frac::zero()
    }
}

/// The prices of all variables at the start.
pub fn first_prices(alloc: Global, program: &Program) -> Result<Vec<Frac>, AllocError>
    ensures { IfOk result (λ v. Lists zero_ℚ (λ k x. x ≡ prices_of program.now k) (variables (meaning program.now)) v.items) }
{
    let size = count(program);
    let mut prices = Vec::with_capacity(alloc, size)?;
    for k in 0..size {
        prices.push(first_price(program, k))?;
    }
    Ok(prices)
}

/// Whether a variable is basic at the start: whether it is a row's.
fn first_flag(program: &Program, k: usize) -> bool
    requires { k < variables (meaning program.now) }
    ensures { result ≡ (start (meaning program.now)).basic k }
{
    if k < program.columns().len() {
        return false;
    }
    true
}

/// Which variables are basic at the start.
pub fn first_flags(alloc: Global, program: &Program) -> Result<Vec<bool>, AllocError>
    ensures { IfOk result (λ v. Lists false (λ k x. x ≡ (start (meaning program.now)).basic k) (variables (meaning program.now)) v.items) }
{
    let size = count(program);
    let mut flags = Vec::with_capacity(alloc, size)?;
    for k in 0..size {
        flags.push(first_flag(program, k))?;
    }
    Ok(flags)
}

/// The multiple of a variable in a row's sum: a coefficient, and 0 at the variables of rows.
fn first_multiple(program: &Program, i: usize, k: usize) -> Frac
    ensures { result ≡ joined (length program.now.columns) ((meaning program.now).coefficient i) (λ j. zero_ℚ) k }
{
    let columns = program.columns();
    if k < columns.len() {
        number_at(columns[k].entries.as_slice(), i)
    } else {
        Frac::zero()
    }
}

/// The multiples of all variables in a row's sum.
fn first_multiples(alloc: Global, program: &Program, i: usize) -> Result<Row, AllocError>
    ensures { IfOk result (λ r. Lists zero_ℚ (λ k x. x ≡ joined (length program.now.columns) ((meaning program.now).coefficient i) (λ j. zero_ℚ) k) (variables (meaning program.now)) r) }
{
    let size = count(program);
    let mut numbers = Vec::with_capacity(alloc, size)?;
    for k in 0..size {
        numbers.push(first_multiple(program, i, k))?;
    }
    Ok(Row::new(numbers))
}

/// The row of a variable at the start.
fn first_row(alloc: Global, program: &Program, k: usize) -> Result<Row, AllocError>
    requires { k < variables (meaning program.now) }
    ensures { IfOk result (λ r. IsFirstRow (meaning program.now) k r) }
{
    let columns = program.columns().len();
    if k < columns {
        return Ok(Row::new(Vec::new(alloc)));
    }
    first_multiples(alloc, program, k - columns)
}

/// The rows of all variables at the start.
pub fn first_rows(alloc: Global, program: &Program) -> Result<Vec<Row>, AllocError>
    ensures { IfOk result (λ v. Lists [] (IsFirstRow (meaning program.now)) (variables (meaning program.now)) v.items) }
{
    let size = count(program);
    let mut rows = Vec::with_capacity(alloc, size)?;
    for k in 0..size {
        let row = first_row(alloc, program, k)?;
        rows.push(row)?;
    }
    Ok(rows)
}
