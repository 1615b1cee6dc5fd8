//! A plain and slow program that judges a point of a small model: each value is the sum over all columns.

ghost use Rattle.std.specs.Prelude.{◌≡◌, ◌↔◌, ◌⊎◌, ◌∷◌, ℕ, ◌<◌, length, All, IsTrue, IfOk, IsOk, Option, Some, None, MatchOption, ◌≢◌, slice_index_or};
ghost use Rattle.fractions.specs.Number.{◌+ℚ◌, ◌*ℚ◌};
ghost use Rattle.fractions.specs.Lowest.{Fits};
ghost use Rattle.fractions.specs.FracWords.{SumFits};
ghost use Rattle.lp_model.specs.Room.{ValueFits, ValuesFit, CostFits};
ghost use Rattle.fractions.specs.Order.{◌≤ℚ◌, ◌<ℚ◌};
ghost use Rattle.fractions.specs.Ends.{AtLeast, AtMost, Between};
ghost use Rattle.fractions.specs.Floor.{IsWhole};
ghost use Rattle.lp_model.specs.LinearProgram.{value_at, cost_at, Feasible};
ghost use Rattle.lp_model.specs.Meaning.{no_row, no_column, meaning};
ghost use Rattle.lp_model.specs.Name.{IsName};
ghost use Rattle.lp_model.specs.Names.{Differ, names_of_rows, names_of_columns, WellNamed};
ghost use Rattle.lp_model.specs.Vectors.{vector_of};
ghost use Rattle.lp_model.specs.Senses.{NoWorse};
ghost use Rattle.lp_model.specs.Sparse.{dense, has};
ghost use Rattle.lp_model.specs.Violations.{IsPast, RowsHold, ColumnsHold, FitsColumn, BreaksColumn, Violates, Judged};

use crate::name::Name;
use crate::point::Point;
use crate::program::{ColumnDef, Program, RowDef, Sense};
use crate::terms::Term;
use fractions::Past;
use fractions::ext::Ext;
use fractions::frac::Frac;

/// What of a program a point does not meet.
#[derive(Clone, Copy)]
pub enum Violation {
    /// A row's value is past this side.
    Side {
        row: usize,
        value: Frac,
        limit: Frac,
    },
    /// A column's value is past this bound.
    Bound {
        column: usize,
        value: Frac,
        limit: Frac,
    },
    /// A whole column's value is not whole.
    Broken {
        column: usize,
        value: Frac,
    },
}

/// The number at an id: that of the first term with it, 0 where none has it.
pub fn number_at(terms: &[Term], id: usize) -> Frac
    ensures { result ≡ dense terms.now id }
{
    for term in terms {
        if term.id as usize == id {
            return term.value;
        }
    }
    Frac::zero()
}

/// Whether a term has this id.
pub fn has_id(terms: &[Term], id: u32) -> bool
    ensures { result ≡ has id terms.now }
{
    let mut rest = terms;
    while let [term, after @ ..] = rest {
        if term.id == id {
            return true;
        }
        rest = after;
    }
    false
}

/// A sum with one more product.
///
/// # Errors
/// [`Past`] exactly where the product or the sum has no room.
fn with_product(sum: &Frac, factor: &Frac, number: &Frac) -> Result<Frac, Past>
    ensures value { IfOk result (λ r. r ≡ sum.now +ℚ factor.now *ℚ number.now) }
    ensures fits { IsOk result ↔ (Fits (factor.now *ℚ number.now) × SumFits sum.now (factor.now *ℚ number.now)) }
{
    let product = factor.mul(number)?;
    sum.add(&product)
}

/// The value of a row at a point: the sum over all columns of coefficient times number. [`Past`] exactly where a step of it has no room.
pub fn row_value(program: &Program, row: usize, point: &Point) -> Result<Frac, Past>
    requires { length point.now ≡ length program.now.columns }
    ensures value { IfOk result (λ v. v ≡ value_at (meaning program.now) row (vector_of point.now)) }
    ensures fits { IsOk result ↔ ValueFits (meaning program.now) row (vector_of point.now) }
{
    let columns = program.columns();
    let numbers = point.as_slice();
    let mut sum = Frac::zero();
    for j in 0..columns.len() {
        let coefficient = number_at(columns[j].entries.as_slice(), row);
        sum = with_product(&sum, &coefficient, &numbers[j])?;
    }
    Ok(sum)
}

/// The cost of a point: the sum of costs times numbers, then the constant. [`Past`] exactly where a step of it has no room.
pub fn cost(program: &Program, point: &Point) -> Result<Frac, Past>
    requires { length point.now ≡ length program.now.columns }
    ensures value { IfOk result (λ c. c ≡ cost_at (meaning program.now) (vector_of point.now)) }
    ensures fits { IsOk result ↔ CostFits (meaning program.now) (vector_of point.now) }
{
    let columns = program.columns();
    let numbers = point.as_slice();
    let mut sum = Frac::zero();
    for j in 0..columns.len() {
        sum = with_product(&sum, &columns[j].cost, &numbers[j])?;
    }
    let constant = program.constant();
    sum.add(&constant)
}

/// Whether a cost is no worse than another, in a sense.
pub fn no_worse(sense: Sense, a: &Frac, b: &Frac) -> bool
    ensures { IsTrue result ↔ NoWorse sense a.now b.now }
{
    match sense {
        Sense::Min => a.le(b),
        Sense::Max => b.le(a),
    }
}

/// The lower end, where a value is below it.
fn past_lower(lower: &Ext, value: &Frac) -> Option<Frac>
    ensures { MatchOption result (AtLeast lower.now value.now) (λ e. (lower.now ≡ Some e) × (value.now <ℚ e)) }
{
    match lower.number() {
        Some(end) if !end.le(value) => Some(end),
        _ => None,
    }
}

/// The upper end, where a value is above it.
fn past_upper(upper: &Ext, value: &Frac) -> Option<Frac>
    ensures { MatchOption result (AtMost upper.now value.now) (λ e. (upper.now ≡ Some e) × (e <ℚ value.now)) }
{
    match upper.number() {
        Some(end) if !value.le(&end) => Some(end),
        _ => None,
    }
}

/// The end that a value is past, where it is past one.
fn passed_end(lower: &Ext, upper: &Ext, value: &Frac) -> Option<Frac>
    ensures { MatchOption result (Between lower.now upper.now value.now) (λ e. IsPast lower.now upper.now value.now e) }
{
    match past_lower(lower, value) {
        Some(end) => Some(end),
        None => past_upper(upper, value),
    }
}

/// Whether a number is whole.
fn is_whole(value: &Frac) -> bool
    ensures { IsTrue result ↔ IsWhole value.now }
{
    value.is_whole()
}

/// What the number of a column does not meet.
fn column_violation(column: &ColumnDef, id: usize, value: Frac) -> Option<Violation>
    ensures { MatchOption result (FitsColumn column.now value) (λ found. BreaksColumn column.now id value found) }
{
    if column.semi && value.is_zero() {
        return None;
    }
    match passed_end(&column.lower, &column.upper, &value) {
        Some(limit) => Some(Violation::Bound {
            column: id,
            value,
            limit,
        }),
        None if column.whole && !is_whole(&value) => {
            Some(Violation::Broken { column: id, value })
        }
        None => None,
    }
}

/// The first row, by id, whose value is past a side.
fn violated_row(program: &Program, point: &Point) -> Result<Option<Violation>, Past>
    requires { length point.now ≡ length program.now.columns }
    ensures found { IfOk result (λ v. MatchOption v (RowsHold (meaning program.now) (vector_of point.now)) (λ found. Violates (meaning program.now) (vector_of point.now) found)) }
    ensures fits { ValuesFit (meaning program.now) (vector_of point.now) → IsOk result }
{
    let rows = program.rows();
    for i in 0..rows.len() {
        let value = row_value(program, i, point)?;
        if let Some(limit) = passed_end(&rows[i].lower, &rows[i].upper, &value) {
            return Ok(Some(Violation::Side {
                row: i,
                value,
                limit,
            }));
        }
    }
    Ok(None)
}

/// The first column, by id, whose number is past a bound or is not whole and has to be.
fn violated_column(program: &Program, point: &Point) -> Option<Violation>
    requires { length point.now ≡ length program.now.columns }
    ensures { MatchOption result (ColumnsHold (meaning program.now) (vector_of point.now)) (λ found. Violates (meaning program.now) (vector_of point.now) found) }
{
    let columns = program.columns();
    let numbers = point.as_slice();
    for j in 0..columns.len() {
        if let Some(found) = column_violation(&columns[j], j, numbers[j]) {
            return Some(found);
        }
    }
    None
}

/// What the point does not meet: the first row by id, else the first column by id; none where the point is feasible.
/// [`Past`] only where a row's value has no room.
pub fn first_violation(program: &Program, point: &Point) -> Result<Option<Violation>, Past>
    requires { length point.now ≡ length program.now.columns }
    ensures found { IfOk result (λ v. Judged (meaning program.now) (vector_of point.now) v) }
    ensures fits { ValuesFit (meaning program.now) (vector_of point.now) → IsOk result }
{
    match violated_row(program, point)? {
        Some(found) => Ok(Some(found)),
        None => Ok(violated_column(program, point)),
    }
}

/// Whether the point is feasible. [`Past`] only where a row's value has no room.
pub fn is_feasible(program: &Program, point: &Point) -> Result<bool, Past>
    requires { length point.now ≡ length program.now.columns }
    ensures answer { IfOk result (λ b. IsTrue b ↔ Feasible (meaning program.now) (vector_of point.now)) }
    ensures fits { ValuesFit (meaning program.now) (vector_of point.now) → IsOk result }
{
    Ok(first_violation(program, point)?.is_none())
}

/// Whether the names of the objective and the rows differ, and the names of the columns. It compares each two of them.
pub fn names_differ(objective: &Name, rows: &[RowDef], columns: &[ColumnDef]) -> bool
    ensures { IsTrue result ↔ WellNamed objective.now rows.now columns.now }
{
    let _name = objective.as_bytes();
    rows_are_named(rows);
    columns_are_named(columns);
    row_names_differ(objective, rows) && columns_differ(columns)
}

/// Each row has a name, by its type. Says so, and changes nothing.
fn rows_are_named(rows: &[RowDef])
    ensures { All IsName (names_of_rows rows.now) }
{
    for row in rows {
        let _name = row.name.as_bytes();
    }
}

/// Each column has a name, by its type. Says so, and changes nothing.
fn columns_are_named(columns: &[ColumnDef])
    ensures { All IsName (names_of_columns columns.now) }
{
    for column in columns {
        let _name = column.name.as_bytes();
    }
}

/// Whether the names of the objective and the rows differ.
fn row_names_differ(objective: &Name, rows: &[RowDef]) -> bool
    ensures { IsTrue result ↔ Differ (objective.now ∷ names_of_rows rows.now) }
{
    is_no_row(objective, rows) && rows_differ(rows)
}

/// Whether no row has this name.
fn is_no_row(name: &Name, rows: &[RowDef]) -> bool
    ensures { IsTrue result ↔ ((i : ℕ) → i < length rows.now → name.now ≢ (slice_index_or rows.now i no_row).name) }
{
    for row in rows {
        if same_name(name, &row.name) {
            return false;
        }
    }
    true
}

/// Whether no column has this name.
fn is_no_column(name: &Name, columns: &[ColumnDef]) -> bool
    ensures { IsTrue result ↔ ((j : ℕ) → j < length columns.now → name.now ≢ (slice_index_or columns.now j no_column).name) }
{
    for column in columns {
        if same_name(name, &column.name) {
            return false;
        }
    }
    true
}

fn rows_differ(rows: &[RowDef]) -> bool
    ensures { IsTrue result ↔ Differ (names_of_rows rows.now) }
{
    let mut rest = rows;
    while let Some((first, after)) = rest.split_first() {
        if !is_no_row(&first.name, after) {
            return false;
        }
        rest = after;
    }
    true
}

fn columns_differ(columns: &[ColumnDef]) -> bool
    ensures { IsTrue result ↔ Differ (names_of_columns columns.now) }
{
    let mut rest = columns;
    while let Some((first, after)) = rest.split_first() {
        if !is_no_column(&first.name, after) {
            return false;
        }
        rest = after;
    }
    true
}

fn same_name(a: &Name, b: &Name) -> bool
    ensures { IsTrue result ↔ (a.now ≡ b.now) }
{
    a.as_bytes() == b.as_bytes()
}
