//! Rows of numbers, one for each variable.

ghost use Rattle.std.specs.Prelude.{◌≡◌, ◌≢◌, ◌↔◌, ℕ, ◌<◌, [], length, slice_index_or, IfOk, IsOk, OnOk};
ghost use Rattle.fractions.specs.Number.{zero_ℚ, one_ℚ, ◌+ℚ◌, ◌-ℚ◌, ◌*ℚ◌, neg_ℚ};
ghost use Rattle.fractions.specs.FracWords.{SumFits};
ghost use Rattle.fractions.specs.Division.{◌/ℚ◌};
ghost use Rattle.fractions.specs.Lowest.{Fits};
ghost use Rattle.lp_model.specs.Vectors.{vector_of};
ghost use Rattle.tableau_laws.specs.Tableaus.{turned, replacing};
ghost use Rattle.tableau_laws.specs.Room.{GainFits, TurnFits, RowFits, ValuesFit};
ghost use Rattle.tableau_rows.specs.Places.{row_of, TurnedAt, TurnFitsAt, GainedAt, GainFitsAt, MovedAt, MoveFitsAt, Everywhere, FitEverywhere, Turns, Replaces, AllReplace, IsReplaceable, AllReplaceable, Moves, MovesTo};

use fractions::Past;
use fractions::frac::Frac;
use std::marker::Model;

/// A number for each variable, or none: the row of a basic variable, which is the sum of these multiples of the variables.
#[derive(Drop)]
pub struct Row {
    numbers: Vec<Frac>,
}

impl Model for Row {
    ghost use Rattle.std.specs.Prelude.{List};
    ghost use Rattle.std.specs.Coded.{codes};
    ghost use Rattle.fractions.specs.Lowest.{number_code};
    ghost use Rattle.fractions.specs.Number.{Number};

    ghost Value = { List Number };

    ghost coded = { Prim.hlevel (codes, number_code) };

    ghost view = { λ row. row.numbers.items };
}

/// A number that gains a multiple of another.
///
/// # Errors
/// [`Past`] exactly where both factors aren't 0 and the product or the sum has no room.
pub fn gained(number: &Frac, multiple: &Frac, other: &Frac) -> Result<Frac, Past>
    ensures value { IfOk result (λ r. r ≡ number.now +ℚ multiple.now *ℚ other.now) }
    ensures fits { IsOk result ↔ GainFits number.now multiple.now other.now }
{
    if multiple.is_zero() || other.is_zero() {
        return Ok(*number);
    }
    let product = multiple.mul(other)?;
    number.add(&product)
}

/// The number at an id, 0 past the last.
pub fn number_at(row: &[Frac], id: usize) -> Frac
    ensures { result ≡ vector_of row.now id }
{
    if id < row.len() {
        row[id]
    } else {
        Frac::zero()
    }
}

/// The negative of a number over a divisor, if its place is neither `b` nor `e`.
///
/// # Errors
/// [`Past`] exactly where a number of it has no room.
fn turned_at(number: &Frac, divisor: &Frac, b: usize, e: usize, k: usize) -> Result<Frac, Past>
    requires { divisor.now ≢ zero_ℚ }
    ensures value { IfOk result (λ r. TurnedAt b e divisor.now k number.now r) }
    ensures fits { IsOk result ↔ TurnFitsAt b e divisor.now k number.now }
{
    if k == b || k == e {
        return Ok(*number);
    }
    let quotient = number.div(divisor)?;
    Ok(quotient.neg())
}

/// Turns each number but those at `b` and `e`.
///
/// # Errors
/// [`Past`] exactly where a number of it has no room.
fn turn_others(row: &mut [Frac], divisor: &Frac, b: usize, e: usize) -> Result<(), Past>
    requires { divisor.now ≢ zero_ℚ }
    ensures value { OnOk result (Everywhere (TurnedAt b e divisor.now) row.old row.new) }
    ensures fits { IsOk result ↔ FitEverywhere (TurnFitsAt b e divisor.now) row.old }
{
    for k in 0..row.len() {
        row[k] = turned_at(&row[k], divisor, b, e, k)?;
    }
    Ok(())
}

/// A number with a multiple of another row's, if its place is neither `b` nor `e`.
///
/// # Errors
/// [`Past`] exactly where a number of it has no room.
fn gained_at(
    number: &Frac,
    multiple: &Frac,
    line: &[Frac],
    b: usize,
    e: usize,
    k: usize,
) -> Result<Frac, Past>
    ensures value { IfOk result (λ r. GainedAt b e multiple.now (vector_of line.now) k number.now r) }
    ensures fits { IsOk result ↔ GainFitsAt b e multiple.now (vector_of line.now) k number.now }
{
    if k == b || k == e {
        return Ok(*number);
    }
    gained(number, multiple, &number_at(line, k))
}

/// Adds a multiple of a row to each number but those at `b` and `e`.
///
/// # Errors
/// [`Past`] exactly where a number of it has no room.
fn gain_others(
    row: &mut [Frac],
    multiple: &Frac,
    line: &[Frac],
    b: usize,
    e: usize,
) -> Result<(), Past>
    ensures value { OnOk result (Everywhere (GainedAt b e multiple.now (vector_of line.now)) row.old row.new) }
    ensures fits { IsOk result ↔ FitEverywhere (GainFitsAt b e multiple.now (vector_of line.now)) row.old }
{
    for k in 0..row.len() {
        row[k] = gained_at(&row[k], multiple, line, b, e, k)?;
    }
    Ok(())
}

/// Makes the leaving variable's row, that of `b`, the entering one's, that of `e`.
///
/// # Errors
/// [`Past`] exactly where a number of it has no room.
fn turn(row: &mut [Frac], b: usize, e: usize) -> Result<(), Past>
    requires b_within { b < length row.old }
    requires e_within { e < length row.old }
    requires apart { b ≢ e }
    requires not_zero { vector_of row.old e ≢ zero_ℚ }
    ensures value { OnOk result (Turns b e row.old row.new) }
    ensures fits { IsOk result ↔ TurnFits (length row.old) b e (vector_of row.old) }
{
    let divisor = number_at(row, e);
    let inverse = Frac::one().div(&divisor)?;
    turn_others(row, &divisor, b, e)?;
    row[e] = Frac::zero();
    row[b] = inverse;
    Ok(())
}

/// Puts the entering variable's row, `line`, in the place of `e` in a row that has 0 at `b`.
///
/// # Errors
/// [`Past`] exactly where a number of it has no room.
pub fn replace(row: &mut [Frac], line: &[Frac], b: usize, e: usize) -> Result<(), Past>
    requires b_within { b < length line.now }
    requires apart { b ≢ e }
    requires leaving { vector_of row.old b ≡ zero_ℚ }
    requires long { vector_of row.old e ≢ zero_ℚ → length row.old ≡ length line.now }
    ensures value { OnOk result (Replaces b e line.now row.old row.new) }
    ensures fits { IsOk result ↔ RowFits (length line.now) b e (vector_of line.now) (vector_of row.old) }
{
    let multiple = number_at(row, e);
    if multiple.is_zero() {
        return Ok(());
    }
    let leaving = multiple.mul(&number_at(line, b))?;
    gain_others(row, &multiple, line, b, e)?;
    row[e] = Frac::zero();
    row[b] = leaving;
    Ok(())
}

impl Row {
    /// These numbers.
    pub fn new(numbers: Vec<Frac>) -> Row
        ensures { result ≡ numbers.items }
    {
        Row { numbers }
    }

    /// The numbers, by variable.
    pub fn as_slice(&self) -> &[Frac]
        ensures { result.now ≡ self.now }
    {
        self.numbers.as_slice()
    }

    /// The number at an id, 0 past the last.
    pub fn at(&self, id: usize) -> Frac
        ensures { result ≡ vector_of self.now id }
    {
        number_at(self.numbers.as_slice(), id)
    }

    /// Makes the leaving variable's row, that of `b`, the entering one's, that of `e`: solved for `e`.
    ///
    /// # Errors
    /// [`Past`] exactly where a number of it has no room.
    pub fn turn(&mut self, b: usize, e: usize) -> Result<(), Past>
        requires b_within { b < length self.old }
        requires e_within { e < length self.old }
        requires apart { b ≢ e }
        requires not_zero { vector_of self.old e ≢ zero_ℚ }
        ensures value { OnOk result (Turns b e self.old self.new) }
        ensures long { OnOk result (length self.new ≡ length self.old) }
        ensures fits { IsOk result ↔ TurnFits (length self.old) b e (vector_of self.old) }
    {
        turn(self.numbers.as_mut_slice(), b, e)
    }

    /// Puts the entering variable's row, `line`, in the place of `e`.
    ///
    /// # Errors
    /// [`Past`] exactly where a number of it has no room.
    pub fn replace(&mut self, line: &Row, b: usize, e: usize) -> Result<(), Past>
        requires b_within { b < length line.now }
        requires apart { b ≢ e }
        requires row { IsReplaceable (length line.now) b e self.old }
        ensures value { OnOk result (Replaces b e line.now self.old self.new) }
        ensures long { OnOk result (length self.new ≡ length self.old) }
        ensures fits { IsOk result ↔ RowFits (length line.now) b e (vector_of line.now) (vector_of self.old) }
    {
        replace(self.numbers.as_mut_slice(), line.numbers.as_slice(), b, e)
    }
}

/// Puts the entering variable's row, `line`, in the place of `e` in each row.
///
/// # Errors
/// [`Past`] exactly where a number of it has no room.
pub fn replace_rows(rows: &mut Vec<Row>, line: &Row, b: usize, e: usize) -> Result<(), Past>
    requires b_within { b < length line.now }
    requires apart { b ≢ e }
    requires rows { AllReplaceable (length line.now) b e rows.old.items }
    ensures value { OnOk result (AllReplace b e line.now rows.old.items rows.new.items) }
    ensures long { OnOk result (length rows.new.items ≡ length rows.old.items) }
    ensures fits { IsOk result ↔ ((m : ℕ) → m < length rows.old.items → RowFits (length line.now) b e (vector_of line.now) (row_of rows.old.items m)) }
{
    for row in rows.iter_mut() {
        row.replace(line, b, e)?;
    }
    Ok(())
}

/// A value where `w` is gained, if its variable isn't `b`.
///
/// # Errors
/// [`Past`] exactly where a number of it has no room.
fn moved_at(
    value: &Frac,
    rows: &[Row],
    w: &Frac,
    b: usize,
    e: usize,
    m: usize,
) -> Result<Frac, Past>
    requires { m < length rows.now }
    ensures value { IfOk result (λ r. MovedAt b e (row_of rows.now) w.now m value.now r) }
    ensures fits { IsOk result ↔ MoveFitsAt b e (row_of rows.now) w.now m value.now }
{
    if m == b {
        return Ok(*value);
    }
    gained(value, &rows[m].at(e), w)
}

/// Moves each value but that of `b` where `e` gains `w`.
///
/// # Errors
/// [`Past`] exactly where a number of it has no room.
pub fn move_others(
    values: &mut [Frac],
    rows: &[Row],
    w: &Frac,
    b: usize,
    e: usize,
) -> Result<(), Past>
    requires { length rows.now ≡ length values.old }
    ensures value { OnOk result (Everywhere (MovedAt b e (row_of rows.now) w.now) values.old values.new) }
    ensures fits { IsOk result ↔ FitEverywhere (MoveFitsAt b e (row_of rows.now) w.now) values.old }
{
    for m in 0..values.len() {
        values[m] = moved_at(&values[m], rows, w, b, e, m)?;
    }
    Ok(())
}

/// What `e` gains where `b` goes to a bound: the way of `b` over the multiple of `e` in its row.
///
/// # Errors
/// [`Past`] exactly where a number of it has no room.
pub fn gain_of(values: &[Frac], row: &Row, bound: &Frac, b: usize, e: usize) -> Result<Frac, Past>
    requires within { b < length values.now }
    requires not_zero { vector_of row.now e ≢ zero_ℚ }
    ensures value { IfOk result (λ w. w ≡ (bound.now -ℚ vector_of values.now b) /ℚ vector_of row.now e) }
    ensures fits { IsOk result ↔ (SumFits bound.now (neg_ℚ (vector_of values.now b)) × Fits ((bound.now -ℚ vector_of values.now b) /ℚ vector_of row.now e)) }
{
    let divisor = row.at(e);
    let way = bound.sub(&number_at(values, b))?;
    way.div(&divisor)
}

/// Moves all values where `e` gains `w`: each basic one gains the multiple of `e` in its row times `w`.
///
/// # Errors
/// [`Past`] exactly where a number of it has no room.
pub fn move_all(values: &mut [Frac], rows: &[Row], w: &Frac, e: usize) -> Result<(), Past>
    requires long { length rows.now ≡ length values.old }
    requires within { e < length values.old }
    ensures value { OnOk result (Moves e (row_of rows.now) w.now values.old values.new) }
    ensures fits { IsOk result ↔ (SumFits (vector_of values.old e) w.now × ValuesFit (length values.old) e e (row_of rows.now) (vector_of values.old) w.now) }
{
    let entering = number_at(values, e).add(w)?;
    move_others(values, rows, w, e, e)?;
    values[e] = entering;
    Ok(())
}

/// Moves all values where `e` gains `w`, and `b` goes to a bound.
///
/// # Errors
/// [`Past`] exactly where a number of it has no room.
pub fn move_to(
    values: &mut [Frac],
    rows: &[Row],
    w: &Frac,
    bound: &Frac,
    b: usize,
    e: usize,
) -> Result<(), Past>
    requires long { length rows.now ≡ length values.old }
    requires b_within { b < length values.old }
    requires e_within { e < length values.old }
    requires apart { b ≢ e }
    ensures value { OnOk result (MovesTo b e (row_of rows.now) w.now bound.now values.old values.new) }
    ensures fits { IsOk result ↔ (SumFits (vector_of values.old e) w.now × ValuesFit (length values.old) b e (row_of rows.now) (vector_of values.old) w.now) }
{
    let entering = number_at(values, e).add(w)?;
    move_others(values, rows, w, b, e)?;
    values[e] = entering;
    values[b] = *bound;
    Ok(())
}
