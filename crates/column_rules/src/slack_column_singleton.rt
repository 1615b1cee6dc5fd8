//! K14: a continuous column with one entry leaves as a slack of its row, whose sides its bounds move apart.

ghost use Rattle.std.specs.Prelude.{◌≡◌, ◌↔◌, ◌++◌, ◌∷◌, true, IfOk, IsOk, OnOk};
ghost use Rattle.fractions.specs.Ends.{minus_ends, scaled};
ghost use Rattle.fractions.specs.Lowest.{Fits};
ghost use Rattle.lp_substitutions.specs.SlackColumnSingleton.{equation_offset};
ghost use Rattle.problem_model.specs.Problems.{column_at, row_at};
ghost use Rattle.problem_model.specs.declared.edit.Edit.TheVariants as edit;
ghost use Rattle.rule_words.specs.Answers.{Changes};
ghost use Rattle.column_laws.specs.SlackColumnSingleton.{column_out, edits, enabled, fate_of as fate_by, least_at as least_by, most_at as most_by, record_by, record_of, Computes, SideComputes};
ghost use Rattle.column_rules.specs.SlackColumnSingletons.{AreNumbers, NumbersCompute};
ghost use Rattle.column_rules.specs.SoleEntries.{IsSoleEntry};

use crate::sole_entry::{SoleEntry, costs_less, is_sole_at, sole_entry};
use fractions::Past;
use fractions::ext::Ext;
use fractions::frac::Frac;
use lp_model::ends::{fixed, in_order};
use problem_model::{Bounds, Edit, Refusal, Sides};
use rule_words::Change;
use sparse_problem::Problem;
use std::alloc::{AllocError, Global};
use undo_records::{EndApart, NumberApart, RowFate, SlackColumnSingleton, TermsApart, Undo};

/// Whether nothing is crossed, and a column is continuous, has its one entry in this row, and has no cost if the row is no equation.
pub fn is_enabled(problem: &Problem, column: u32, row: u32) -> bool
    ensures { result ≡ enabled problem.now column row }
{
    if !problem.is_row_live(row) || !problem.is_column_live(column) {
        return false;
    }
    let sides = problem.sides(row);
    let bounds = problem.bounds(column);
    !bounds.semi
        && in_order(&sides.lower, &sides.upper)
        && in_order(&bounds.lower, &bounds.upper)
        && !bounds.whole
        && is_sole_at(problem, column, row)
        && (fixed(&sides.lower, &sides.upper, false) || problem.cost(column).is_zero())
}

/// The bound at which an entry times its column is the most.
fn most_at(value: &Frac, bounds: &Bounds) -> Ext
    ensures { result ≡ most_by value.now bounds.now.lower bounds.now.upper }
{
    if value.is_positive() {
        bounds.upper
    } else {
        bounds.lower
    }
}

/// The bound at which an entry times its column is the least.
fn least_at(value: &Frac, bounds: &Bounds) -> Ext
    ensures { result ≡ least_by value.now bounds.now.lower bounds.now.upper }
{
    if value.is_positive() {
        bounds.lower
    } else {
        bounds.upper
    }
}

/// A side less an entry times a bound. It is finite where both are.
fn moved(side: &Ext, value: &Frac, bound: &Ext) -> Result<Ext, Past>
    ensures value { IfOk result (λ e. e ≡ minus_ends side.now (scaled value.now bound.now)) }
    ensures fits { IsOk result ↔ SideComputes value.now side.now bound.now }
{
    let Some(before) = side.number() else {
        return Ok(Ext::none());
    };
    let Some(end) = bound.number() else {
        return Ok(Ext::none());
    };
    let product = value.mul(&end)?;
    Ok(Ext::at(before.sub(&product)?))
}

/// The price times the side of an equation; 0 where the row is none.
fn gain(price: &Frac, sides: &Sides) -> Result<Frac, Past>
    ensures value { IfOk result (λ g. g ≡ equation_offset price.now sides.now.lower sides.now.upper) }
    ensures fits { IsOk result ↔ Fits (equation_offset price.now sides.now.lower sides.now.upper) }
{
    let Some(lower) = sides.lower.number() else {
        return Ok(Frac::zero());
    };
    let Some(upper) = sides.upper.number() else {
        return Ok(Frac::zero());
    };
    if lower.is_same(&upper) {
        price.mul(&lower)
    } else {
        Ok(Frac::zero())
    }
}

/// What becomes of a row with these sides.
fn fate_of(lower: &Ext, upper: &Ext) -> RowFate
    ensures { result ≡ fate_by lower.now upper.now }
{
    if lower.is_none() && upper.is_none() {
        RowFate::Dropped
    } else {
        RowFate::Kept
    }
}

/// What the offset gains, and the row's new sides.
#[derive(Clone, Copy)]
struct NewNumbers {
    gain: Frac,
    lower: Ext,
    upper: Ext,
}

/// The numbers that the row and the offset get.
fn numbers_of(
    problem: &Problem,
    column: u32,
    row: u32,
    entry: &SoleEntry,
) -> Result<NewNumbers, Past>
    requires row { (row_at problem.now row).live ≡ true }
    requires column { (column_at problem.now column).live ≡ true }
    requires entry { IsSoleEntry problem.now column row entry.now }
    ensures value { IfOk result (AreNumbers problem.now column row) }
    ensures fits { IsOk result ↔ NumbersCompute problem.now column row }
{
    let sides = problem.sides(row);
    let bounds = problem.bounds(column);
    let gain = gain(&entry.price, &sides)?;
    let lower = moved(&sides.lower, &entry.value, &most_at(&entry.value, &bounds))?;
    let upper = moved(&sides.upper, &entry.value, &least_at(&entry.value, &bounds))?;
    Ok(NewNumbers { gain, lower, upper })
}

/// Adds what becomes of the offset, of the row and of the column.
fn take_out(
    edits: &mut Vec<Edit>,
    column: u32,
    row: u32,
    numbers: &NewNumbers,
) -> Result<(), AllocError>
    ensures { OnOk result (edits.new.items ≡ edits.old.items ++ edit.AddOffset numbers.now.gain ∷ column_out column row numbers.now.lower numbers.now.upper) }
{
    edits.push(Edit::AddOffset {
        amount: numbers.gain,
    })?;
    match fate_of(&numbers.lower, &numbers.upper) {
        RowFate::Dropped => {
            edits.push(Edit::DeleteColumn { column })?;
            edits.push(Edit::DeleteRow { row })?;
        }
        RowFate::Kept => {
            edits.push(Edit::SetSides {
                row,
                lower: numbers.lower,
                upper: numbers.upper,
            })?;
            edits.push(Edit::DeleteColumn { column })?;
        }
    }
    Ok(())
}

/// The record, with the sides and the bounds before.
fn record_for(
    alloc: Global,
    problem: &Problem,
    column: u32,
    row: u32,
    entry: SoleEntry,
    fate: RowFate,
) -> Result<Undo, AllocError>
    requires row { (row_at problem.now row).live ≡ true }
    requires column { (column_at problem.now column).live ≡ true }
    requires entry { IsSoleEntry problem.now column row entry }
    ensures { IfOk result (λ u. u ≡ record_by problem.now column row fate) }
{
    let sides = problem.sides(row);
    let bounds = problem.bounds(column);
    Ok(Undo::SlackColumnSingleton(SlackColumnSingleton {
        column,
        row,
        value: NumberApart::new(alloc, entry.value)?,
        price: NumberApart::new(alloc, entry.price)?,
        lower_side: EndApart::new(alloc, sides.lower)?,
        upper_side: EndApart::new(alloc, sides.upper)?,
        lower: EndApart::new(alloc, bounds.lower)?,
        upper: EndApart::new(alloc, bounds.upper)?,
        fate,
        entries: TermsApart::new(alloc, entry.others)?,
    }))
}

/// The change.
///
/// # Errors
/// Past where a new cost, a new side, or a product or quotient on the way is.
#[tactic(auto, using(crate::proofs::SlackColumnSingletons::row_live, crate::proofs::SlackColumnSingletons::column_live, crate::proofs::SlackColumnSingletons::sole_there))]
pub fn change(alloc: Global, problem: &Problem, column: u32, row: u32) -> Result<Change, Refusal>
    requires { enabled problem.now column row ≡ true }
    ensures { Changes (Computes problem.now column row) (edits problem.now column row) (record_of problem.now column row) result }
{
    let entry = sole_entry(alloc, problem, column, row)?;
    let numbers = numbers_of(problem, column, row, &entry)?;
    let mut edits = costs_less(alloc, problem, column, row, &entry)?;
    take_out(&mut edits, column, row, &numbers)?;
    let fate = fate_of(&numbers.lower, &numbers.upper);
    Ok(Change {
        edits,
        undo: record_for(alloc, problem, column, row, entry, fate)?,
    })
}
