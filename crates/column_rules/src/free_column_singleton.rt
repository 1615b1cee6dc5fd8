//! K13: a continuous column with one entry, whose bounds its row implies at the side where it is cheapest, leaves with the row.

ghost use Rattle.std.specs.Prelude.{◌≡◌, ◌≢◌, ℕ, ◌++◌, ◌∷◌, [], None, Some, true, false, IfOk, IsTrue, OnOk};
ghost use Rattle.fractions.specs.Number.{Number, zero_ℚ};
ghost use Rattle.fractions.specs.Compare.{lt_ℚ};
ghost use Rattle.fractions.specs.Ends.{same_end};
ghost use Rattle.lp_substitutions.specs.FreeColumnSingleton.{cheapest_side as cheapest_by};
ghost use Rattle.problem_model.specs.Parts.{contents_of};
ghost use Rattle.problem_model.specs.Problems.{column_at, column_entries, cost_at, row_at, sides_at};
ghost use Rattle.problem_model.specs.declared.edit.Edit.TheVariants as edit;
ghost use Rattle.problem_model.specs.declared.part.Part.TheVariants as part;
ghost use Rattle.undo_records.specs.declared.side.Side.TheVariants as side_of_bound;
ghost use Rattle.undo_records.specs.declared.undo.Undo.TheVariants as undone;
ghost use Rattle.rule_words.specs.Answers.{Changes};
ghost use Rattle.row_spans.specs.Spans.{span_of, spans_of};
ghost use Rattle.activities.specs.Rows.{source_of};
ghost use Rattle.activity_laws.specs.Rows.{keeps_lower as lower_is_kept, keeps_upper as upper_is_kept};
ghost use Rattle.activity_laws.specs.BoundTightening.{entry_at, implied as implied_by};
ghost use Rattle.column_laws.specs.SoleEntry.{entry_of, is_sole_at as is_sole_there};
ghost use Rattle.column_laws.specs.FreeColumnSingleton.{edits, enabled, is_free as is_free_by, is_free_column_singleton as is_free_column_singleton_by, is_implied as is_implied_by, record_of, side_for as side_by, value_of as value_by, Computes};

use crate::sole_entry::{SoleEntry, costs_less, is_sole_at, sole_entry, value_at};
use activities::row_bounds::{left_over, source};
use activities::rows::{is_uncrossed, keeps_lower, keeps_upper};
use activities::{is_each_rest_infinite, rest_of};
use fractions::ext::Ext;
use fractions::frac::Frac;
use problem_model::{Edit, Refusal, Sides};
use row_spans::Extreme;
use row_spans::exact::quotient;
use rule_words::Change;
use sparse_problem::Problem;
use std::alloc::{AllocError, Global};
use undo_records::{FreeColumnSingleton, NumberApart, Side, Undo};

/// Whether both sides are the same.
fn are_same(sides: &Sides) -> bool
    ensures { result ≡ same_end sides.now.lower sides.now.upper }
{
    match sides.lower.number() {
        None => sides.upper.is_none(),
        Some(lower) => match sides.upper.number() {
            None => false,
            Some(upper) => lower.is_same(&upper),
        },
    }
}

/// The side at which a row is cheapest at a price.
fn cheapest_side(price: &Frac, sides: &Sides) -> Ext
    ensures { result ≡ cheapest_by price.now sides.now.lower sides.now.upper }
{
    if are_same(sides) {
        return sides.lower;
    }
    if price.is_positive() {
        return sides.lower;
    }
    if price.is_negative() {
        return sides.upper;
    }
    Ext::none()
}

/// The cheapest side for a cost over an entry; none where that has no room.
fn side_for(cost: &Frac, value: &Frac, sides: &Sides) -> Ext
    requires { value.now ≢ zero_ℚ }
    ensures { result ≡ side_by cost.now value.now sides.now.lower sides.now.upper }
{
    match quotient(cost, value) {
        Ok(price) => cheapest_side(&price, sides),
        Err(_) => Ext::none(),
    }
}

/// The side of a row that is the cheapest for its column.
fn side_of(problem: &Problem, column: u32, row: u32) -> Ext
    requires row { (row_at problem.now row).live ≡ true }
    requires column { (column_at problem.now column).live ≡ true }
    requires sole { is_sole_there row (column_entries problem.now column) ≡ true }
    ensures { result ≡ side_by (cost_at problem.now column) (entry_of problem.now column row) (sides_at problem.now row).lower (sides_at problem.now row).upper }
{
    let entry = value_at(problem, column, row);
    side_for(&problem.cost(column), &entry, &problem.sides(row))
}

/// The bound of a column with this entry that its row implies where the row's value is this.
fn implied_at(
    problem: &Problem,
    column: u32,
    row: u32,
    side: Side,
    entry: &Frac,
    value: &Frac,
) -> Ext
    requires row { (row_at problem.now row).live ≡ true }
    requires some { entry.now ≢ zero_ℚ }
    ensures { result ≡ implied_by side column entry.now (Some value.now) (Some value.now) (spans_of problem.now row) }
{
    let sides = Sides {
        lower: Ext::at(*value),
        upper: Ext::at(*value),
        changes: 0,
    };
    let (extreme, end) = source(side, entry, &sides);
    left_over(entry, &end, rest_of(problem, row, column, extreme))
}

/// Whether a lower bound of a column with this entry is implied where the value of its row is this. An infinite one is in any case.
fn implies_lower(
    problem: &Problem,
    column: u32,
    row: u32,
    entry: &Frac,
    value: &Frac,
    lower: &Ext,
) -> bool
    requires row { (row_at problem.now row).live ≡ true }
    requires some { entry.now ≢ zero_ℚ }
    ensures { result ≡ lower_is_kept lower.now (implied_by side_of_bound.Lower column entry.now (Some value.now) (Some value.now) (spans_of problem.now row)) }
{
    match lower.number() {
        None => true,
        Some(_) => {
            let implied = implied_at(problem, column, row, Side::Lower, entry, value);
            keeps_lower(lower, &implied)
        }
    }
}

/// The same of an upper bound.
fn implies_upper(
    problem: &Problem,
    column: u32,
    row: u32,
    entry: &Frac,
    value: &Frac,
    upper: &Ext,
) -> bool
    requires row { (row_at problem.now row).live ≡ true }
    requires some { entry.now ≢ zero_ℚ }
    ensures { result ≡ upper_is_kept upper.now (implied_by side_of_bound.Upper column entry.now (Some value.now) (Some value.now) (spans_of problem.now row)) }
{
    match upper.number() {
        None => true,
        Some(_) => {
            let implied = implied_at(problem, column, row, Side::Upper, entry, value);
            keeps_upper(upper, &implied)
        }
    }
}

/// Whether the bounds of a column are implied where the value of its row is this.
fn is_implied(problem: &Problem, column: u32, row: u32, value: &Frac) -> bool
    requires row { (row_at problem.now row).live ≡ true }
    requires column { (column_at problem.now column).live ≡ true }
    requires sole { is_sole_there row (column_entries problem.now column) ≡ true }
    ensures { result ≡ is_implied_by column (spans_of problem.now row) (span_of problem.now (record { id = column; value = entry_of problem.now column row })) value.now }
{
    let bounds = problem.bounds(column);
    let entry = value_at(problem, column, row);
    implies_lower(problem, column, row, &entry, value, &bounds.reach_lower())
        && implies_upper(problem, column, row, &entry, value, &bounds.reach_upper())
}

/// The rest from which a bound of a column with this entry follows.
fn rest_for(side: Side, entry: &Frac) -> Extreme
    ensures { result ≡ source_of side (lt_ℚ zero_ℚ entry.now) }
{
    let is_lower = match side {
        Side::Lower => entry.is_positive(),
        Side::Upper => !entry.is_positive(),
    };
    if is_lower {
        Extreme::Greatest
    } else {
        Extreme::Least
    }
}

/// Whether a finite bound of a column with this entry is implied by no value of its row, because each rest is infinite from which it would
/// follow. `false` where that is not told.
fn is_never_implied(problem: &Problem, row: u32, side: Side, entry: &Frac, bound: &Ext) -> bool
    ensures some { IsTrue result → bound.now ≢ None }
    ensures none { IsTrue result → (j : ℕ) (value : Number) → implied_by side j entry.now (Some value) (Some value) (spans_of problem.now row) ≡ None }
{
    !bound.is_none() && is_each_rest_infinite(problem, row, rest_for(side, entry))
}

/// Whether the bounds of a column are implied by no value of its row, as far as infinite rests tell.
fn is_never_free(problem: &Problem, column: u32, row: u32) -> bool
    requires row { (row_at problem.now row).live ≡ true }
    requires column { (column_at problem.now column).live ≡ true }
    requires sole { is_sole_there row (column_entries problem.now column) ≡ true }
    ensures { IsTrue result → (value : Number) → is_implied_by column (spans_of problem.now row) (span_of problem.now (record { id = column; value = entry_of problem.now column row })) value ≡ false }
{
    let bounds = problem.bounds(column);
    let entry = value_at(problem, column, row);
    is_never_implied(problem, row, Side::Lower, &entry, &bounds.reach_lower())
        || is_never_implied(problem, row, Side::Upper, &entry, &bounds.reach_upper())
}

/// Whether a column is continuous and not semi-continuous, and its bounds are implied at the cheapest side. Infinite rests are looked at before
/// a number is computed.
#[tactic(auto, using(crate::proofs::FreeColumnSingletons::entry_there))]
fn is_free(problem: &Problem, column: u32, row: u32) -> bool
    requires row { (row_at problem.now row).live ≡ true }
    requires column { (column_at problem.now column).live ≡ true }
    requires sole { is_sole_there row (column_entries problem.now column) ≡ true }
    ensures { result ≡ is_free_by column (cost_at problem.now column) (sides_at problem.now row).lower (sides_at problem.now row).upper (spans_of problem.now row) (entry_at column (spans_of problem.now row)) }
{
    problem.is_sparse();
    let bounds = problem.bounds(column);
    if bounds.whole || bounds.semi {
        return false;
    }
    if is_never_free(problem, column, row) {
        return false;
    }
    match side_of(problem, column, row).number() {
        None => false,
        Some(value) => is_implied(problem, column, row, &value),
    }
}

/// Whether a column is live, has its one entry in this row, and is continuous with bounds that are implied.
fn is_free_column_singleton(problem: &Problem, column: u32, row: u32) -> bool
    requires { (row_at problem.now row).live ≡ true }
    ensures { result ≡ is_free_column_singleton_by column row (contents_of problem.now (part.Col column)) (sides_at problem.now row).lower (sides_at problem.now row).upper (spans_of problem.now row) }
{
    problem.is_column_live(column)
        && is_sole_at(problem, column, row)
        && is_free(problem, column, row)
}

/// Whether nothing of a row is crossed, and a column is continuous, has its one entry there, and bounds that the row implies at the side
/// that is the cheapest for it.
#[tactic(auto, using(crate::proofs::FreeColumnSingletons::enabled_is))]
pub fn is_enabled(problem: &Problem, column: u32, row: u32) -> bool
    ensures { result ≡ enabled problem.now column row }
{
    is_uncrossed(problem, row) && is_free_column_singleton(problem, column, row)
}

/// The value at which the row stands.
fn value_of(problem: &Problem, column: u32, row: u32) -> Frac
    requires row { (row_at problem.now row).live ≡ true }
    requires column { (column_at problem.now column).live ≡ true }
    requires sole { is_sole_there row (column_entries problem.now column) ≡ true }
    ensures { result ≡ value_by problem.now column row }
{
    match side_of(problem, column, row).number() {
        None => Frac::zero(),
        Some(value) => value,
    }
}

/// Adds what becomes of the offset, of the column and of the row.
fn take_out(edits: &mut Vec<Edit>, column: u32, row: u32, gain: Frac) -> Result<(), AllocError>
    ensures { OnOk result (edits.new.items ≡ edits.old.items ++ edit.AddOffset gain ∷ edit.DeleteColumn column ∷ edit.DeleteRow row ∷ []) }
{
    edits.push(Edit::AddOffset { amount: gain })?;
    edits.push(Edit::DeleteColumn { column })?;
    edits.push(Edit::DeleteRow { row })?;
    Ok(())
}

/// The record of a column that left with its row.
fn record_for(
    alloc: Global,
    column: u32,
    row: u32,
    entry: SoleEntry,
    value: Frac,
) -> Result<Undo, AllocError>
    ensures { IfOk result (λ u. u ≡ undone.FreeColumnSingleton (record { column = column; row = row; value = entry.value; at = value; price = entry.price; entries = entry.others })) }
{
    Ok(Undo::FreeColumnSingleton(FreeColumnSingleton {
        column,
        row,
        value: NumberApart::new(alloc, entry.value)?,
        at: NumberApart::new(alloc, value)?,
        price: NumberApart::new(alloc, entry.price)?,
        entries: entry.others,
    }))
}

/// The change.
///
/// # Errors
/// Past where a new cost, what the offset gains, or a product or quotient on the way is.
#[tactic(auto, using(crate::proofs::FreeColumnSingletons::row_live, crate::proofs::FreeColumnSingletons::column_live, crate::proofs::FreeColumnSingletons::sole_there))]
pub fn change(alloc: Global, problem: &Problem, column: u32, row: u32) -> Result<Change, Refusal>
    requires { enabled problem.now column row ≡ true }
    ensures { Changes (Computes problem.now column row) (edits problem.now column row) (record_of problem.now column row) result }
{
    let entry = sole_entry(alloc, problem, column, row)?;
    let value = value_of(problem, column, row);
    let gain = entry.price.mul(&value)?;
    let mut edits = costs_less(alloc, problem, column, row, &entry)?;
    take_out(&mut edits, column, row, gain)?;
    Ok(Change {
        edits,
        undo: record_for(alloc, column, row, entry, value)?,
    })
}
