//! The undoing of one record.

ghost use Rattle.std.specs.Prelude.{◌≡◌, ◌<◌, length, IfOk, IfErr, IsOk, OnOk};
ghost use Rattle.lp_model.specs.Vectors.{vector_of};
ghost use Rattle.undo_records.specs.DoubletonEquation as doubleton_equation;
ghost use Rattle.undo_records.specs.FreeColumnSingleton as free_column_singleton;
ghost use Rattle.undo_records.specs.SlackColumnSingleton as slack_column_singleton;
ghost use Rattle.undo_records.specs.ParallelColumns as parallel_columns;
ghost use Rattle.undo_records.specs.Fitting.{LessFits, ShareFits};
ghost use Rattle.undo_records.specs.Lift.{undone};
ghost use Rattle.undo_records.specs.Room.{UndoFits};
ghost use Rattle.undo_records.specs.Sound.{CanUndo};

use crate::ends::{Range, share, slack};
use crate::sums::{difference_over, less_product, sum_of_terms};
use exact_numbers::{Exact, Numbers};
use std::alloc::Global;
use undo_records::{
    DoubletonEquation, FreeColumnSingleton, ParallelColumns, SlackColumnSingleton, Undo,
};

/// The number that solves a row of two columns for the one that was deleted.
fn solved<T: Exact>(
    alloc: Global,
    undo: &DoubletonEquation,
    point: &Numbers<T>,
) -> Result<T, T::Refusal>
    requires { doubleton_equation.CanUndo (length point.now) undo.now }
    ensures value { IfOk result (λ r. T.number r ≡ doubleton_equation.solved undo.now (vector_of point.now)) }
    ensures fits { IsOk result → doubleton_equation.UndoFits T.room undo.now (vector_of point.now) }
    ensures past { IfErr result (λ why. T.is_past why → doubleton_equation.UndoFits T.room undo.now (vector_of point.now) → ⊥) }
{
    let equal = T::of(&undo.equal.get());
    let rest = less_product(alloc, &equal, &undo.kept_value.get(), point.at(undo.kept))?;
    rest.over(alloc, &undo.value.get())
}

/// K12: solves the row for the deleted column.
fn undo_doubleton_equation<T: Exact>(
    alloc: Global,
    undo: &DoubletonEquation,
    point: &mut Numbers<T>,
) -> Result<(), T::Refusal>
    requires { doubleton_equation.CanUndo (length point.old) undo.now }
    ensures size { length point.new ≡ length point.old }
    ensures lifted { OnOk result (vector_of point.new ≡ doubleton_equation.undone undo.now (vector_of point.old)) }
    ensures fits { IsOk result → doubleton_equation.UndoFits T.room undo.now (vector_of point.old) }
    ensures past { IfErr result (λ why. T.is_past why → doubleton_equation.UndoFits T.room undo.now (vector_of point.old) → ⊥) }
{
    let number = solved(alloc, undo, point)?;
    point.set(undo.column, number);
    Ok(())
}

/// The number with which a row stands at a side.
fn at_side<T: Exact>(
    alloc: Global,
    undo: &FreeColumnSingleton,
    point: &Numbers<T>,
) -> Result<T, T::Refusal>
    requires { free_column_singleton.CanUndo (length point.now) undo.now }
    ensures value { IfOk result (λ r. T.number r ≡ free_column_singleton.at_side undo.now (vector_of point.now)) }
    ensures fits { IsOk result → free_column_singleton.UndoFits T.room undo.now (vector_of point.now) }
    ensures past { IfErr result (λ why. T.is_past why → free_column_singleton.UndoFits T.room undo.now (vector_of point.now) → ⊥) }
{
    let rest = sum_of_terms(alloc, undo.entries.as_slice(), point)?;
    difference_over(alloc, &undo.at.get(), &rest, &undo.value.get())
}

/// K13: puts the row at its side.
fn undo_free_column_singleton<T: Exact>(
    alloc: Global,
    undo: &FreeColumnSingleton,
    point: &mut Numbers<T>,
) -> Result<(), T::Refusal>
    requires { free_column_singleton.CanUndo (length point.old) undo.now }
    ensures size { length point.new ≡ length point.old }
    ensures lifted { OnOk result (vector_of point.new ≡ free_column_singleton.undone undo.now (vector_of point.old)) }
    ensures fits { IsOk result → free_column_singleton.UndoFits T.room undo.now (vector_of point.old) }
    ensures past { IfErr result (λ why. T.is_past why → free_column_singleton.UndoFits T.room undo.now (vector_of point.old) → ⊥) }
{
    let number = at_side(alloc, undo, point)?;
    point.set(undo.column, number);
    Ok(())
}

/// The number of a slack column with which its row is within its sides.
fn within_sides<T: Exact>(
    alloc: Global,
    undo: &SlackColumnSingleton,
    point: &Numbers<T>,
) -> Result<T, T::Refusal>
    requires { slack_column_singleton.CanUndo (length point.now) undo.now }
    ensures value { IfOk result (λ r. T.number r ≡ slack_column_singleton.within_sides undo.now (vector_of point.now)) }
    ensures fits { IsOk result → slack_column_singleton.UndoFits T.room undo.now (vector_of point.now) }
    ensures past { IfErr result (λ why. T.is_past why → slack_column_singleton.UndoFits T.room undo.now (vector_of point.now) → ⊥) }
{
    let sides = Range::between(&undo.lower_side.get(), &undo.upper_side.get());
    let bounds = Range::between(&undo.lower.get(), &undo.upper.get());
    let rest = sum_of_terms(alloc, undo.entries.as_slice(), point)?;
    slack(alloc, &undo.value.get(), sides, &rest, bounds)
}

/// K14: brings the row within its sides.
fn undo_slack_column_singleton<T: Exact>(
    alloc: Global,
    undo: &SlackColumnSingleton,
    point: &mut Numbers<T>,
) -> Result<(), T::Refusal>
    requires { slack_column_singleton.CanUndo (length point.old) undo.now }
    ensures size { length point.new ≡ length point.old }
    ensures lifted { OnOk result (vector_of point.new ≡ slack_column_singleton.undone undo.now (vector_of point.old)) }
    ensures fits { IsOk result → slack_column_singleton.UndoFits T.room undo.now (vector_of point.old) }
    ensures past { IfErr result (λ why. T.is_past why → slack_column_singleton.UndoFits T.room undo.now (vector_of point.old) → ⊥) }
{
    let number = within_sides(alloc, undo, point)?;
    point.set(undo.column, number);
    Ok(())
}

/// The number of a column that was merged into another, with which both are within their bounds.
fn share_of<T: Exact>(
    alloc: Global,
    undo: &ParallelColumns,
    point: &Numbers<T>,
) -> Result<T, T::Refusal>
    requires { parallel_columns.CanUndo (length point.now) undo.now }
    ensures value { IfOk result (λ r. T.number r ≡ parallel_columns.share undo.now (vector_of point.now)) }
    ensures fits { IsOk result → ShareFits T.room undo.now.factor undo.now.kept_lower undo.now.kept_upper (vector_of point.now undo.now.kept) }
    ensures past { IfErr result (λ why. T.is_past why → ShareFits T.room undo.now.factor undo.now.kept_lower undo.now.kept_upper (vector_of point.now undo.now.kept) → ⊥) }
{
    let bounds = Range::between(&undo.lower.get(), &undo.upper.get());
    let kept_bounds = Range::between(&undo.kept_lower.get(), &undo.kept_upper.get());
    share(
        alloc,
        &undo.factor.get(),
        point.at(undo.kept),
        kept_bounds,
        bounds,
    )
}

/// Takes a column's number, times the factor, out of the column that it was merged into.
fn take_out<T: Exact>(
    alloc: Global,
    undo: &ParallelColumns,
    point: &mut Numbers<T>,
    number: T,
) -> Result<(), T::Refusal>
    requires { parallel_columns.CanUndo (length point.old) undo.now }
    ensures size { length point.new ≡ length point.old }
    ensures lifted { OnOk result (vector_of point.new ≡ parallel_columns.part (vector_of point.old) undo.now.column undo.now.kept undo.now.factor (T.number number)) }
    ensures fits { IsOk result → LessFits T.room (vector_of point.old undo.now.kept) undo.now.factor (T.number number) }
    ensures past { IfErr result (λ why. T.is_past why → LessFits T.room (vector_of point.old undo.now.kept) undo.now.factor (T.number number) → ⊥) }
{
    let left = less_product(alloc, point.at(undo.kept), &undo.factor.get(), &number)?;
    point.set(undo.column, number);
    point.set(undo.kept, left);
    Ok(())
}

/// K16: shares the merged number between the two columns.
fn undo_parallel_columns<T: Exact>(
    alloc: Global,
    undo: &ParallelColumns,
    point: &mut Numbers<T>,
) -> Result<(), T::Refusal>
    requires { parallel_columns.CanUndo (length point.old) undo.now }
    ensures size { length point.new ≡ length point.old }
    ensures lifted { OnOk result (vector_of point.new ≡ parallel_columns.undone undo.now (vector_of point.old)) }
    ensures fits { IsOk result → parallel_columns.UndoFits T.room undo.now (vector_of point.old) }
    ensures past { IfErr result (λ why. T.is_past why → parallel_columns.UndoFits T.room undo.now (vector_of point.old) → ⊥) }
{
    let number = share_of(alloc, undo, point)?;
    take_out(alloc, undo, point, number)
}

/// Undoes one record. After an error the point is spent.
///
/// # Errors
/// Where a number that the undoing computes has no room, or there is no memory for it.
pub fn undo_one<T: Exact>(
    alloc: Global,
    undo: &Undo,
    point: &mut Numbers<T>,
) -> Result<(), T::Refusal>
    requires { CanUndo (length point.old) undo.now }
    ensures size { length point.new ≡ length point.old }
    ensures lifted { OnOk result (vector_of point.new ≡ undone undo.now (vector_of point.old)) }
    ensures fits { IsOk result → UndoFits T.room undo.now (vector_of point.old) }
    ensures past { IfErr result (λ why. T.is_past why → UndoFits T.room undo.now (vector_of point.old) → ⊥) }
{
    match undo {
        Undo::FixedColumn(fixed) => {
            point.set(fixed.column, T::of(&fixed.value.get()));
            Ok(())
        }
        Undo::DoubletonEquation(doubleton_equation) => undo_doubleton_equation(
            alloc,
            doubleton_equation,
            point,
        ),
        Undo::FreeColumnSingleton(singleton) => undo_free_column_singleton(alloc, singleton, point),
        Undo::SlackColumnSingleton(singleton) => undo_slack_column_singleton(
            alloc, singleton, point,
        ),
        Undo::ParallelColumns(columns) => undo_parallel_columns(alloc, columns, point),
        _ => Ok(()),
    }
}
