//! The undoing of an equation of two columns.

ghost use Rattle.std.specs.Prelude.{◌≡◌, ◌≢◌, ℕ, ◌<◌, length, IfOk, IfErr, IsOk, OnOk};
ghost use Rattle.fractions.specs.Number.{zero_ℚ};
ghost use Rattle.lp_model.specs.Vectors.{vector_of};
ghost use Rattle.undo_records.specs.Fitting.{LessFits};
ghost use Rattle.undo_records.specs.Sound.{IsSound};
ghost use Rattle.undo_records.specs.declared.undo.Undo.TheVariants as kind;
ghost use Rattle.undo_pairs.specs.Numbers.{IsSized, priced_of};
ghost use Rattle.undo_pairs.specs.LiftPair.{duals_undone, equation_dual as equation_dual_of, joint_cost as joint_cost_of, undo_equation as equation_of, with_equation};
ghost use Rattle.postsolve_dual.specs.PairRoom.{DualsFit, EquationFits, JointFits};

use crate::numbers::is_from_row;
use crate::pair::PairBuf;
use crate::terms::cost_left;
use exact_numbers::Exact;
use postsolve_primal::{Range, less_product};
use std::alloc::Global;
use undo_records::DoubletonEquation;

/// What is left of the kept column's reduced cost where the row has the dual 0.
///
/// # Errors
/// Where the quotient, the product or the sum has no room, or there is no memory for it.
fn joint_cost<T: Exact>(
    alloc: Global,
    equation: &DoubletonEquation,
    left: &T,
    reduced_cost: &T,
) -> Result<T, T::Refusal>
    requires { equation.now.value ≢ zero_ℚ }
    ensures value { IfOk result (λ r. T.number r ≡ joint_cost_of equation.now.value equation.now.kept_value (T.number left.now) (T.number reduced_cost.now)) }
    ensures fits { IsOk result → JointFits T.room equation.now.value equation.now.kept_value (T.number left.now) (T.number reduced_cost.now) }
    ensures past { IfErr result (λ why. T.is_past why → JointFits T.room equation.now.value equation.now.kept_value (T.number left.now) (T.number reduced_cost.now) → ⊥) }
{
    let product = left.scaled_by_quotient(
        alloc,
        &equation.kept_value.get(),
        &equation.value.get(),
    )?;
    reduced_cost.plus(alloc, &product)
}

/// The dual of the row: from the kept column where that holds its reduced cost at an end that it had of the deleted one, else from
/// the deleted one.
///
/// # Errors
/// Where the quotient has no room, or there is no memory for it.
fn equation_dual<T: Exact>(
    alloc: Global,
    equation: &DoubletonEquation,
    value: &T,
    reduced_cost: &T,
    left: &T,
    joint: &T,
) -> Result<T, T::Refusal>
    requires value { equation.now.value ≢ zero_ℚ }
    requires kept { equation.now.kept_value ≢ zero_ℚ }
    requires joint { T.number joint.now ≡ joint_cost_of equation.now.value equation.now.kept_value (T.number left.now) (T.number reduced_cost.now) }
    ensures value { IfOk result (λ r. T.number r ≡ equation_dual_of equation.now.value equation.now.kept_value equation.now.lower equation.now.upper (T.number value.now) (T.number reduced_cost.now) (T.number left.now)) }
    ensures fits { IsOk result → T.room.number (equation_dual_of equation.now.value equation.now.kept_value equation.now.lower equation.now.upper (T.number value.now) (T.number reduced_cost.now) (T.number left.now)) }
    ensures past { IfErr result (λ why. T.is_past why → T.room.number (equation_dual_of equation.now.value equation.now.kept_value equation.now.lower equation.now.upper (T.number value.now) (T.number reduced_cost.now) (T.number left.now)) → ⊥) }
{
    let bounds = Range::between(&equation.lower.get(), &equation.upper.get());
    if is_from_row(bounds, value, reduced_cost) {
        joint.over(alloc, &equation.kept_value.get())
    } else {
        left.over(alloc, &equation.value.get())
    }
}

/// Gives the row its dual, and both columns what it leaves of their costs.
///
/// # Errors
/// Where a product or a difference has no room, or there is no memory for it.
fn set_equation<T: Exact>(
    alloc: Global,
    pair: &mut PairBuf<T>,
    equation: &DoubletonEquation,
    left: &T,
    joint: &T,
    dual: T,
) -> Result<(), T::Refusal>
    requires row { equation.now.row < length pair.old.duals }
    requires column { equation.now.column < length pair.old.reduced_costs }
    requires kept { equation.now.kept < length pair.old.reduced_costs }
    requires joint { T.number joint.now ≡ joint_cost_of equation.now.value equation.now.kept_value (T.number left.now) (vector_of pair.old.reduced_costs equation.now.kept) }
    ensures sized { (m n : ℕ) → IsSized m n pair.old → IsSized m n pair.new }
    ensures lifted { OnOk result (priced_of pair.new ≡ with_equation equation.now.row equation.now.column equation.now.kept equation.now.value equation.now.kept_value (T.number left.now) (T.number dual) (priced_of pair.old)) }
    ensures fits { IsOk result → (LessFits T.room (T.number left.now) equation.now.value (T.number dual) × LessFits T.room (T.number joint.now) equation.now.kept_value (T.number dual)) }
    ensures past { IfErr result (λ why. T.is_past why → (LessFits T.room (T.number left.now) equation.now.value (T.number dual) × LessFits T.room (T.number joint.now) equation.now.kept_value (T.number dual)) → ⊥) }
{
    let own = less_product(alloc, left, &equation.value.get(), &dual)?;
    let others = less_product(alloc, joint, &equation.kept_value.get(), &dual)?;
    pair.set_dual(equation.row, dual);
    pair.set_reduced_cost(equation.column, own);
    pair.set_reduced_cost(equation.kept, others);
    Ok(())
}

/// Undoes the equation, where `left` is what the other duals leave of the deleted column's cost.
///
/// # Errors
/// Where a number on the way has no room, or there is no memory for it.
fn undo_equation<T: Exact>(
    alloc: Global,
    pair: &mut PairBuf<T>,
    equation: &DoubletonEquation,
    left: &T,
) -> Result<(), T::Refusal>
    requires row { equation.now.row < length pair.old.duals }
    requires column { equation.now.column < length pair.old.point }
    requires kept { equation.now.kept < length pair.old.point }
    requires costs { length pair.old.reduced_costs ≡ length pair.old.point }
    requires value { equation.now.value ≢ zero_ℚ }
    requires kept_value { equation.now.kept_value ≢ zero_ℚ }
    ensures sized { (m n : ℕ) → IsSized m n pair.old → IsSized m n pair.new }
    ensures lifted { OnOk result (priced_of pair.new ≡ equation_of equation.now.row equation.now.column equation.now.kept equation.now.value equation.now.kept_value equation.now.lower equation.now.upper (T.number left.now) (priced_of pair.old)) }
    ensures fits { IsOk result → EquationFits T.room equation.now.value equation.now.kept_value equation.now.lower equation.now.upper (vector_of pair.old.point equation.now.kept) (vector_of pair.old.reduced_costs equation.now.kept) (T.number left.now) }
    ensures past { IfErr result (λ why. T.is_past why → EquationFits T.room equation.now.value equation.now.kept_value equation.now.lower equation.now.upper (vector_of pair.old.point equation.now.kept) (vector_of pair.old.reduced_costs equation.now.kept) (T.number left.now) → ⊥) }
{
    let joint = joint_cost(alloc, equation, left, pair.reduced_cost(equation.kept))?;
    let dual = equation_dual(
        alloc,
        equation,
        pair.value(equation.kept),
        pair.reduced_cost(equation.kept),
        left,
        &joint,
    )?;
    set_equation(alloc, pair, equation, left, &joint, dual)
}

/// K12: the row has the dual of the column that it holds, and both columns what that leaves of their costs.
///
/// # Errors
/// Where a number on the way has no room, or there is no memory for it.
pub fn undo_doubleton_equation<T: Exact>(
    alloc: Global,
    undo: &DoubletonEquation,
    pair: &mut PairBuf<T>,
) -> Result<(), T::Refusal>
    requires sound { IsSound (length pair.old.duals) (length pair.old.point) (kind.DoubletonEquation undo.now) }
    requires costs { length pair.old.reduced_costs ≡ length pair.old.point }
    ensures sized { (m n : ℕ) → IsSized m n pair.old → IsSized m n pair.new }
    ensures lifted { OnOk result (priced_of pair.new ≡ duals_undone (kind.DoubletonEquation undo.now) (priced_of pair.old)) }
    ensures fits { IsOk result → DualsFit T.room (kind.DoubletonEquation undo.now) (priced_of pair.old) }
    ensures past { IfErr result (λ why. T.is_past why → DualsFit T.room (kind.DoubletonEquation undo.now) (priced_of pair.old) → ⊥) }
{
    let left = cost_left(
        alloc,
        &undo.cost.get(),
        undo.entries.as_slice(),
        pair.duals(),
    )?;
    undo_equation(alloc, pair, undo, &left)
}
