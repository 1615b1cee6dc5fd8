//! Ratios and differences along a list of terms.

ghost use Rattle.std.specs.Prelude.{◌≡◌, length, IfOk, IfErr, IsOk, OnOk};
ghost use Rattle.fractions.specs.Number.{zero_ℚ, ◌-ℚ◌, ◌*ℚ◌};
ghost use Rattle.lp_model.specs.Vectors.{vector_of};
ghost use Rattle.lp_model.specs.Sparse.{Ascends, dense};
ghost use Rattle.undo_pairs.specs.LiftPair.{cost_left as cost_left_of, further as further_of, furthest as furthest_of};
ghost use Rattle.postsolve_dual.specs.PairRoom.{CostLeftFits, RatiosFit, TakenFits};

use exact_numbers::{Exact, Numbers};
use fractions::frac::Frac;
use lp_model::Term;
use postsolve_primal::{less_product, sum_of_terms};
use std::alloc::Global;
use undo_records::Side;

/// What the duals leave of a column's cost: it less the sum of its entries, each times the dual of its row.
///
/// # Errors
/// Where a product, a sum on the way or the difference has no room, or there is no memory for it.
#[tactic(auto, using(crate::proofs::Ids::ids_below))]
pub fn cost_left<T: Exact>(
    alloc: Global,
    cost: &Frac,
    entries: &[Term],
    duals: &Numbers<T>,
) -> Result<T, T::Refusal>
    requires { Ascends 0 (length duals.now) entries.now }
    ensures value { IfOk result (λ r. T.number r ≡ cost_left_of cost.now entries.now (vector_of duals.now)) }
    ensures fits { IsOk result → CostLeftFits T.room cost.now entries.now (vector_of duals.now) }
    ensures past { IfErr result (λ why. T.is_past why → CostLeftFits T.room cost.now entries.now (vector_of duals.now) → ⊥) }
{
    let sum = sum_of_terms(alloc, entries, duals)?;
    let cost = T::of(cost);
    cost.minus(alloc, &sum)
}

/// The greater of two numbers for the lower side, the less for the upper one.
fn further<T: Exact>(side: Side, a: T, b: T) -> T
    ensures { T.number result ≡ further_of side (T.number a) (T.number b) }
{
    match side {
        Side::Lower => { if a.is_at_most(&b) { b } else { a } }
        Side::Upper => { if a.is_at_most(&b) { a } else { b } }
    }
}

/// The greatest of 0 and the numbers of the terms' columns over the terms; for the upper side the least.
///
/// # Errors
/// Where a quotient has no room, or there is no memory for it.
pub fn furthest_ratio<T: Exact>(
    alloc: Global,
    side: Side,
    entries: &[Term],
    numbers: &Numbers<T>,
) -> Result<T, T::Refusal>
    requires { Ascends 0 (length numbers.now) entries.now }
    ensures value { IfOk result (λ r. T.number r ≡ furthest_of side zero_ℚ entries.now (vector_of numbers.now)) }
    ensures fits { IsOk result → RatiosFit T.room entries.now (vector_of numbers.now) }
    ensures past { IfErr result (λ why. T.is_past why → RatiosFit T.room entries.now (vector_of numbers.now) → ⊥) }
{
    let mut best = T::zero();
    let mut rest = entries;
    while let Some((entry, after)) = rest.split_first() {
        let ratio = numbers.at(entry.id).over(alloc, &entry.value)?;
        best = further(side, best, ratio);
        rest = after;
    }
    Ok(best)
}

/// Takes the terms, each times a factor, from the numbers at their ids.
///
/// # Errors
/// Where a product or a difference has no room, or there is no memory for it.
pub fn take_terms<T: Exact>(
    alloc: Global,
    numbers: &mut Numbers<T>,
    entries: &[Term],
    factor: &T,
) -> Result<(), T::Refusal>
    requires { Ascends 0 (length numbers.old) entries.now }
    ensures size { length numbers.new ≡ length numbers.old }
    ensures taken { OnOk result (vector_of numbers.new ≡ (λ k. vector_of numbers.old k -ℚ dense entries.now k *ℚ T.number factor.now)) }
    ensures fits { IsOk result → TakenFits T.room entries.now (T.number factor.now) (vector_of numbers.old) }
    ensures past { IfErr result (λ why. T.is_past why → TakenFits T.room entries.now (T.number factor.now) (vector_of numbers.old) → ⊥) }
{
    let mut rest = entries;
    while let Some((entry, after)) = rest.split_first() {
        let left = less_product(alloc, numbers.at(entry.id), &entry.value, factor)?;
        numbers.set(entry.id, left);
        rest = after;
    }
    Ok(())
}
