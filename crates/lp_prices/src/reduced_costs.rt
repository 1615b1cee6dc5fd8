//! The columns' reduced costs.

ghost use Rattle.std.specs.Prelude.{◌≡◌, ◌<◌, length, map, IfErr, IfOk, IsOk};
ghost use Rattle.fractions.specs.Number.{◌*ℚ◌};
ghost use Rattle.fractions.specs.Total.{total};
ghost use Rattle.lp_model.specs.Vectors.{vector_of};
ghost use Rattle.lp_model.specs.Sparse.{dense, Ascends};
ghost use Rattle.lp_model.specs.Room.{ProductsFitIn};
ghost use Rattle.lp_model.specs.Writable.{EntriesAscend};
ghost use Rattle.lp_model.specs.Meaning.{meaning};
ghost use Rattle.lp_model.specs.Optimality.{reduced_cost};
ghost use Rattle.lp_prices.specs.Prices.{ReducedCostFitsIn};

use crate::products::plus_product;
use exact_numbers::Exact;
use lp_model::{Program, Term};
use std::alloc::Global;

/// The sum of a column's entries, each times the dual of its row, by ascending row.
///
/// # Errors
/// Where a product or a step has no room, or there is no memory for it.
fn priced_sum<T: Exact>(alloc: Global, entries: &[Term], duals: &[T]) -> Result<T, T::Refusal>
    requires { Ascends 0 (length duals.now) entries.now }
    ensures value { IfOk result (λ s. T.number s ≡ total (length duals.now) (λ i. vector_of (map T.number duals.now) i *ℚ dense entries.now i)) }
    ensures fits { IsOk result → ProductsFitIn T.room (length duals.now) (vector_of (map T.number duals.now)) (dense entries.now) }
    ensures past { IfErr result (λ why. T.is_past why → ProductsFitIn T.room (length duals.now) (vector_of (map T.number duals.now)) (dense entries.now) → ⊥) }
{
    let mut sum = T::zero();
    let mut rest = entries;
    while let Some((entry, after)) = rest.split_first() {
        sum = plus_product(alloc, &sum, &entry.value, &duals[entry.id as usize])?;
        rest = after;
    }
    Ok(sum)
}

/// The reduced cost of a column: its cost less the sum of its entries, each times the dual of its row.
///
/// # Errors
/// Where the sum or the difference has no room, or there is no memory for it.
pub fn reduced_cost<T: Exact>(
    alloc: Global,
    program: &Program,
    column: usize,
    duals: &[T],
) -> Result<T, T::Refusal>
    requires each { length duals.now ≡ length program.now.rows }
    requires ascends { EntriesAscend program.now }
    requires within { column < length program.now.columns }
    ensures value { IfOk result (λ z. T.number z ≡ reduced_cost (meaning program.now) (vector_of (map T.number duals.now)) column) }
    ensures fits { IsOk result → ReducedCostFitsIn T.room (meaning program.now) (vector_of (map T.number duals.now)) column }
    ensures past { IfErr result (λ why. T.is_past why → ReducedCostFitsIn T.room (meaning program.now) (vector_of (map T.number duals.now)) column → ⊥) }
{
    let column = &program.columns()[column];
    let sum = priced_sum(alloc, column.entries.as_slice(), duals)?;
    let cost = T::of(&column.cost);
    cost.minus(alloc, &sum)
}
