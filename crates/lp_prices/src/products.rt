//! Sums of products.

ghost use Rattle.std.specs.Prelude.{◌≡◌, IfErr, IfOk, IsOk};
ghost use Rattle.fractions.specs.Number.{◌+ℚ◌, ◌*ℚ◌};

use exact_numbers::Exact;
use fractions::frac::Frac;
use std::alloc::Global;

/// A sum and the product of a fraction and a number.
///
/// # Errors
/// Where the product or the sum has no room, or there is no memory for it.
pub fn plus_product<T: Exact>(
    alloc: Global,
    sum: &T,
    factor: &Frac,
    number: &T,
) -> Result<T, T::Refusal>
    ensures value { IfOk result (λ r. T.number r ≡ T.number sum.now +ℚ factor.now *ℚ T.number number.now) }
    ensures kept { IfOk result (λ r. T.room.number (T.number r)) }
    ensures fits { IsOk result → T.room.number (factor.now *ℚ T.number number.now) × T.room.sum (T.number sum.now) (factor.now *ℚ T.number number.now) }
    ensures past { IfErr result (λ why. T.is_past why → T.room.number (factor.now *ℚ T.number number.now) × T.room.sum (T.number sum.now) (factor.now *ℚ T.number number.now) → ⊥) }
{
    let product = number.scaled(alloc, factor)?;
    sum.plus(alloc, &product)
}
