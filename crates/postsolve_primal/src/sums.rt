//! Sums over lists of terms, and differences.

ghost use Rattle.std.specs.Prelude.{◌≡◌, ◌≢◌, ◌<◌, length, All, IfOk, IfErr, IsOk};
ghost use Rattle.fractions.specs.Number.{zero_ℚ, ◌+ℚ◌, ◌-ℚ◌, ◌*ℚ◌};
ghost use Rattle.fractions.specs.Division.{◌/ℚ◌};
ghost use Rattle.lp_model.specs.Vectors.{vector_of};
ghost use Rattle.lp_model.specs.Sparse.{sparse_total};
ghost use Rattle.undo_records.specs.Fitting.{TermFits, TermsFit, LessFits, OverFits};

use exact_numbers::{Exact, Numbers};
use fractions::frac::Frac;
use lp_model::Term;
use std::alloc::Global;

/// A sum with the product of one more term.
///
/// # Errors
/// Where the product or the sum has no room, or there is no memory for it.
fn with_term<T: Exact>(
    alloc: Global,
    sum: &T,
    term: &Term,
    point: &Numbers<T>,
) -> Result<T, T::Refusal>
    requires { term.now.id < length point.now }
    ensures value { IfOk result (λ r. T.number r ≡ T.number sum.now +ℚ term.now.value *ℚ vector_of point.now term.now.id) }
    ensures fits { IsOk result → TermFits T.room (T.number sum.now) term.now (vector_of point.now) }
    ensures past { IfErr result (λ why. T.is_past why → TermFits T.room (T.number sum.now) term.now (vector_of point.now) → ⊥) }
{
    let product = point.at(term.id).scaled(alloc, &term.value)?;
    sum.plus(alloc, &product)
}

/// The sum of the products of the terms with the numbers at their ids.
///
/// # Errors
/// Where a product or a sum on the way has no room, or there is no memory for it.
pub fn sum_of_terms<T: Exact>(
    alloc: Global,
    terms: &[Term],
    point: &Numbers<T>,
) -> Result<T, T::Refusal>
    requires { All (λ t. t.id < length point.now) terms.now }
    ensures value { IfOk result (λ r. T.number r ≡ sparse_total terms.now (vector_of point.now)) }
    ensures fits { IsOk result → TermsFit T.room zero_ℚ terms.now (vector_of point.now) }
    ensures past { IfErr result (λ why. T.is_past why → TermsFit T.room zero_ℚ terms.now (vector_of point.now) → ⊥) }
{
    let mut sum = T::zero();
    for term in terms {
        sum = with_term(alloc, &sum, term, point)?;
    }
    Ok(sum)
}

/// A number less a product.
///
/// # Errors
/// Where the product or the difference has no room, or there is no memory for it.
pub fn less_product<T: Exact>(
    alloc: Global,
    number: &T,
    factor: &Frac,
    other: &T,
) -> Result<T, T::Refusal>
    ensures value { IfOk result (λ r. T.number r ≡ T.number number.now -ℚ factor.now *ℚ T.number other.now) }
    ensures fits { IsOk result → LessFits T.room (T.number number.now) factor.now (T.number other.now) }
    ensures past { IfErr result (λ why. T.is_past why → LessFits T.room (T.number number.now) factor.now (T.number other.now) → ⊥) }
{
    let product = other.scaled(alloc, factor)?;
    number.minus(alloc, &product)
}

/// A difference over a number.
///
/// # Errors
/// Where the difference or the quotient has no room, or there is no memory for it.
pub fn difference_over<T: Exact>(
    alloc: Global,
    number: &Frac,
    taken: &T,
    divisor: &Frac,
) -> Result<T, T::Refusal>
    requires { divisor.now ≢ zero_ℚ }
    ensures value { IfOk result (λ r. T.number r ≡ (number.now -ℚ T.number taken.now) /ℚ divisor.now) }
    ensures fits { IsOk result → OverFits T.room number.now (T.number taken.now) divisor.now }
    ensures past { IfErr result (λ why. T.is_past why → OverFits T.room number.now (T.number taken.now) divisor.now → ⊥) }
{
    let number = T::of(number);
    let difference = number.minus(alloc, taken)?;
    difference.over(alloc, divisor)
}
