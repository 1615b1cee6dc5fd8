//! The coefficient and the side that a tightening gives a row.

ghost use Rattle.std.specs.Prelude.{◌≡◌, ◌↔◌, IfOk, IsOk};
ghost use Rattle.fractions.specs.Lowest.{Fits};
ghost use Rattle.fractions.specs.Number.{◌*ℚ◌};
ghost use Rattle.fractions.specs.FracWords.{SumFits};
ghost use Rattle.coef_laws.specs.CoefficientTightening.{new_coefficient as coefficient_after, new_limit as limit_after, step as step_by, turned as times};

use crate::values::turned;
use coef_laws::Tightening;
use fractions::Past;
use fractions::frac::Frac;

/// Less by an amount for a positive coefficient, more by it for a negative one.
fn step(coefficient: &Frac, amount: &Frac) -> Frac
    ensures { result ≡ step_by coefficient.now amount.now }
{
    if coefficient.is_positive() {
        amount.neg()
    } else {
        *amount
    }
}

/// The coefficient that the row gets.
///
/// # Errors
/// Past where it is.
pub fn new_coefficient(tightening: &Tightening) -> Result<Frac, Past>
    ensures value { IfOk result (λ r. r ≡ times tightening.now.side (coefficient_after tightening.now)) }
    ensures fits { IsOk result ↔ SumFits tightening.now.coefficient (step_by tightening.now.coefficient tightening.now.slack) }
{
    let by = step(&tightening.coefficient, &tightening.slack);
    let after = tightening.coefficient.add(&by)?;
    Ok(turned(tightening.side, &after))
}

/// The side that the row gets.
///
/// # Errors
/// Past where it, or the product by which it moves, is.
pub fn new_limit(tightening: &Tightening) -> Result<Frac, Past>
    ensures value { IfOk result (λ r. r ≡ times tightening.now.side (limit_after tightening.now)) }
    ensures fits { IsOk result ↔ (Fits (tightening.now.slack *ℚ tightening.now.bound) × SumFits tightening.now.limit (step_by tightening.now.coefficient (tightening.now.slack *ℚ tightening.now.bound))) }
{
    let product = tightening.slack.mul(&tightening.bound)?;
    let by = step(&tightening.coefficient, &product);
    let after = tightening.limit.add(&by)?;
    Ok(turned(tightening.side, &after))
}
