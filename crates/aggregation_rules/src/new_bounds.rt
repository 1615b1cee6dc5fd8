//! The bounds of the column that is kept.

ghost use Rattle.std.specs.Prelude.{◌≡◌, ◌≢◌, ◌↔◌, true, IfOk, IsOk, if◌then◌else◌};
ghost use Rattle.fractions.specs.Number.{zero_ℚ};
ghost use Rattle.fractions.specs.Compare.{lt_ℚ};
ghost use Rattle.fractions.specs.Division.{◌/ℚ◌};
ghost use Rattle.fractions.specs.Ends.{meet_low, meet_high};
ghost use Rattle.problem_model.specs.Problems.{bounds_at, column_at};
ghost use Rattle.lp_substitutions.specs.DoubletonEquation.{image as image_of, image_lower, image_upper};
ghost use Rattle.aggregation_laws.specs.DoubletonEquation.{ImageFits};

use crate::equation::Equation;
use crate::new_numbers::less_product;
use fractions::Past;
use fractions::ends::{greater_lower, lesser_upper};
use fractions::ext::Ext;
use fractions::frac::Frac;
use sparse_problem::Problem;

/// A lower and an upper end.
#[derive(Clone, Copy)]
pub struct Range {
    pub lower: Ext,
    pub upper: Ext,
}

/// The end of the kept column where the other one is at an end.
fn image(equation: &Equation, end: &Ext) -> Result<Ext, Past>
    requires { equation.now.kept_value ≢ zero_ℚ }
    ensures value { IfOk result (λ e. e ≡ image_of equation.now.value equation.now.kept_value equation.now.equal end.now) }
    ensures fits { IsOk result ↔ ImageFits equation.now.value equation.now.kept_value equation.now.equal end.now }
{
    match end.number() {
        None => Ok(Ext::none()),
        Some(number) => {
            let product = equation.value.mul(&number)?;
            let left = equation.equal.sub(&product)?;
            Ok(Ext::at(left.div(&equation.kept_value)?))
        }
    }
}

/// Whether a quotient is positive.
fn is_quotient_positive(number: &Frac, divisor: &Frac) -> bool
    requires { divisor.now ≢ zero_ℚ }
    ensures { result ≡ lt_ℚ zero_ℚ (number.now /ℚ divisor.now) }
{
    if divisor.is_positive() {
        number.is_positive()
    } else {
        number.is_negative()
    }
}

/// The images of a lower and an upper end in their order: they change over where a/b is positive.
fn in_order(equation: &Equation, from_lower: Ext, from_upper: Ext) -> Range
    requires { equation.now.kept_value ≢ zero_ℚ }
    ensures lower { result.lower ≡ if lt_ℚ zero_ℚ (equation.now.value /ℚ equation.now.kept_value) then from_upper else from_lower }
    ensures upper { result.upper ≡ if lt_ℚ zero_ℚ (equation.now.value /ℚ equation.now.kept_value) then from_lower else from_upper }
{
    if is_quotient_positive(&equation.value, &equation.kept_value) {
        Range {
            lower: from_upper,
            upper: from_lower,
        }
    } else {
        Range {
            lower: from_lower,
            upper: from_upper,
        }
    }
}

/// The range of the kept column that the range of the other one gives.
fn image_range(equation: &Equation, lower: &Ext, upper: &Ext) -> Result<Range, Past>
    requires { equation.now.kept_value ≢ zero_ℚ }
    ensures lower { IfOk result (λ r. r.lower ≡ image_lower equation.now.value equation.now.kept_value equation.now.equal lower.now upper.now) }
    ensures upper { IfOk result (λ r. r.upper ≡ image_upper equation.now.value equation.now.kept_value equation.now.equal lower.now upper.now) }
    ensures fits { IsOk result ↔ (ImageFits equation.now.value equation.now.kept_value equation.now.equal lower.now × ImageFits equation.now.value equation.now.kept_value equation.now.equal upper.now) }
{
    let from_lower = image(equation, lower)?;
    let from_upper = image(equation, upper)?;
    Ok(in_order(equation, from_lower, from_upper))
}

/// The bounds of the kept column, met with what the bounds of the other one say of it.
///
/// # Errors
/// Past where one of their numbers is.
pub fn new_bounds(
    problem: &Problem,
    column: u32,
    other: u32,
    equation: &Equation,
) -> Result<Range, Past>
    requires value { equation.now.kept_value ≢ zero_ℚ }
    requires first { (column_at problem.now column).live ≡ true }
    requires second { (column_at problem.now other).live ≡ true }
    ensures lower { IfOk result (λ r. r.lower ≡ meet_low (bounds_at problem.now other).lower (image_lower equation.now.value equation.now.kept_value equation.now.equal (bounds_at problem.now column).lower (bounds_at problem.now column).upper)) }
    ensures upper { IfOk result (λ r. r.upper ≡ meet_high (bounds_at problem.now other).upper (image_upper equation.now.value equation.now.kept_value equation.now.equal (bounds_at problem.now column).lower (bounds_at problem.now column).upper)) }
    ensures fits { IsOk result ↔ (ImageFits equation.now.value equation.now.kept_value equation.now.equal (bounds_at problem.now column).lower × ImageFits equation.now.value equation.now.kept_value equation.now.equal (bounds_at problem.now column).upper) }
{
    let leaving = problem.bounds(column);
    let kept = problem.bounds(other);
    let range = image_range(equation, &leaving.lower, &leaving.upper)?;
    Ok(Range {
        lower: greater_lower(&kept.lower, &range.lower),
        upper: lesser_upper(&kept.upper, &range.upper),
    })
}
