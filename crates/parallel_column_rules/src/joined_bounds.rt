//! The bounds of the column that is kept.

ghost use Rattle.std.specs.Prelude.{◌≡◌, ◌≢◌, ◌↔◌, true, IfOk, IsOk};
ghost use Rattle.fractions.specs.Number.{zero_ℚ};
ghost use Rattle.fractions.specs.Ends.{plus, scaled};
ghost use Rattle.lp_theory.specs.Activities.{least_term};
ghost use Rattle.problem_model.specs.Problems.{column_at};
ghost use Rattle.parallel_laws.specs.ParallelColumns.{factor as factor_by, joined_lower, joined_upper, Computes, EndComputes};

use fractions::Past;
use fractions::ext::Ext;
use fractions::frac::Frac;
use sparse_problem::Problem;

/// A lower and an upper end.
#[derive(Clone, Copy)]
pub struct Range {
    pub lower: Ext,
    pub upper: Ext,
}

/// The end at which the factor times a column is least, where the first is its lower bound.
fn least_at(factor: &Frac, first: &Ext, second: &Ext) -> Ext
    requires { factor.now ≢ zero_ℚ }
    ensures { scaled factor.now result ≡ least_term factor.now first.now second.now }
{
    if factor.is_positive() {
        *first
    } else {
        *second
    }
}

/// An end and a factor times another one. It is finite where both are.
fn plus_product(end: &Ext, factor: &Frac, other: &Ext) -> Result<Ext, Past>
    ensures value { IfOk result (λ e. e ≡ plus end.now (scaled factor.now other.now)) }
    ensures fits { IsOk result ↔ EndComputes end.now (scaled factor.now other.now) }
{
    let Some(before) = end.number() else {
        return Ok(Ext::none());
    };
    let Some(number) = other.number() else {
        return Ok(Ext::none());
    };
    let product = factor.mul(&number)?;
    Ok(Ext::at(before.add(&product)?))
}

/// An end and the least of the factor times a column, where the first is its lower bound.
fn plus_least(end: &Ext, factor: &Frac, first: &Ext, second: &Ext) -> Result<Ext, Past>
    requires { factor.now ≢ zero_ℚ }
    ensures value { IfOk result (λ e. e ≡ plus end.now (least_term factor.now first.now second.now)) }
    ensures fits { IsOk result ↔ EndComputes end.now (least_term factor.now first.now second.now) }
{
    let other = least_at(factor, first, second);
    plus_product(end, factor, &other)
}

/// The bounds of the kept column and the factor times the one that goes.
///
/// # Errors
/// Past where one of their numbers is.
pub fn joined_bounds(
    problem: &Problem,
    column: u32,
    other: u32,
    factor: &Frac,
) -> Result<Range, Past>
    requires first { (column_at problem.now column).live ≡ true }
    requires second { (column_at problem.now other).live ≡ true }
    requires factor { factor.now ≡ factor_by problem.now column other }
    requires some { factor.now ≢ zero_ℚ }
    ensures lower { IfOk result (λ r. r.lower ≡ joined_lower problem.now column other) }
    ensures upper { IfOk result (λ r. r.upper ≡ joined_upper problem.now column other) }
    ensures fits { IsOk result ↔ Computes problem.now column other }
{
    let leaving = problem.bounds(column);
    let kept = problem.bounds(other);
    let lower = plus_least(&kept.lower, factor, &leaving.lower, &leaving.upper)?;
    let upper = plus_least(&kept.upper, factor, &leaving.upper, &leaving.lower)?;
    Ok(Range { lower, upper })
}
