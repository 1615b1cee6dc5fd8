//! The quotients of an equation, and the cost of the column that is kept.

ghost use Rattle.std.specs.Prelude.{◌≡◌, ◌≢◌, ◌↔◌, true, IfOk, IsOk};
ghost use Rattle.fractions.specs.Number.{zero_ℚ, ◌-ℚ◌, ◌*ℚ◌};
ghost use Rattle.fractions.specs.Division.{◌/ℚ◌};
ghost use Rattle.fractions.specs.Lowest.{Fits};
ghost use Rattle.undo_records.specs.Fitting.{LessProductFits};
ghost use Rattle.problem_model.specs.Problems.{column_at, cost_at};

use crate::equation::Equation;
use fractions::Past;
use fractions::frac::Frac;
use sparse_problem::Problem;

/// What a row a x + b y = r gives: b/a and r/a.
#[derive(Clone, Copy)]
pub struct Quotients {
    pub factor: Frac,
    pub shift: Frac,
}

/// The quotients of an equation.
///
/// # Errors
/// Past where one of them is.
pub fn quotients_of(equation: &Equation) -> Result<Quotients, Past>
    requires { equation.now.value ≢ zero_ℚ }
    ensures factor { IfOk result (λ q. q.factor ≡ equation.now.kept_value /ℚ equation.now.value) }
    ensures shift { IfOk result (λ q. q.shift ≡ equation.now.equal /ℚ equation.now.value) }
    ensures fits { IsOk result ↔ (Fits (equation.now.kept_value /ℚ equation.now.value) × Fits (equation.now.equal /ℚ equation.now.value)) }
{
    let factor = equation.kept_value.div(&equation.value)?;
    let shift = equation.equal.div(&equation.value)?;
    Ok(Quotients { factor, shift })
}

/// A number less a product.
///
/// # Errors
/// Past where the product or the difference is.
pub fn less_product(number: &Frac, a: &Frac, b: &Frac) -> Result<Frac, Past>
    ensures value { IfOk result (λ r. r ≡ number.now -ℚ a.now *ℚ b.now) }
    ensures fits { IsOk result ↔ LessProductFits number.now a.now b.now }
{
    let product = a.mul(b)?;
    number.sub(&product)
}

/// What the kept column costs for both, and what the offset gains.
#[derive(Clone, Copy)]
pub struct Costs {
    pub cost: Frac,
    pub amount: Frac,
}

/// The costs.
///
/// # Errors
/// Past where one of them is.
pub fn new_costs(
    problem: &Problem,
    column: u32,
    other: u32,
    quotients: &Quotients,
) -> Result<Costs, Past>
    requires first { (column_at problem.now column).live ≡ true }
    requires second { (column_at problem.now other).live ≡ true }
    ensures cost { IfOk result (λ c. c.cost ≡ cost_at problem.now other -ℚ cost_at problem.now column *ℚ quotients.now.factor) }
    ensures amount { IfOk result (λ c. c.amount ≡ cost_at problem.now column *ℚ quotients.now.shift) }
    ensures fits { IsOk result ↔ (LessProductFits (cost_at problem.now other) (cost_at problem.now column) quotients.now.factor × Fits (cost_at problem.now column *ℚ quotients.now.shift)) }
{
    let before = problem.cost(column);
    let cost = less_product(&problem.cost(other), &before, &quotients.factor)?;
    let amount = before.mul(&quotients.shift)?;
    Ok(Costs { cost, amount })
}
