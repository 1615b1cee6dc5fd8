//! What weights of ends are worth.

ghost use Rattle.std.specs.Prelude.{◌≡◌, ◌↔◌, length, IfOk, IsOk};
ghost use Rattle.fractions.specs.Number.{◌+ℚ◌, ◌*ℚ◌};
ghost use Rattle.fractions.specs.Lowest.{Fits};
ghost use Rattle.fractions.specs.FracWords.{SumFits};
ghost use Rattle.lp_model.specs.Meaning.{meaning};
ghost use Rattle.lp_model.specs.Optimality.{Continuous};
ghost use Rattle.lp_rays.specs.Ray.{worth, total_of};
ghost use Rattle.lp_rays.specs.RayData.{IsSized, weights_of};
ghost use Rattle.ray_check.specs.Room.{WorthFits, WorthsFit, worth_of, TotalFits};

use fractions::Past;
use fractions::ext::Ext;
use fractions::frac::Frac;
use lp_model::Program;
use lp_rays::Ray;

/// A sum and a product.
///
/// # Errors
/// [`Past`] exactly where the product or the sum has no room.
fn plus_product(sum: &Frac, factor: &Frac, number: &Frac) -> Result<Frac, Past>
    ensures value { IfOk result (λ r. r ≡ sum.now +ℚ factor.now *ℚ number.now) }
    ensures fits { IsOk result ↔ (Fits (factor.now *ℚ number.now) × SumFits sum.now (factor.now *ℚ number.now)) }
{
    let product = factor.mul(number)?;
    sum.add(&product)
}

/// A sum with what a weight of an end is worth.
fn plus_worth(sum: &Frac, end: &Ext, weight: &Frac) -> Result<Frac, Past>
    ensures value { IfOk result (λ r. r ≡ sum.now +ℚ worth end.now weight.now) }
    ensures fits { IsOk result ↔ WorthFits sum.now end.now weight.now }
{
    match end.number() {
        Some(number) => plus_product(sum, weight, &number),
        None => Ok(*sum),
    }
}

/// What the weights of the lower ends are worth, and those of the upper ends.
#[derive(Clone, Copy)]
pub struct Worths {
    pub lower: Frac,
    pub upper: Frac,
}

/// What the weights of the rows' sides are worth.
fn side_worths(program: &Program, ray: &Ray) -> Result<Worths, Past>
    requires { IsSized (length program.now.rows) (length program.now.columns) ray.now }
    ensures lower { IfOk result (λ r. r.lower ≡ worth_of (length program.now.rows) (meaning program.now).lower_side (weights_of ray.now).s) }
    ensures upper { IfOk result (λ r. r.upper ≡ worth_of (length program.now.rows) (meaning program.now).upper_side (weights_of ray.now).t) }
    ensures fits { IsOk result ↔ (WorthsFit (length program.now.rows) (meaning program.now).lower_side (weights_of ray.now).s × WorthsFit (length program.now.rows) (meaning program.now).upper_side (weights_of ray.now).t) }
{
    let rows = program.rows();
    let (low, high) = (ray.lower_sides(), ray.upper_sides());
    let mut lower = Frac::zero();
    let mut upper = Frac::zero();
    for i in 0..rows.len() {
        let row = &rows[i];
        lower = plus_worth(&lower, &row.lower, &low[i])?;
        upper = plus_worth(&upper, &row.upper, &high[i])?;
    }
    Ok(Worths { lower, upper })
}

/// What the weights of the columns' bounds are worth.
fn bound_worths(program: &Program, ray: &Ray) -> Result<Worths, Past>
    requires sized { IsSized (length program.now.rows) (length program.now.columns) ray.now }
    requires continuous { Continuous (meaning program.now) }
    ensures lower { IfOk result (λ r. r.lower ≡ worth_of (length program.now.columns) (meaning program.now).lower_bound (weights_of ray.now).p) }
    ensures upper { IfOk result (λ r. r.upper ≡ worth_of (length program.now.columns) (meaning program.now).upper_bound (weights_of ray.now).q) }
    ensures fits { IsOk result ↔ (WorthsFit (length program.now.columns) (meaning program.now).lower_bound (weights_of ray.now).p × WorthsFit (length program.now.columns) (meaning program.now).upper_bound (weights_of ray.now).q) }
{
    let columns = program.columns();
    let (low, high) = (ray.lower_bounds(), ray.upper_bounds());
    let mut lower = Frac::zero();
    let mut upper = Frac::zero();
    for j in 0..columns.len() {
        let column = &columns[j];
        lower = plus_worth(&lower, &column.lower, &low[j])?;
        upper = plus_worth(&upper, &column.upper, &high[j])?;
    }
    Ok(Worths { lower, upper })
}

/// The total of four sums: that of the lower sides, less that of the upper sides, plus that of the lower bounds, less that of the
/// upper bounds.
///
/// # Errors
/// [`Past`] exactly where one of the four, or a step that joins them, has no room.
pub fn ray_total(program: &Program, ray: &Ray) -> Result<Frac, Past>
    requires sized { IsSized (length program.now.rows) (length program.now.columns) ray.now }
    requires continuous { Continuous (meaning program.now) }
    ensures value { IfOk result (λ r. r ≡ total_of (meaning program.now) (weights_of ray.now)) }
    ensures fits { IsOk result ↔ TotalFits (meaning program.now) (weights_of ray.now) }
{
    let sides = side_worths(program, ray)?;
    let bounds = bound_worths(program, ray)?;
    let total = sides.lower.sub(&sides.upper)?;
    let total = total.add(&bounds.lower)?;
    total.sub(&bounds.upper)
}
