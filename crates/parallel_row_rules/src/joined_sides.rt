//! The sides of the row that is kept.

ghost use Rattle.std.specs.Prelude.{◌≡◌, ◌≢◌, ◌↔◌, true, IfOk, IsOk};
ghost use Rattle.fractions.specs.Number.{zero_ℚ};
ghost use Rattle.fractions.specs.Ends.{over as over_of};
ghost use Rattle.lp_theory.specs.MetEnds.{lower_over, upper_over};
ghost use Rattle.problem_model.specs.Problems.{row_at};
ghost use Rattle.parallel_laws.specs.ParallelRows.{factor as factor_by, joined_lower, joined_upper, Computes, SideComputes};

use fractions::Past;
use fractions::ends::{greater_lower, lesser_upper, over};
use fractions::ext::Ext;
use fractions::frac::Frac;
use problem_model::Sides;
use sparse_problem::Problem;

/// A lower and an upper end.
#[derive(Clone, Copy)]
pub struct Range {
    pub lower: Ext,
    pub upper: Ext,
}

/// A side over a factor.
#[tactic(auto, using(crate::proofs::Sides::side_computes, crate::proofs::Sides::side_fits))]
fn side_over(side: &Ext, factor: &Frac) -> Result<Ext, Past>
    requires { factor.now ≢ zero_ℚ }
    ensures value { IfOk result (λ e. e ≡ over_of side.now factor.now) }
    ensures fits { IsOk result ↔ SideComputes factor.now side.now }
{
    over(side, factor)
}

/// The sides of a row over a factor, changed over if it is negative.
fn sides_over(sides: &Sides, factor: &Frac) -> Result<Range, Past>
    requires { factor.now ≢ zero_ℚ }
    ensures lower { IfOk result (λ r. r.lower ≡ lower_over factor.now sides.now.lower sides.now.upper) }
    ensures upper { IfOk result (λ r. r.upper ≡ upper_over factor.now sides.now.lower sides.now.upper) }
    ensures fits { IsOk result ↔ (SideComputes factor.now sides.now.lower × SideComputes factor.now sides.now.upper) }
{
    let from_lower = side_over(&sides.lower, factor)?;
    let from_upper = side_over(&sides.upper, factor)?;
    if factor.is_positive() {
        Ok(Range {
            lower: from_lower,
            upper: from_upper,
        })
    } else {
        Ok(Range {
            lower: from_upper,
            upper: from_lower,
        })
    }
}

/// The sides of the kept row, met with those of the one that goes over the factor.
///
/// # Errors
/// Past where one of their numbers is.
pub fn joined_sides(problem: &Problem, row: u32, other: u32, factor: &Frac) -> Result<Range, Past>
    requires first { (row_at problem.now row).live ≡ true }
    requires second { (row_at problem.now other).live ≡ true }
    requires factor { factor.now ≡ factor_by problem.now row other }
    requires some { factor.now ≢ zero_ℚ }
    ensures lower { IfOk result (λ r. r.lower ≡ joined_lower problem.now row other) }
    ensures upper { IfOk result (λ r. r.upper ≡ joined_upper problem.now row other) }
    ensures fits { IsOk result ↔ Computes problem.now row other }
{
    let leaving = problem.sides(row);
    let kept = problem.sides(other);
    let range = sides_over(&leaving, factor)?;
    Ok(Range {
        lower: greater_lower(&kept.lower, &range.lower),
        upper: lesser_upper(&kept.upper, &range.upper),
    })
}
