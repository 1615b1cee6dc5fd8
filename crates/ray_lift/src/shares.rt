//! Weights that go from one pair of ends to another.

ghost use Rattle.std.specs.Prelude.{◌≡◌, ◌≢◌, IfOk, IsOk, ◌↔◌};
ghost use Rattle.fractions.specs.Number.{zero_ℚ};
ghost use Rattle.lp_rays.specs.Handing.{handed_of, image_high_part, image_low_part, kept_of, lower_part, lower_share, upper_part, upper_share};
ghost use Rattle.ray_steps.specs.RayRoom.{BothFit};

use fractions::Past;
use fractions::frac::Frac;

/// The weights of a lower and an upper end.
#[derive(Clone, Copy)]
pub struct EndWeights {
    pub lower: Frac,
    pub upper: Frac,
}

/// What came with an end that moved.
pub fn handed(moved: bool, weight: Frac) -> Frac
    ensures { result ≡ handed_of moved weight }
{
    if moved { weight } else { Frac::zero() }
}

/// What stays at the old end.
pub fn kept(moved: bool, weight: Frac) -> Frac
    ensures { result ≡ kept_of moved weight }
{
    if moved { Frac::zero() } else { weight }
}

/// Weights of sides over a factor, as weights of the sides.
///
/// # Errors
/// [`Past`] exactly where a quotient is.
#[tactic(auto, using(crate::proofs::Factors::negative_not))]
pub fn shares(factor: &Frac, weights: EndWeights) -> Result<EndWeights, Past>
    requires { factor.now ≢ zero_ℚ }
    ensures lower { IfOk result (λ r. r.lower ≡ lower_share factor.now weights.lower weights.upper) }
    ensures upper { IfOk result (λ r. r.upper ≡ upper_share factor.now weights.lower weights.upper) }
    ensures fits { IsOk result ↔ BothFit (lower_share factor.now weights.lower weights.upper) (upper_share factor.now weights.lower weights.upper) }
{
    if factor.is_positive() {
        let lower = weights.lower.div(factor)?;
        let upper = weights.upper.div(factor)?;
        Ok(EndWeights { lower, upper })
    } else {
        let size = factor.neg();
        let lower = weights.upper.div(&size)?;
        let upper = weights.lower.div(&size)?;
        Ok(EndWeights { lower, upper })
    }
}

/// Weights of a factor times bounds, as weights of the bounds.
///
/// # Errors
/// [`Past`] exactly where a product is.
pub fn parts(factor: &Frac, weights: EndWeights) -> Result<EndWeights, Past>
    ensures lower { IfOk result (λ r. r.lower ≡ lower_part factor.now weights.lower weights.upper) }
    ensures upper { IfOk result (λ r. r.upper ≡ upper_part factor.now weights.lower weights.upper) }
    ensures fits { IsOk result ↔ BothFit (lower_part factor.now weights.lower weights.upper) (upper_part factor.now weights.lower weights.upper) }
{
    if factor.is_positive() {
        let lower = weights.lower.mul(factor)?;
        let upper = weights.upper.mul(factor)?;
        Ok(EndWeights { lower, upper })
    } else {
        let size = factor.neg();
        let lower = weights.upper.mul(&size)?;
        let upper = weights.lower.mul(&size)?;
        Ok(EndWeights { lower, upper })
    }
}

/// Weights of the image of bounds by an equation, as weights of the bounds.
///
/// # Errors
/// [`Past`] exactly where a product is.
pub fn image_parts(ratio: &Frac, weights: EndWeights) -> Result<EndWeights, Past>
    ensures lower { IfOk result (λ r. r.lower ≡ image_low_part ratio.now weights.lower weights.upper) }
    ensures upper { IfOk result (λ r. r.upper ≡ image_high_part ratio.now weights.lower weights.upper) }
    ensures fits { IsOk result ↔ BothFit (image_low_part ratio.now weights.lower weights.upper) (image_high_part ratio.now weights.lower weights.upper) }
{
    if ratio.is_positive() {
        let lower = weights.upper.mul(ratio)?;
        let upper = weights.lower.mul(ratio)?;
        Ok(EndWeights { lower, upper })
    } else {
        let size = ratio.neg();
        let lower = weights.lower.mul(&size)?;
        let upper = weights.upper.mul(&size)?;
        Ok(EndWeights { lower, upper })
    }
}
