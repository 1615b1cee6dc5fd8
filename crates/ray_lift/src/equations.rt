//! The undoing of an equation of two columns.

ghost use Rattle.std.specs.Prelude.{◌≡◌, ◌≢◌, ◌||◌, ℕ, length, IsTrue, IfOk, IsOk, OnOk, ◌↔◌, if◌then◌else◌};
ghost use Rattle.fractions.specs.Number.{zero_ℚ, neg_ℚ};
ghost use Rattle.fractions.specs.Compare.{lt_ℚ};
ghost use Rattle.fractions.specs.Division.{◌/ℚ◌};
ghost use Rattle.fractions.specs.Lowest.{Fits};
ghost use Rattle.undo_records.specs.Sound.{IsSound};
ghost use Rattle.undo_records.specs.declared.undo.Undo.TheVariants as kind;
ghost use Rattle.lp_rays.specs.Handing.{handed_of, image_high_part, image_low_part};
ghost use Rattle.lp_rays.specs.RayData.{IsSized, weights_of};
ghost use Rattle.ray_steps.specs.StepBack.{equation_share, weighed};
ghost use Rattle.ray_steps.specs.RayRoom.{BothFit, EquationFits, WeighedFits};

use crate::shares::{EndWeights, handed, image_parts, kept};
use fractions::Past;
use fractions::frac::Frac;
use lp_rays::{Ray, net};
use undo_records::DoubletonEquation;

/// Weights of the image of bounds by `a x + b y = r`, as weights of the bounds.
///
/// # Errors
/// [`Past`] exactly where the quotient or a product is.
fn parts_by(a: &Frac, b: &Frac, weights: EndWeights) -> Result<EndWeights, Past>
    requires { b.now ≢ zero_ℚ }
    ensures lower { IfOk result (λ r. r.lower ≡ image_low_part (a.now /ℚ b.now) weights.lower weights.upper) }
    ensures upper { IfOk result (λ r. r.upper ≡ image_high_part (a.now /ℚ b.now) weights.lower weights.upper) }
    ensures fits { IsOk result ↔ (Fits (a.now /ℚ b.now) × BothFit (image_low_part (a.now /ℚ b.now) weights.lower weights.upper) (image_high_part (a.now /ℚ b.now) weights.lower weights.upper)) }
{
    let ratio = a.div(b)?;
    image_parts(&ratio, weights)
}

/// The same of what came with ends that moved; where none did, nothing is computed.
///
/// # Errors
/// [`Past`] exactly where an end moved, and the quotient or a product is.
#[tactic(auto, using(crate::proofs::Factors::no_low, crate::proofs::Factors::no_high))]
fn moved_parts(
    a: &Frac,
    b: &Frac,
    low: bool,
    high: bool,
    weights: EndWeights,
) -> Result<EndWeights, Past>
    requires { b.now ≢ zero_ℚ }
    ensures lower { IfOk result (λ r. r.lower ≡ image_low_part (a.now /ℚ b.now) (handed_of low weights.lower) (handed_of high weights.upper)) }
    ensures upper { IfOk result (λ r. r.upper ≡ image_high_part (a.now /ℚ b.now) (handed_of low weights.lower) (handed_of high weights.upper)) }
    ensures fits { IsOk result ↔ ((IsTrue (low || high) → Fits (a.now /ℚ b.now)) × BothFit (image_low_part (a.now /ℚ b.now) (handed_of low weights.lower) (handed_of high weights.upper)) (image_high_part (a.now /ℚ b.now) (handed_of low weights.lower) (handed_of high weights.upper))) }
{
    if low || high {
        let given = EndWeights {
            lower: handed(low, weights.lower),
            upper: handed(high, weights.upper),
        };
        parts_by(a, b, given)
    } else {
        Ok(EndWeights {
            lower: Frac::zero(),
            upper: Frac::zero(),
        })
    }
}

/// The equation's share: what the columns' weights and the other rows leave, over the entry.
///
/// # Errors
/// [`Past`] exactly where a difference or the quotient is.
fn share_of(entry: &Frac, lower: &Frac, upper: &Frac, left: &Frac) -> Result<Frac, Past>
    requires { entry.now ≢ zero_ℚ }
    ensures value { IfOk result (λ r. r ≡ equation_share entry.now lower.now upper.now left.now) }
    ensures fits { IsOk result ↔ EquationFits entry.now lower.now upper.now left.now }
{
    upper.sub(lower)?.sub(left)?.div(entry)
}

/// A number as the weights of a side that is both.
fn halves(share: Frac) -> EndWeights
    ensures lower { result.lower ≡ (if lt_ℚ zero_ℚ share then share else zero_ℚ) }
    ensures upper { result.upper ≡ (if lt_ℚ zero_ℚ share then zero_ℚ else neg_ℚ share) }
{
    if share.is_positive() {
        EndWeights {
            lower: share,
            upper: Frac::zero(),
        }
    } else {
        EndWeights {
            lower: Frac::zero(),
            upper: share.neg(),
        }
    }
}

/// K12: the deleted column takes what came from its bounds, and the equation what is left.
///
/// # Errors
/// [`Past`] exactly where a number on the way is.
pub fn weigh_doubleton_equation(
    undo: &DoubletonEquation,
    low: bool,
    high: bool,
    ray: &mut Ray,
) -> Result<(), Past>
    requires sound { IsSound (length ray.old.lower_sides) (length ray.old.lower_bounds) (kind.DoubletonEquation undo.now) }
    requires rows { length ray.old.upper_sides ≡ length ray.old.lower_sides }
    requires columns { length ray.old.upper_bounds ≡ length ray.old.lower_bounds }
    ensures sized { (m n : ℕ) → IsSized m n ray.old → IsSized m n ray.new }
    ensures lifted { OnOk result (weights_of ray.new ≡ weighed (kind.DoubletonEquation undo.now) low high (weights_of ray.old)) }
    ensures fits { IsOk result ↔ WeighedFits (kind.DoubletonEquation undo.now) low high (weights_of ray.old) }
{
    let lower = ray.lower_bound(undo.kept);
    let upper = ray.upper_bound(undo.kept);
    let entry = undo.value.get();
    let other = undo.kept_value.get();
    let given = EndWeights { lower, upper };
    let EndWeights {
        lower: own_lower,
        upper: own_upper,
    } = moved_parts(&entry, &other, low, high, given)?;
    let left = net(undo.entries.as_slice(), ray)?;
    let share = share_of(&entry, &own_lower, &own_upper, &left)?;
    let sides = halves(share);
    ray.set_sides(undo.row, sides.lower, sides.upper);
    ray.set_bounds(undo.column, own_lower, own_upper);
    ray.set_bounds(undo.kept, kept(low, lower), kept(high, upper));
    Ok(())
}
