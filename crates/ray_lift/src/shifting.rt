//! What a row that takes weight makes of the weights of its columns.

ghost use Rattle.std.specs.Prelude.{◌≡◌, ◌≢◌, ◌<◌, length, IfOk, IsOk, OnOk, ◌↔◌};
ghost use Rattle.fractions.specs.Number.{zero_ℚ, ◌+ℚ◌, ◌-ℚ◌};
ghost use Rattle.fractions.specs.Total.{put};
ghost use Rattle.lp_model.specs.Vectors.{vector_of};
ghost use Rattle.lp_model.specs.Sparse.{Ascends, dense};
ghost use Rattle.lp_rays.specs.RayData.{weights_of};
ghost use Rattle.ray_lift.specs.Shifted.{OneFits, high_after, low_after};
ghost use Rattle.ray_steps.specs.declared.shift.Shift.TheVariants.{ForceLower, ForceUpper, Pull, Push};
ghost use Rattle.ray_steps.specs.Shifts.{GainFits, ShiftFits, ShiftsFit, is_out, shifted_high, shifted_low};

use crate::shares::EndWeights;
use fractions::Past;
use fractions::frac::Frac;
use lp_model::Term;
use lp_rays::Ray;
use ray_steps::Shift;

/// A weight and what it gains.
///
/// # Errors
/// [`Past`] exactly where the sum is, or the difference from it.
fn gained(weight: &Frac, gain: &Frac, other: &Frac) -> Result<Frac, Past>
    ensures value { IfOk result (λ r. r ≡ (weight.now +ℚ gain.now) -ℚ other.now) }
    ensures fits { IsOk result ↔ GainFits weight.now gain.now other.now }
{
    weight.add(gain)?.sub(other)
}

/// The weights of a column from which a row takes weight at its lower side.
///
/// # Errors
/// [`Past`] exactly where the product, the sum or the difference is.
#[tactic(auto, using(crate::proofs::Factors::below_is, crate::proofs::Shiftings::above_not))]
fn pushed(entry: &Frac, taken: &Frac, weights: EndWeights) -> Result<EndWeights, Past>
    requires { entry.now ≢ zero_ℚ }
    ensures lower { IfOk result (λ r. r.lower ≡ shifted_low Push entry.now taken.now weights.lower weights.upper) }
    ensures upper { IfOk result (λ r. r.upper ≡ shifted_high Push entry.now taken.now weights.lower weights.upper) }
    ensures fits { IsOk result ↔ ShiftFits Push entry.now taken.now weights.lower weights.upper }
{
    let product = taken.mul(entry)?;
    let EndWeights { lower, upper } = weights;
    if entry.is_positive() {
        let upper = upper.add(&product)?;
        Ok(EndWeights { lower, upper })
    } else {
        let lower = lower.sub(&product)?;
        Ok(EndWeights { lower, upper })
    }
}

/// The weights of a column from which a row takes weight at its upper side.
///
/// # Errors
/// [`Past`] exactly where the product, the sum or the difference is.
#[tactic(auto, using(crate::proofs::Factors::below_is, crate::proofs::Shiftings::above_not))]
fn pulled(entry: &Frac, taken: &Frac, weights: EndWeights) -> Result<EndWeights, Past>
    requires { entry.now ≢ zero_ℚ }
    ensures lower { IfOk result (λ r. r.lower ≡ shifted_low Pull entry.now taken.now weights.lower weights.upper) }
    ensures upper { IfOk result (λ r. r.upper ≡ shifted_high Pull entry.now taken.now weights.lower weights.upper) }
    ensures fits { IsOk result ↔ ShiftFits Pull entry.now taken.now weights.lower weights.upper }
{
    let product = taken.mul(entry)?;
    let EndWeights { lower, upper } = weights;
    if entry.is_positive() {
        let lower = lower.add(&product)?;
        Ok(EndWeights { lower, upper })
    } else {
        let upper = upper.sub(&product)?;
        Ok(EndWeights { lower, upper })
    }
}

/// The weights of a column that was put at the end that gives its row the most.
///
/// # Errors
/// [`Past`] exactly where the product, the sum or the difference is.
#[tactic(auto, using(crate::proofs::Factors::below_is))]
fn forced_to_greatest(entry: &Frac, taken: &Frac, weights: EndWeights) -> Result<EndWeights, Past>
    requires { entry.now ≢ zero_ℚ }
    ensures lower { IfOk result (λ r. r.lower ≡ shifted_low ForceLower entry.now taken.now weights.lower weights.upper) }
    ensures upper { IfOk result (λ r. r.upper ≡ shifted_high ForceLower entry.now taken.now weights.lower weights.upper) }
    ensures fits { IsOk result ↔ ShiftFits ForceLower entry.now taken.now weights.lower weights.upper }
{
    let product = taken.mul(entry)?;
    let EndWeights { lower, upper } = weights;
    if entry.is_positive() {
        let upper = gained(&upper, &product, &lower)?;
        Ok(EndWeights {
            lower: Frac::zero(),
            upper,
        })
    } else {
        let lower = gained(&lower, &product.neg(), &upper)?;
        Ok(EndWeights {
            lower,
            upper: Frac::zero(),
        })
    }
}

/// The weights of a column that was put at the end that gives its row the least.
///
/// # Errors
/// [`Past`] exactly where the product, the sum or the difference is.
#[tactic(auto, using(crate::proofs::Factors::below_is))]
fn forced_to_least(entry: &Frac, taken: &Frac, weights: EndWeights) -> Result<EndWeights, Past>
    requires { entry.now ≢ zero_ℚ }
    ensures lower { IfOk result (λ r. r.lower ≡ shifted_low ForceUpper entry.now taken.now weights.lower weights.upper) }
    ensures upper { IfOk result (λ r. r.upper ≡ shifted_high ForceUpper entry.now taken.now weights.lower weights.upper) }
    ensures fits { IsOk result ↔ ShiftFits ForceUpper entry.now taken.now weights.lower weights.upper }
{
    let product = taken.mul(entry)?;
    let EndWeights { lower, upper } = weights;
    if entry.is_positive() {
        let lower = gained(&lower, &product, &upper)?;
        Ok(EndWeights {
            lower,
            upper: Frac::zero(),
        })
    } else {
        let upper = gained(&upper, &product.neg(), &lower)?;
        Ok(EndWeights {
            lower: Frac::zero(),
            upper,
        })
    }
}

/// The weights of one column that is not left out.
///
/// # Errors
/// [`Past`] exactly where the product, the sum or the difference is.
fn shifted(
    shift: Shift,
    entry: &Frac,
    taken: &Frac,
    weights: EndWeights,
) -> Result<EndWeights, Past>
    requires { entry.now ≢ zero_ℚ }
    ensures lower { IfOk result (λ r. r.lower ≡ shifted_low shift entry.now taken.now weights.lower weights.upper) }
    ensures upper { IfOk result (λ r. r.upper ≡ shifted_high shift entry.now taken.now weights.lower weights.upper) }
    ensures fits { IsOk result ↔ ShiftFits shift entry.now taken.now weights.lower weights.upper }
{
    match shift {
        Shift::Push => pushed(entry, taken, weights),
        Shift::Pull => pulled(entry, taken, weights),
        Shift::ForceLower => forced_to_greatest(entry, taken, weights),
        Shift::ForceUpper => forced_to_least(entry, taken, weights),
    }
}

/// Whether a column is left out.
fn is_left_out(out: Option<u32>, column: u32) -> bool
    ensures { result ≡ is_out out column }
{
    match out {
        None => false,
        Some(left) => column == left,
    }
}

/// The weights of one column, which may be left out.
///
/// # Errors
/// [`Past`] exactly where it isn't left out, and a number on the way is.
fn shifted_unless(
    shift: Shift,
    out: Option<u32>,
    term: &Term,
    taken: &Frac,
    weights: EndWeights,
) -> Result<EndWeights, Past>
    requires { term.now.value ≢ zero_ℚ }
    ensures lower { IfOk result (λ r. r.lower ≡ low_after shift out term.now.id term.now.value taken.now weights.lower weights.upper) }
    ensures upper { IfOk result (λ r. r.upper ≡ high_after shift out term.now.id term.now.value taken.now weights.lower weights.upper) }
    ensures fits { IsOk result ↔ OneFits shift out term.now.id term.now.value taken.now weights.lower weights.upper }
{
    if is_left_out(out, term.id) {
        Ok(weights)
    } else {
        shifted(shift, &term.value, taken, weights)
    }
}

/// Shifts the weights of one column.
///
/// # Errors
/// [`Past`] exactly where it isn't left out, and a number on the way is.
fn shift_column(
    shift: Shift,
    out: Option<u32>,
    term: &Term,
    taken: &Frac,
    ray: &mut Ray,
) -> Result<(), Past>
    requires value { term.now.value ≢ zero_ℚ }
    requires lower { term.now.id < length ray.old.lower_bounds }
    requires upper { term.now.id < length ray.old.upper_bounds }
    ensures lower_size { length ray.new.lower_bounds ≡ length ray.old.lower_bounds }
    ensures upper_size { length ray.new.upper_bounds ≡ length ray.old.upper_bounds }
    ensures lower_sides { ray.new.lower_sides ≡ ray.old.lower_sides }
    ensures upper_sides { ray.new.upper_sides ≡ ray.old.upper_sides }
    ensures lower { OnOk result (vector_of ray.new.lower_bounds ≡ put (vector_of ray.old.lower_bounds) term.now.id (low_after shift out term.now.id term.now.value taken.now (vector_of ray.old.lower_bounds term.now.id) (vector_of ray.old.upper_bounds term.now.id))) }
    ensures upper { OnOk result (vector_of ray.new.upper_bounds ≡ put (vector_of ray.old.upper_bounds) term.now.id (high_after shift out term.now.id term.now.value taken.now (vector_of ray.old.lower_bounds term.now.id) (vector_of ray.old.upper_bounds term.now.id))) }
    ensures fits { IsOk result ↔ OneFits shift out term.now.id term.now.value taken.now (vector_of ray.old.lower_bounds term.now.id) (vector_of ray.old.upper_bounds term.now.id) }
{
    let weights = EndWeights {
        lower: ray.lower_bound(term.id),
        upper: ray.upper_bound(term.id),
    };
    let after = shifted_unless(shift, out, term, taken, weights)?;
    ray.set_bounds(term.id, after.lower, after.upper);
    Ok(())
}

/// Shifts the weights of the columns of a row, but for one that may be left out.
///
/// # Errors
/// [`Past`] exactly where a number on the way is.
pub fn shift_columns(
    shift: Shift,
    out: Option<u32>,
    entries: &[Term],
    taken: &Frac,
    ray: &mut Ray,
) -> Result<(), Past>
    requires entries { Ascends 0 (length ray.old.lower_bounds) entries.now }
    requires columns { length ray.old.upper_bounds ≡ length ray.old.lower_bounds }
    ensures lower_size { length ray.new.lower_bounds ≡ length ray.old.lower_bounds }
    ensures upper_size { length ray.new.upper_bounds ≡ length ray.old.upper_bounds }
    ensures lower_sides { ray.new.lower_sides ≡ ray.old.lower_sides }
    ensures upper_sides { ray.new.upper_sides ≡ ray.old.upper_sides }
    ensures lower { OnOk result (vector_of ray.new.lower_bounds ≡ (λ k. low_after shift out k (dense entries.now k) taken.now (vector_of ray.old.lower_bounds k) (vector_of ray.old.upper_bounds k))) }
    ensures upper { OnOk result (vector_of ray.new.upper_bounds ≡ (λ k. high_after shift out k (dense entries.now k) taken.now (vector_of ray.old.lower_bounds k) (vector_of ray.old.upper_bounds k))) }
    ensures fits { IsOk result ↔ ShiftsFit shift out entries.now taken.now (weights_of ray.old) }
{
    let mut rest = entries;
    while let Some((term, after)) = rest.split_first() {
        shift_column(shift, out, term, taken, ray)?;
        rest = after;
    }
    Ok(())
}
