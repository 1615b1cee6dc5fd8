//! Undoings of forcing rows.

ghost use Rattle.std.specs.Prelude.{◌≡◌, ◌≢◌, ℕ, ◌<◌, length, IfOk, IsOk, OnOk, ◌↔◌};
ghost use Rattle.fractions.specs.Number.{zero_ℚ, ◌+ℚ◌};
ghost use Rattle.fractions.specs.Lowest.{Fits};
ghost use Rattle.fractions.specs.FracWords.{SumFits};
ghost use Rattle.lp_model.specs.Vectors.{vector_of};
ghost use Rattle.lp_model.specs.Sparse.{Ascends};
ghost use Rattle.undo_records.specs.Sound.{IsSound};
ghost use Rattle.undo_records.specs.declared.undo.Undo.TheVariants as kind;
ghost use Rattle.lp_rays.specs.RayData.{IsSized, weights_of};
ghost use Rattle.ray_steps.specs.StepBack.{ratio as ratio_of, ratios as ratios_of, take_ratios};
ghost use Rattle.ray_steps.specs.RayRoom.{ForcingFits, RatiosFit};

use crate::shares::EndWeights;
use crate::shifting::shift_columns;
use fractions::Past;
use fractions::frac::Frac;
use lp_model::Term;
use lp_rays::Ray;
use ray_steps::Shift;
use undo_records::{ForcingRow, Side};

/// What a forcing row has to take of a column.
///
/// # Errors
/// [`Past`] exactly where the quotient is.
#[tactic(auto, using(crate::proofs::Factors::negative_not, crate::proofs::Factors::below_is))]
fn ratio(side: Side, entry: &Frac, weights: EndWeights) -> Result<Frac, Past>
    requires { entry.now ≢ zero_ℚ }
    ensures value { IfOk result (λ r. r ≡ ratio_of side entry.now weights.lower weights.upper) }
    ensures fits { IsOk result ↔ Fits (ratio_of side entry.now weights.lower weights.upper) }
{
    match side {
        Side::Lower => {
            if entry.is_positive() {
                weights.lower.div(entry)
            } else {
                weights.upper.div(&entry.neg())
            }
        }
        Side::Upper => {
            if entry.is_positive() {
                weights.upper.div(entry)
            } else {
                weights.lower.div(&entry.neg())
            }
        }
    }
}

/// A sum with what a forcing row has to take of one column more.
fn with_ratio(sum: &Frac, side: Side, term: &Term, ray: &Ray) -> Result<Frac, Past>
    requires value { term.now.value ≢ zero_ℚ }
    requires lower { term.now.id < length ray.now.lower_bounds }
    requires upper { term.now.id < length ray.now.upper_bounds }
    ensures value { IfOk result (λ r. r ≡ sum.now +ℚ ratio_of side term.now.value (vector_of ray.now.lower_bounds term.now.id) (vector_of ray.now.upper_bounds term.now.id)) }
    ensures fits { IsOk result ↔ (Fits (ratio_of side term.now.value (vector_of ray.now.lower_bounds term.now.id) (vector_of ray.now.upper_bounds term.now.id)) × SumFits sum.now (ratio_of side term.now.value (vector_of ray.now.lower_bounds term.now.id) (vector_of ray.now.upper_bounds term.now.id))) }
{
    let weights = EndWeights {
        lower: ray.lower_bound(term.id),
        upper: ray.upper_bound(term.id),
    };
    let part = ratio(side, &term.value, weights)?;
    sum.add(&part)
}

/// What a forcing row has to take of its columns.
///
/// # Errors
/// [`Past`] exactly where a quotient or a sum on the way is.
fn ratios(side: Side, entries: &[Term], ray: &Ray) -> Result<Frac, Past>
    requires entries { Ascends 0 (length ray.now.lower_bounds) entries.now }
    requires columns { length ray.now.upper_bounds ≡ length ray.now.lower_bounds }
    ensures value { IfOk result (λ r. r ≡ ratios_of side entries.now (weights_of ray.now)) }
    ensures fits { IsOk result ↔ RatiosFit side zero_ℚ entries.now (weights_of ray.now) }
{
    let mut sum = Frac::zero();
    let mut rest = entries;
    while let Some((term, after)) = rest.split_first() {
        sum = with_ratio(&sum, side, term, ray)?;
        rest = after;
    }
    Ok(sum)
}

/// K7: the row takes what its columns need.
///
/// # Errors
/// [`Past`] exactly where a number on the way is.
pub fn weigh_forcing_row(undo: &ForcingRow, ray: &mut Ray) -> Result<(), Past>
    requires sound { IsSound (length ray.old.lower_sides) (length ray.old.lower_bounds) (kind.ForcingRow undo.now) }
    requires rows { length ray.old.upper_sides ≡ length ray.old.lower_sides }
    requires columns { length ray.old.upper_bounds ≡ length ray.old.lower_bounds }
    ensures sized { (m n : ℕ) → IsSized m n ray.old → IsSized m n ray.new }
    ensures lifted { OnOk result (weights_of ray.new ≡ take_ratios undo.now.side undo.now.row undo.now.entries (ratios_of undo.now.side undo.now.entries (weights_of ray.old)) (weights_of ray.old)) }
    ensures fits { IsOk result ↔ ForcingFits undo.now.side undo.now.entries (weights_of ray.old) }
{
    let entries = undo.entries.as_slice();
    let taken = ratios(undo.side, entries, ray)?;
    match undo.side {
        Side::Lower => {
            shift_columns(Shift::ForceLower, None, entries, &taken, ray)?;
            ray.set_lower_side(undo.row, taken);
            Ok(())
        }
        Side::Upper => {
            shift_columns(Shift::ForceUpper, None, entries, &taken, ray)?;
            ray.set_upper_side(undo.row, taken);
            Ok(())
        }
    }
}
