//! The weights of the bounds that give a row its least, or its greatest, activity.

ghost use Rattle.std.specs.Prelude.{◌≡◌, ℕ, length};
ghost use Rattle.fractions.specs.Number.{zero_ℚ};
ghost use Rattle.lp_model.specs.Sparse.{Ascends, dense};
ghost use Rattle.lp_model.specs.Vectors.{vector_of};
ghost use Rattle.ray_starts.specs.EndWeights.{lower_weight, upper_weight};

use fractions::frac::Frac;
use lp_model::Term;
use lp_rays::Ray;
use row_spans::Extreme;

/// The weights of a column's lower and upper bound.
fn weights_at(extreme: Extreme, entry: &Frac) -> (Frac, Frac)
    ensures lower { result.0 ≡ lower_weight extreme entry.now }
    ensures upper { result.1 ≡ upper_weight extreme entry.now }
{
    let zero = Frac::zero();
    match extreme {
        Extreme::Least if entry.is_positive() => (*entry, zero),
        Extreme::Least => (zero, entry.neg()),
        Extreme::Greatest if entry.is_positive() => (zero, *entry),
        Extreme::Greatest => (entry.neg(), zero),
    }
}

/// Sets the weights of the columns of a row, where no bound has one.
pub(crate) fn weigh_columns(extreme: Extreme, entries: &[Term], ray: &mut Ray)
    requires entries { Ascends 0 (length ray.old.lower_bounds) entries.now }
    requires columns { length ray.old.upper_bounds ≡ length ray.old.lower_bounds }
    requires no_lower { vector_of ray.old.lower_bounds ≡ (λ j. zero_ℚ) }
    requires no_upper { vector_of ray.old.upper_bounds ≡ (λ j. zero_ℚ) }
    ensures lower_size { length ray.new.lower_bounds ≡ length ray.old.lower_bounds }
    ensures upper_size { length ray.new.upper_bounds ≡ length ray.old.upper_bounds }
    ensures lower { vector_of ray.new.lower_bounds ≡ (λ j. lower_weight extreme (dense entries.now j)) }
    ensures upper { vector_of ray.new.upper_bounds ≡ (λ j. upper_weight extreme (dense entries.now j)) }
    ensures lower_sides { ray.new.lower_sides ≡ ray.old.lower_sides }
    ensures upper_sides { ray.new.upper_sides ≡ ray.old.upper_sides }
{
    let mut rest = entries;
    while let Some((term, after)) = rest.split_first() {
        let (lower, upper) = weights_at(extreme, &term.value);
        ray.set_bounds(term.id, lower, upper);
        rest = after;
    }
}
