//! The net of a column's rows.

ghost use Rattle.std.specs.Prelude.{◌≡◌, ◌<◌, length, IfOk, IsOk, ◌↔◌};
ghost use Rattle.fractions.specs.Number.{zero_ℚ, ◌+ℚ◌};
ghost use Rattle.lp_model.specs.Sparse.{Ascends};
ghost use Rattle.lp_rays.specs.Nets.{NetFits, TermFits, net_of, net_term};
ghost use Rattle.lp_rays.specs.RayData.{weights_of};

use crate::ray::Ray;
use fractions::Past;
use fractions::frac::Frac;
use lp_model::Term;

/// A sum with the product of an entry and its row's net weight.
///
/// # Errors
/// [`Past`] exactly where the difference, the product or the sum is.
fn with_net(sum: &Frac, entry: &Term, ray: &Ray) -> Result<Frac, Past>
    requires lower { entry.now.id < length ray.now.lower_sides }
    requires upper { entry.now.id < length ray.now.upper_sides }
    ensures value { IfOk result (λ r. r ≡ sum.now +ℚ net_term (weights_of ray.now) entry.now) }
    ensures fits { IsOk result ↔ TermFits sum.now entry.now (weights_of ray.now) }
{
    let difference = ray.lower_side(entry.id).sub(&ray.upper_side(entry.id))?;
    let product = difference.mul(&entry.value)?;
    sum.add(&product)
}

/// The sum of a column's entries, each times the net weight of its row.
///
/// # Errors
/// [`Past`] exactly where a difference, a product or a sum on the way is.
pub fn net(entries: &[Term], ray: &Ray) -> Result<Frac, Past>
    requires lower { Ascends 0 (length ray.now.lower_sides) entries.now }
    requires upper { length ray.now.upper_sides ≡ length ray.now.lower_sides }
    ensures value { IfOk result (λ r. r ≡ net_of entries.now (weights_of ray.now)) }
    ensures fits { IsOk result ↔ NetFits zero_ℚ entries.now (weights_of ray.now) }
{
    let mut sum = Frac::zero();
    let mut rest = entries;
    while let Some((entry, after)) = rest.split_first() {
        sum = with_net(&sum, entry, ray)?;
        rest = after;
    }
    Ok(sum)
}
