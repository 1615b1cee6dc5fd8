//! The sums of columns.

ghost use Rattle.std.specs.Prelude.{◌≡◌, ◌<◌, ◌↔◌, length, IfOk, IsOk};
ghost use Rattle.lp_model.specs.Meaning.{meaning};
ghost use Rattle.lp_model.specs.Writable.{EntriesAscend};
ghost use Rattle.lp_rays.specs.Ray.{net_at};
ghost use Rattle.lp_rays.specs.RayData.{IsSized, weights_of};
ghost use Rattle.ray_check.specs.Room.{ColumnFits};

use fractions::Past;
use fractions::frac::Frac;
use lp_model::Program;
use lp_rays::{Ray, net};

/// The sum of a column: over its entries, then with the weight of the lower bound, and without that of the upper bound.
///
/// # Errors
/// [`Past`] exactly where the sum over the entries, or one of the two that follow, has no room.
pub fn column_sum(program: &Program, ray: &Ray, column: u32) -> Result<Frac, Past>
    requires sized { IsSized (length program.now.rows) (length program.now.columns) ray.now }
    requires ascends { EntriesAscend program.now }
    requires within { column < length program.now.columns }
    ensures value { IfOk result (λ r. r ≡ net_at (meaning program.now) (weights_of ray.now) column) }
    ensures fits { IsOk result ↔ ColumnFits program.now (weights_of ray.now) column }
{
    let entries = &program.columns()[column as usize].entries;
    let sum = net(entries.as_slice(), ray)?;
    let sum = sum.add(&ray.lower_bound(column))?;
    sum.sub(&ray.upper_bound(column))
}
