//! The costs of columns.

ghost use Rattle.std.specs.Prelude.{◌≡◌, ◌==◌, ◌<◌, ℕ, length, IfOk, if◌then◌else◌, unwrap_or};
ghost use Rattle.fractions.specs.Number.{zero_ℚ};
ghost use Rattle.mps_stores.specs.Entries.{value_in, IsOnce};
ghost use Rattle.mps_assembly.specs.Columnwise.{cost_at};

use fractions::frac::Frac;
use mps_stores::Entry;
use std::alloc::{AllocError, Global};

/// Costs of 0.
fn no_costs(alloc: Global, count: usize) -> Result<Vec<Frac>, AllocError>
    ensures count { IfOk result (λ costs. length costs.items ≡ count) }
    ensures zero { IfOk result (λ costs. (j : ℕ) → cost_at costs.items j ≡ zero_ℚ) }
{
    let mut costs = Vec::with_capacity(alloc, count)?;
    for _ in 0..count {
        costs.push(Frac::zero())?;
    }
    Ok(costs)
}

/// Sets the cost of an entry's column. A column past the last is left out.
pub fn set_cost(costs: &mut Vec<Frac>, entry: Entry)
    ensures count { length costs.new.items ≡ length costs.old.items }
    ensures set { (j : ℕ) → j < length costs.old.items → cost_at costs.new.items j ≡ (if entry.column == j then entry.value else cost_at costs.old.items j) }
{
    if entry.column < costs.len() {
        costs[entry.column] = entry.value;
    }
}

/// The costs of columns: the numbers that the objective's row has there, and 0 elsewhere.
///
/// # Errors
///
/// Where there is no memory.
pub fn costs_by_column(
    alloc: Global,
    row: &[Entry],
    columns: usize,
) -> Result<Vec<Frac>, AllocError>
    requires { IsOnce row.now }
    ensures count { IfOk result (λ costs. length costs.items ≡ columns) }
    ensures costs { IfOk result (λ costs. (j : ℕ) → j < columns → cost_at costs.items j ≡ unwrap_or (value_in row.now j) zero_ℚ) }
{
    let mut costs = no_costs(alloc, columns)?;
    let mut rest = row;
    while let [entry, more @ ..] = rest {
        set_cost(&mut costs, *entry);
        rest = more;
    }
    Ok(costs)
}
