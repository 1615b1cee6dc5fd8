//! The ray of a verdict.

ghost use Rattle.std.specs.Prelude.{◌≡◌, ℕ, ◌<◌, length, true, IfOk, if◌then◌else◌};
ghost use Rattle.lp_model.specs.Sparse.{Ascends, dense};
ghost use Rattle.lp_rays.specs.Ray.{Ray as IsRay};
ghost use Rattle.lp_rays.specs.RayData.{IsSized, weights_of};
ghost use Rattle.lp_rays.specs.Starts.{at_crossed_column as crossed_column, at_crossed_row as crossed_row, at_row_above, at_row_below, no_weights as none};
ghost use Rattle.problem_model.specs.Showing.{shown};
ghost use Rattle.presolve_model.specs.Enabled.{enabled_on};
ghost use Rattle.presolve_model.specs.Meanings.{says_no_point};
ghost use Rattle.presolve_model.specs.declared.instance.Instance.TheVariants as at;
ghost use Rattle.activity_laws.specs.InfeasibleRow.{enabled};
ghost use Rattle.ray_starts.specs.Starts.{at_missed_side, is_above as misses_above, start_of};

use crate::columns::weigh_columns;
use activities::least;
use fractions::frac::Frac;
use lp_model::Term;
use lp_model::ends::crossed;
use lp_rays::Ray;
use presolve_model::Verdict;
use row_spans::Extreme;
use sparse_problem::Problem;
use std::alloc::{AllocError, Global};

/// No weights of a problem's rows and columns.
fn no_weights(alloc: Global, problem: &Problem) -> Result<Ray, AllocError>
    ensures sized { IfOk result (λ ray. IsSized (length problem.now.matrix.rows) (length problem.now.matrix.columns) ray) }
    ensures none { IfOk result (λ ray. weights_of ray ≡ none) }
{
    Ray::without_weights(alloc, problem.row_count(), problem.column_count())
}

/// V1 at a column: the weight of each of its bounds is 1.
fn at_crossed_column(alloc: Global, problem: &Problem, column: u32) -> Result<Ray, AllocError>
    requires { column < length problem.now.matrix.columns }
    ensures sized { IfOk result (λ ray. IsSized (length problem.now.matrix.rows) (length problem.now.matrix.columns) ray) }
    ensures value { IfOk result (λ ray. weights_of ray ≡ crossed_column column) }
{
    let mut ray = no_weights(alloc, problem)?;
    ray.set_bounds(column, Frac::one(), Frac::one());
    Ok(ray)
}

/// V1 at a row: the weight of each of its sides is 1.
fn at_crossed_row(alloc: Global, problem: &Problem, row: u32) -> Result<Ray, AllocError>
    requires { row < length problem.now.matrix.rows }
    ensures sized { IfOk result (λ ray. IsSized (length problem.now.matrix.rows) (length problem.now.matrix.columns) ray) }
    ensures value { IfOk result (λ ray. weights_of ray ≡ crossed_row row) }
{
    let mut ray = no_weights(alloc, problem)?;
    ray.set_sides(row, Frac::one(), Frac::one());
    Ok(ray)
}

/// Whether a row's least activity is above its upper side.
fn is_above(problem: &Problem, row: u32) -> bool
    requires { enabled problem.now row ≡ true }
    ensures { result ≡ misses_above (shown problem.now) row }
{
    problem.is_sparse();
    let upper = problem.sides(row).upper;
    match least(problem, row, None) {
        Ok(value) => crossed(&value, &upper),
        Err(_) => unreachable!(),
    }
}

/// V2 above: the weight of the row's upper side is 1, and that of each bound that makes the row least is the size of the column's entry.
fn weigh_above(row: u32, entries: &[Term], ray: &mut Ray)
    requires row { row < length ray.old.upper_sides }
    requires entries { Ascends 0 (length ray.old.lower_bounds) entries.now }
    requires columns { length ray.old.upper_bounds ≡ length ray.old.lower_bounds }
    requires none { weights_of ray.old ≡ none }
    ensures sized { (m n : ℕ) → IsSized m n ray.old → IsSized m n ray.new }
    ensures value { weights_of ray.new ≡ at_row_above row (dense entries.now) }
{
    weigh_columns(Extreme::Least, entries, ray);
    ray.set_upper_side(row, Frac::one());
}

/// V2 below: the weight of the row's lower side is 1, and that of each bound that makes the row greatest is the size of the column's entry.
fn weigh_below(row: u32, entries: &[Term], ray: &mut Ray)
    requires row { row < length ray.old.lower_sides }
    requires entries { Ascends 0 (length ray.old.lower_bounds) entries.now }
    requires columns { length ray.old.upper_bounds ≡ length ray.old.lower_bounds }
    requires none { weights_of ray.old ≡ none }
    ensures sized { (m n : ℕ) → IsSized m n ray.old → IsSized m n ray.new }
    ensures value { weights_of ray.new ≡ at_row_below row (dense entries.now) }
{
    weigh_columns(Extreme::Greatest, entries, ray);
    ray.set_lower_side(row, Frac::one());
}

/// V2: above, or below.
fn weigh_missed_side(above: bool, row: u32, entries: &[Term], ray: &mut Ray)
    requires lower { row < length ray.old.lower_sides }
    requires upper { row < length ray.old.upper_sides }
    requires entries { Ascends 0 (length ray.old.lower_bounds) entries.now }
    requires columns { length ray.old.upper_bounds ≡ length ray.old.lower_bounds }
    requires none { weights_of ray.old ≡ none }
    ensures sized { (m n : ℕ) → IsSized m n ray.old → IsSized m n ray.new }
    ensures value { weights_of ray.new ≡ (if above then at_row_above row (dense entries.now) else at_row_below row (dense entries.now)) }
{
    if above {
        weigh_above(row, entries, ray);
    } else {
        weigh_below(row, entries, ray);
    }
}

/// V2 at a row.
fn at_infeasible_row(alloc: Global, problem: &Problem, row: u32) -> Result<Ray, AllocError>
    requires { enabled problem.now row ≡ true }
    ensures sized { IfOk result (λ ray. IsSized (length problem.now.matrix.rows) (length problem.now.matrix.columns) ray) }
    ensures value { IfOk result (λ ray. weights_of ray ≡ at_missed_side (misses_above (shown problem.now) row) (shown problem.now) row) }
{
    problem.is_sparse();
    let above = is_above(problem, row);
    let entries = problem.row_terms(alloc, row)?;
    let mut ray = no_weights(alloc, problem)?;
    weigh_missed_side(above, row, entries.as_slice(), &mut ray);
    Ok(ray)
}

/// The ray of a verdict that is enabled on a problem and says that no point is feasible.
///
/// # Errors
/// Where there is no memory.
pub fn start(alloc: Global, problem: &Problem, verdict: Verdict) -> Result<Ray, AllocError>
    requires enabled { enabled_on problem.now (at.Verdict verdict) ≡ true }
    requires infeasible { says_no_point verdict ≡ true }
    ensures sized { IfOk result (λ ray. IsSized (length problem.now.matrix.rows) (length problem.now.matrix.columns) ray) }
    ensures value { IfOk result (λ ray. weights_of ray ≡ start_of (shown problem.now) verdict) }
    ensures ray { IfOk result (λ ray. IsRay (shown problem.now) (weights_of ray)) }
{
    problem.is_sparse();
    match verdict {
        Verdict::CrossedBounds { column } => at_crossed_column(alloc, problem, column),
        Verdict::CrossedSides { row } => at_crossed_row(alloc, problem, row),
        Verdict::InfeasibleRow { row } => at_infeasible_row(alloc, problem, row),
        Verdict::UnboundedColumn { .. } => unreachable!(),
    }
}
