//! The check of a ray.

ghost use Rattle.std.specs.Prelude.{◌<◌, ◌^◌, ◌↔◌, length, IsTrue, MatchOption};
ghost use Rattle.lp_model.specs.Meaning.{meaning};
ghost use Rattle.lp_model.specs.Optimality.{Continuous};
ghost use Rattle.lp_model.specs.Writable.{EntriesAscend};
ghost use Rattle.lp_rays.specs.RayData.{IsSized, weights_of};
ghost use Rattle.ray_check.specs.Deciding.{ColumnHolds, ColumnPasses, RowsPass, ColumnsPass, BeforeColumn, BeforeTotal, DecidesRay};

use crate::column_sums::column_sum;
use crate::ends::are_weights;
use crate::verdict::RayChecked;
use crate::worths::ray_total;
use lp_model::Program;
use lp_rays::Ray;

/// No, by the first row with a number that is no weight of its side.
fn failing_row(program: &Program, ray: &Ray) -> Option<RayChecked>
    requires sized { IsSized (length program.now.rows) (length program.now.columns) ray.now }
    requires few { length program.now.rows < 2 ^ 32 }
    ensures { MatchOption result (RowsPass program.now (weights_of ray.now) (length program.now.rows)) (λ verdict. DecidesRay program.now (weights_of ray.now) verdict) }
{
    let rows = program.rows();
    let (low, high) = (ray.lower_sides(), ray.upper_sides());
    for i in 0..rows.len() {
        let row = &rows[i];
        if !are_weights(&row.lower, &row.upper, &low[i], &high[i]) {
            return Some(RayChecked::NoRow(i as u32));
        }
    }
    None
}

/// Whether the numbers of a column are weights of its bounds.
fn column_holds(program: &Program, ray: &Ray, column: u32) -> bool
    requires sized { IsSized (length program.now.rows) (length program.now.columns) ray.now }
    requires within { column < length program.now.columns }
    requires continuous { Continuous (meaning program.now) }
    ensures { IsTrue result ↔ ColumnHolds (meaning program.now) (weights_of ray.now) column }
{
    let bounds = &program.columns()[column as usize];
    are_weights(
        &bounds.lower,
        &bounds.upper,
        &ray.lower_bound(column),
        &ray.upper_bound(column),
    )
}

/// No or past, where a column does not pass.
fn column_verdict(program: &Program, ray: &Ray, column: u32) -> Option<RayChecked>
    requires sized { IsSized (length program.now.rows) (length program.now.columns) ray.now }
    requires ascends { EntriesAscend program.now }
    requires within { column < length program.now.columns }
    requires continuous { Continuous (meaning program.now) }
    ensures { BeforeColumn program.now (weights_of ray.now) column → MatchOption result (ColumnPasses program.now (weights_of ray.now) column) (λ verdict. DecidesRay program.now (weights_of ray.now) verdict) }
{
    if !column_holds(program, ray, column) {
        return Some(RayChecked::NoColumn(column));
    }
    match column_sum(program, ray, column) {
        Ok(sum) if sum.is_zero() => None,
        Ok(_) => Some(RayChecked::NoColumn(column)),
        Err(_) => Some(RayChecked::PastColumn(column)),
    }
}

/// No or past, by the first column that does not pass.
fn failing_column(program: &Program, ray: &Ray) -> Option<RayChecked>
    requires sized { IsSized (length program.now.rows) (length program.now.columns) ray.now }
    requires few { length program.now.columns < 2 ^ 32 }
    requires ascends { EntriesAscend program.now }
    requires continuous { Continuous (meaning program.now) }
    requires rows { RowsPass program.now (weights_of ray.now) (length program.now.rows) }
    ensures { MatchOption result (ColumnsPass program.now (weights_of ray.now) (length program.now.columns)) (λ verdict. DecidesRay program.now (weights_of ray.now) verdict) }
{
    for j in 0..program.columns().len() {
        if let Some(verdict) = column_verdict(program, ray, j as u32) {
            return Some(verdict);
        }
    }
    None
}

/// The verdict on the total, where all rows and columns pass.
fn total_verdict(program: &Program, ray: &Ray) -> RayChecked
    requires sized { IsSized (length program.now.rows) (length program.now.columns) ray.now }
    requires continuous { Continuous (meaning program.now) }
    requires before { BeforeTotal program.now (weights_of ray.now) }
    ensures { DecidesRay program.now (weights_of ray.now) result }
{
    match ray_total(program, ray) {
        Ok(total) if total.is_positive() => RayChecked::Yes,
        Ok(total) => RayChecked::NoTotal(total),
        Err(_) => RayChecked::PastTotal,
    }
}

/// The verdict on a ray of a program without whole and semi-continuous columns: that of the first item that does not pass, and yes
/// where each item does. The items are the rows by id, the columns by id, and the total.
///
/// The numbers of a row pass where neither is below 0 and none but 0 stands at an infinite side; so do those of a column, by its
/// bounds. The column's sum then has to be 0: over its entries by ascending row, from 0 on, each times the weight of its row's
/// lower side less that of the upper side; then plus the weight of the lower bound, and less that of the upper bound. The total
/// has to be above 0: the sums of the lower sides, the upper sides, the lower bounds and the upper bounds, each times its weight, by
/// id; the second is taken from the first, then the third is added and the fourth taken away. Where a step has no room in a
/// [`Frac`](fractions::frac::Frac), the item is past.
///
/// Yes is a proof that no point is feasible ([`laws`](crate::laws)). It goes over each entry once, and takes no memory.
pub fn check_ray(program: &Program, ray: &Ray) -> RayChecked
    requires sized { IsSized (length program.now.rows) (length program.now.columns) ray.now }
    requires few_rows { length program.now.rows < 2 ^ 32 }
    requires few_columns { length program.now.columns < 2 ^ 32 }
    requires ascends { EntriesAscend program.now }
    requires continuous { Continuous (meaning program.now) }
    ensures { DecidesRay program.now (weights_of ray.now) result }
{
    if let Some(verdict) = failing_row(program, ray) {
        return verdict;
    }
    match failing_column(program, ray) {
        Some(verdict) => verdict,
        None => total_verdict(program, ray),
    }
}
