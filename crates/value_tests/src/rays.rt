//! Undone records that runs hardly use on the way back of a ray: K10 and K17.

ghost use Rattle.std.specs.Prelude.{IfOk};
ghost use Rattle.lp_rays.specs.RayData.{IsSized};

use fractions::frac::Frac;
use fractions::whole::Whole;
use lp_rays::Ray;
use ray_lift::weigh;
use std::alloc::{AllocError, Global};
use std::test::Fail;
use undo_records::{ColumnRecord, Undo};

/// A whole number.
fn whole(number: i64) -> Frac {
    Frac::whole(Whole::new(number as i128))
}

/// The weights of one row, which are 5 and 0, and of one column.
fn ray_of(alloc: Global, lower: i64, upper: i64) -> Result<Ray, AllocError>
    ensures { IfOk result (IsSized 1 1) }
{
    let mut ray = Ray::without_weights(alloc, 1, 1)?;
    ray.set_sides(0, whole(5), Frac::zero());
    ray.set_bounds(0, whole(lower), whole(upper));
    Ok(ray)
}

/// The ray with these weights of the column, once K10 of it is undone.
fn settled(alloc: Global, lower: i64, upper: i64) -> Result<Ray, AllocError>
    ensures { IfOk result (IsSized 1 1) }
{
    let mut ray = ray_of(alloc, lower, upper)?;
    let undo = Undo::DualFixing(ColumnRecord { column: 0 });
    let _ = weigh(&undo, false, false, &mut ray);
    Ok(ray)
}

/// The same, once K17 of it is undone.
fn cleared(alloc: Global, lower: i64, upper: i64) -> Result<Ray, AllocError>
    ensures { IfOk result (IsSized 1 1) }
{
    let mut ray = ray_of(alloc, lower, upper)?;
    let undo = Undo::EmptyColumn(ColumnRecord { column: 0 });
    let _ = weigh(&undo, false, false, &mut ray);
    Ok(ray)
}

#[test]
fn dual_fixing_hands_back_the_difference(rt: HostRuntime) -> Result<(), Fail> {
    // The weights of both bounds before, and after.
    let table = [(0, 0, 0, 0), (3, 1, 2, 0), (1, 3, 0, 2), (4, 4, 0, 0)];
    for (lower, upper, left_lower, left_upper) in table {
        let ray = settled(rt.alloc(), lower, upper)?;
        assert!(rt; ray.lower_bound(0).is_same(&whole(left_lower)));
        assert!(rt; ray.upper_bound(0).is_same(&whole(left_upper)));
    }
    Ok(())
}

#[test]
fn an_empty_column_has_no_weight(rt: HostRuntime) -> Result<(), Fail> {
    let ray = cleared(rt.alloc(), 3, 1)?;
    assert!(rt; ray.lower_bound(0).is_zero());
    assert!(rt; ray.upper_bound(0).is_zero());
    assert!(rt; ray.lower_side(0).is_same(&whole(5)));
    Ok(())
}
