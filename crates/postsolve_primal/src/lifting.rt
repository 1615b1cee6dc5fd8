//! The lift of a point.

ghost use Rattle.std.specs.Prelude.{◌≡◌, length, All, IfOk, IfErr, IsOk, OnOk, ◌↔◌};
ghost use Rattle.lp_model.specs.Vectors.{vector_of};
ghost use Rattle.undo_records.specs.Lift.{lift as lift_of};
ghost use Rattle.undo_records.specs.Room.{LiftFits, StopsAt};
ghost use Rattle.undo_records.specs.Sound.{CanUndo};

use crate::undo::undo_one;
use exact_numbers::{Exact, Numbers};
use std::alloc::{AllocError, Global};
use undo_records::{Records, Undo};

/// Where a lift stopped: a number that undoing this record computes has no room.
#[derive(Clone, Copy, Debug, PartialEq, Eq)]
pub struct Stop {
    /// The record's number, from 1 on.
    pub at: usize,
}

/// Undoes records, the last one first.
fn undo_all<T: Exact>(
    alloc: Global,
    undos: &[Undo],
    point: &mut Numbers<T>,
) -> Result<Result<(), Stop>, AllocError>
    requires { All (CanUndo (length point.old)) undos.now }
    ensures size { length point.new ≡ length point.old }
    ensures lifted { IfOk result (λ r. OnOk r (vector_of point.new ≡ lift_of undos.now (vector_of point.old))) }
    ensures fits { IfOk result (λ r. IsOk r ↔ LiftFits T.room undos.now (vector_of point.old)) }
    ensures stopped { IfOk result (λ r. IfErr r (λ stop. StopsAt T.room undos.now (vector_of point.old) stop.at)) }
{
    let mut left = undos.len();
    while left > 0 {
        match undo_one(alloc, &undos[left - 1], point) {
            Ok(()) => left -= 1,
            Err(why) => {
                if T::says_past(why) {
                    return Ok(Err(Stop { at: left }));
                }
                return Err(AllocError);
            }
        }
    }
    Ok(Ok(()))
}

/// Undoes all records, the last one first: the point of the reduced program becomes one of the original program. After an error
/// the point is spent.
///
/// The lift ends with [`Stop`] exactly where a number that undoing computes has no room in its kind, with the first record, from the last
/// on, that has one.
///
/// # Errors
/// No memory for a number.
pub fn lift<T: Exact>(
    alloc: Global,
    records: &Records,
    point: &mut Numbers<T>,
) -> Result<Result<(), Stop>, AllocError>
    requires size { length point.old ≡ length records.now.columns }
    ensures size { length point.new ≡ length point.old }
    ensures lifted { IfOk result (λ r. OnOk r (vector_of point.new ≡ lift_of records.now.undos (vector_of point.old))) }
    ensures fits { IfOk result (λ r. IsOk r ↔ LiftFits T.room records.now.undos (vector_of point.old)) }
    ensures stopped { IfOk result (λ r. IfErr r (λ stop. StopsAt T.room records.now.undos (vector_of point.old) stop.at)) }
{
    records.can_lift();
    undo_all(alloc, records.undos(), point)
}
