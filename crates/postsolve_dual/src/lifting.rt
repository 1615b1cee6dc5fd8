//! The lift of a pair.

ghost use Rattle.std.specs.Prelude.{◌≡◌, ℕ, length, All, IfOk, IfErr, IsOk, OnOk, ◌↔◌};
ghost use Rattle.undo_records.specs.Sound.{IsSound};
ghost use Rattle.undo_pairs.specs.Numbers.{IsSized, priced_of};
ghost use Rattle.undo_pairs.specs.LiftPair.{lift_pair as lift_pair_of};
ghost use Rattle.postsolve_dual.specs.PairRoom.{LiftPairFits, PairStopsAt};

use crate::pair::PairBuf;
use crate::undo::undo_pair;
use exact_numbers::Exact;
use postsolve_primal::Stop;
use std::alloc::{AllocError, Global};
use undo_records::{Records, Undo};

/// Undoes records, the last one first.
fn undo_all<T: Exact>(
    alloc: Global,
    undos: &[Undo],
    pair: &mut PairBuf<T>,
) -> Result<Result<(), Stop>, AllocError>
    requires sound { All (IsSound (length pair.old.duals) (length pair.old.point)) undos.now }
    requires costs { length pair.old.reduced_costs ≡ length pair.old.point }
    ensures sized { (m n : ℕ) → IsSized m n pair.old → IsSized m n pair.new }
    ensures lifted { IfOk result (λ r. OnOk r (priced_of pair.new ≡ lift_pair_of undos.now (priced_of pair.old))) }
    ensures fits { IfOk result (λ r. IsOk r ↔ LiftPairFits T.room undos.now (priced_of pair.old)) }
    ensures stopped { IfOk result (λ r. IfErr r (λ stop. PairStopsAt T.room undos.now (priced_of pair.old) stop.at)) }
{
    let mut left = undos.len();
    while left > 0 {
        match undo_pair(alloc, &undos[left - 1], pair) {
            Ok(()) => left -= 1,
            Err(why) => {
                if T::says_past(why) {
                    return Ok(Err(Stop { at: left }));
                }
                return Err(AllocError);
            }
        }
    }
    Ok(Ok(()))
}

/// Undoes all records, the last one first, each on the point before the duals: the pair of the reduced program becomes one of the
/// original program. After an error the pair is spent.
///
/// The lift ends with [`Stop`] exactly where a number that undoing computes has no room in its kind, with the first record, from the last
/// on, that has one.
///
/// # Errors
/// No memory for a number.
pub fn lift_pair<T: Exact>(
    alloc: Global,
    records: &Records,
    pair: &mut PairBuf<T>,
) -> Result<Result<(), Stop>, AllocError>
    requires sized { IsSized (length records.now.rows) (length records.now.columns) pair.old }
    ensures sized { IsSized (length records.now.rows) (length records.now.columns) pair.new }
    ensures lifted { IfOk result (λ r. OnOk r (priced_of pair.new ≡ lift_pair_of records.now.undos (priced_of pair.old))) }
    ensures fits { IfOk result (λ r. IsOk r ↔ LiftPairFits T.room records.now.undos (priced_of pair.old)) }
    ensures stopped { IfOk result (λ r. IfErr r (λ stop. PairStopsAt T.room records.now.undos (priced_of pair.old) stop.at)) }
{
    records.is_sound();
    undo_all(alloc, records.undos(), pair)
}
