//! The point that is being lifted.

ghost use Rattle.std.specs.Prelude.{◌≡◌, IfOk, drop, length, map};
ghost use Rattle.std.specs.Vec.Iter.{into_iter_items};
ghost use Rattle.lp_model.specs.Vectors.{vector_of};
ghost use Rattle.undo_records.specs.Lift.{placed as placed_of};

use exact_numbers::{Exact, Numbers};
use std::alloc::{AllocError, Global};
use std::vec::IntoIter;
use undo_records::{Label, Records};

/// The next number, 0 where none is left.
fn next_or_zero<T: Exact>(left: &mut IntoIter<T>) -> T
    ensures value { T.number result ≡ vector_of (map T.number (into_iter_items left.old)) 0 }
    ensures rest { map T.number (into_iter_items left.new) ≡ drop 1 (map T.number (into_iter_items left.old)) }
{
    match left.next() {
        Some(number) => number,
        None => T::zero(),
    }
}

/// A number for each column: the next of the numbers for a live one, 0 for a deleted one.
///
/// # Errors
/// No memory.
pub fn placed<T: Exact>(
    alloc: Global,
    columns: &[Label],
    numbers: Numbers<T>,
) -> Result<Numbers<T>, AllocError>
    ensures { IfOk result (λ values. values ≡ placed_of columns.now numbers) }
{
    let mut values = Vec::with_capacity(alloc, columns.len())?;
    let mut left = numbers.into_vec().into_iter();
    let mut rest = columns;
    while let [column, after @ ..] = rest {
        let value = if column.live {
            next_or_zero(&mut left)
        } else {
            T::zero()
        };
        values.push(value)?;
        rest = after;
    }
    Ok(Numbers::of(values))
}

/// A point of the reduced program at the original columns: each live column has the next of its numbers, each deleted one 0.
/// Numbers past the last live column are not read, and a live column past the last number has 0.
///
/// # Errors
/// No memory.
#[tactic(auto, using(crate::proofs::Points::placed_length))]
pub fn at_columns<T: Exact>(
    alloc: Global,
    records: &Records,
    point: Numbers<T>,
) -> Result<Numbers<T>, AllocError>
    ensures placed { IfOk result (λ values. values ≡ placed_of records.now.columns point) }
    ensures size { IfOk result (λ values. length values ≡ length records.now.columns) }
{
    placed(alloc, records.columns(), point)
}
