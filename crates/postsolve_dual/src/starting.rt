//! The pair of the reduced program at the original ids.

ghost use Rattle.std.specs.Prelude.{◌≡◌, length, IfOk, IfErr, IsOk, ◌↔◌};
ghost use Rattle.lp_model.specs.Vectors.{vector_of};
ghost use Rattle.lp_model.specs.Writable.{EntriesAscend};
ghost use Rattle.lp_model.specs.Meaning.{meaning};
ghost use Rattle.lp_prices.specs.Prices.{ReducedCostsFitIn};
ghost use Rattle.undo_pairs.specs.Numbers.{IsSized, priced_of, reduced_costs_of, started};
ghost use Rattle.postsolve_dual.specs.PairRoom.{IsFirstPast};

use crate::pair::PairBuf;
use exact_numbers::{Exact, Numbers};
use lp_model::Program;
use lp_prices::reduced_cost;
use postsolve_primal::placed;
use std::alloc::{AllocError, Global};
use undo_records::Records;

/// Where no pair could start: the reduced cost of this column has no room.
#[derive(Clone, Copy, Debug, PartialEq, Eq)]
pub struct Unpriced {
    /// The column of the reduced program, by its present id.
    pub column: usize,
}

/// The reduced costs of all columns, in the sense of the file.
fn reduced_costs<T: Exact>(
    alloc: Global,
    program: &Program,
    duals: &Numbers<T>,
) -> Result<Result<Numbers<T>, Unpriced>, AllocError>
    requires each { length duals.now ≡ length program.now.rows }
    requires ascends { EntriesAscend program.now }
    ensures costs { IfOk result (λ r. IfOk r (λ costs. costs ≡ reduced_costs_of (meaning program.now) (vector_of duals.now) (length program.now.columns))) }
    ensures fits { IfOk result (λ r. IsOk r ↔ ReducedCostsFitIn T.room (meaning program.now) (vector_of duals.now)) }
    ensures first { IfOk result (λ r. IfErr r (λ unpriced. IsFirstPast T.room (meaning program.now) (vector_of duals.now) unpriced.column)) }
{
    let count = program.columns().len();
    let mut costs = Vec::with_capacity(alloc, count)?;
    for j in 0..count {
        match reduced_cost(alloc, program, j, duals.as_slice()) {
            Ok(cost) => costs.push(cost)?,
            Err(why) => {
                if T::says_past(why) {
                    return Ok(Err(Unpriced { column: j }));
                }
                return Err(AllocError);
            }
        }
    }
    Ok(Ok(Numbers::of(costs)))
}

impl<T: Exact> PairBuf<T> {
    /// A pair of the reduced program at the original ids, with its reduced costs: each live column and row has the next of the numbers,
    /// each deleted one 0. Point and duals are in the sense of the file; the pair is in the minimizing one. Numbers past the last live
    /// column or row are not read, and a live one past the last number has 0.
    ///
    /// It is [`Unpriced`] exactly where a reduced cost has no room in this kind of numbers, with the first such column: each is the cost less
    /// the sum of the column's entries, each times the dual of its row, and the sum goes by ascending row, from 0 on.
    ///
    /// # Errors
    /// No memory for a number.
    #[tactic(auto, using(postsolve_primal::proofs::Points::placed_length))]
    pub fn new(
        alloc: Global,
        records: &Records,
        program: &Program,
        point: Numbers<T>,
        duals: Numbers<T>,
    ) -> Result<Result<PairBuf<T>, Unpriced>, AllocError>
        requires each { length duals ≡ length program.now.rows }
        requires ascends { EntriesAscend program.now }
        ensures started { IfOk result (λ r. IfOk r (λ pair. priced_of pair ≡ started records.now program.now point duals)) }
        ensures sized { IfOk result (λ r. IfOk r (λ pair. IsSized (length records.now.rows) (length records.now.columns) pair)) }
        ensures fits { IfOk result (λ r. IsOk r ↔ ReducedCostsFitIn T.room (meaning program.now) (vector_of duals)) }
        ensures first { IfOk result (λ r. IfErr r (λ unpriced. IsFirstPast T.room (meaning program.now) (vector_of duals) unpriced.column)) }
    {
        let costs = match reduced_costs(alloc, program, &duals)? {
            Ok(costs) => costs,
            Err(unpriced) => return Ok(Err(unpriced)),
        };
        let mut pair = PairBuf {
            point: placed(alloc, records.columns(), point)?,
            duals: placed(alloc, records.rows(), duals)?,
            reduced_costs: placed(alloc, records.columns(), costs)?,
        };
        pair.turn(records.sense());
        Ok(Ok(pair))
    }
}
