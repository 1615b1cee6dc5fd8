//! The rows' duals.

ghost use Rattle.std.specs.Prelude.{◌≡◌, ℕ, ◌<◌, ◌≤◌, ◌^◌, length, map, option_map, IfOk, MatchOption};
ghost use Rattle.fractions.specs.Number.{Number};
ghost use Rattle.lp_model.specs.Vectors.{Vector, vector_of};
ghost use Rattle.lp_model.specs.Meaning.{meaning};
ghost use Rattle.lp_model.specs.LinearProgram.{LinearProgram};
ghost use Rattle.lp_check.specs.declared.verdicts.Item.TheVariants.{Cost};
ghost use Rattle.lp_check.specs.Deciding.{EarlierPassIn};
ghost use Rattle.lp_check.specs.DecidingPairs.{DualPasses, DualsPass, DecidesPairIn};
ghost use Rattle.lp_check.specs.Numbered.{numbered_pair};
ghost use Rattle.lp_prices.specs.Prices.{IsSumIn};
ghost use Rattle.lp_check.specs.Summing.{AreRowSumsIn};

use crate::pair_verdicts::PairVerdict;
use crate::placing::misplaced;
use crate::sums::RowSum;
use exact_numbers::Exact;
use lp_model::{Program, RowDef, Sense};
use std::alloc::{AllocError, Global};

/// No, where the dual of a row with this sum does not pass.
///
/// # Errors
/// [`AllocError`] where there is no memory for the numbers of the verdict.
fn dual_verdict<T: Exact>(
    alloc: Global,
    sense: Sense,
    row: &RowDef,
    id: u32,
    dual: &T,
    sum: &Option<T>,
) -> Result<Option<PairVerdict<T>>, AllocError>
    ensures { IfOk result (λ found. (M : LinearProgram) (x y : Vector) → id < M.rows → row.now.lower ≡ M.lower_side id → row.now.upper ≡ M.upper_side id → T.number dual.now ≡ y id
        → IsSumIn T.room M.columns (M.coefficient id) x (option_map T.number sum.now) → EarlierPassIn T.room M x Cost → DualsPass sense M x y id
        → MatchOption found (DualPasses sense M x y id) (λ verdict. DecidesPairIn T.room sense M x y (numbered_pair T.number verdict))) }
{
    let Some(value) = sum else {
        return Ok(None);
    };
    match misplaced(alloc, sense, dual, value, &row.lower, &row.upper)? {
        Some(found) => Ok(Some(PairVerdict::Dual { row: id, found })),
        None => Ok(None),
    }
}

/// No, by the first row whose dual does not pass.
///
/// # Errors
/// [`AllocError`] where there is no memory for the numbers of the verdict.
pub fn failing_dual<T: Exact>(
    alloc: Global,
    program: &Program,
    duals: &[T],
    sums: &[RowSum<T>],
) -> Result<Option<PairVerdict<T>>, AllocError>
    requires long { length sums.now ≡ length program.now.rows }
    requires each { length duals.now ≡ length program.now.rows }
    requires few { length program.now.rows < 2 ^ 32 }
    ensures { IfOk result (λ found. (x : Vector) → AreRowSumsIn T.number T.room (meaning program.now) x (length program.now.columns) sums.now → EarlierPassIn T.room (meaning program.now) x Cost
        → MatchOption found (DualsPass program.now.sense (meaning program.now) x (vector_of (map T.number duals.now)) (length program.now.rows))
        (λ verdict. DecidesPairIn T.room program.now.sense (meaning program.now) x (vector_of (map T.number duals.now)) (numbered_pair T.number verdict))) }
{
    let rows = program.rows();
    let sense = program.sense();
    for i in 0..rows.len() {
        if let Some(verdict) = dual_verdict(
            alloc,
            sense,
            &rows[i],
            i as u32,
            &duals[i],
            &sums[i].sum,
        )? {
            return Ok(Some(verdict));
        }
    }
    Ok(None)
}
