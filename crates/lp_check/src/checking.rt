//! The verdicts by fractions.

ghost use Rattle.std.specs.Prelude.{◌≡◌, ◌<◌, ◌^◌, length, IfOk};
ghost use Rattle.lp_model.specs.Vectors.{vector_of};
ghost use Rattle.lp_model.specs.Meaning.{meaning};
ghost use Rattle.lp_model.specs.Writable.{EntriesAscend};
ghost use Rattle.lp_model.specs.Optimality.{Continuous};
ghost use Rattle.lp_check.specs.Deciding.{Decides};
ghost use Rattle.lp_check.specs.DecidingPairs.{DecidesPair};

use crate::judging::{judge_pair, judge_point};
use crate::pair_verdicts::PairVerdict;
use crate::verdicts::Verdict;
use fractions::frac::Frac;
use lp_model::{Duals, Point, Program};
use std::alloc::{AllocError, Global};

/// The verdict of [`judge_point`]: an item is past where a product or a step of its sum has no room in a [`Frac`].
///
/// # Errors
/// [`AllocError`] where there is no memory for the sums of the rows.
pub fn check_point(
    alloc: Global,
    program: &Program,
    point: &Point,
) -> Result<Verdict<Frac>, AllocError>
    requires long { length point.now ≡ length program.now.columns }
    requires few_rows { length program.now.rows < 2 ^ 32 }
    requires few_columns { length program.now.columns < 2 ^ 32 }
    ensures { IfOk result (λ verdict. Decides (meaning program.now) (vector_of point.now) verdict) }
{
    judge_point(alloc, program, point.as_slice())
}

/// The verdict of [`judge_pair`]: an item is past where a product or a step of its sum has no room in a [`Frac`].
///
/// # Errors
/// [`AllocError`] where there is no memory for the sums of the rows.
pub fn check_pair(
    alloc: Global,
    program: &Program,
    point: &Point,
    duals: &Duals,
) -> Result<PairVerdict<Frac>, AllocError>
    requires long { length point.now ≡ length program.now.columns }
    requires each { length duals.now ≡ length program.now.rows }
    requires few_rows { length program.now.rows < 2 ^ 32 }
    requires few_columns { length program.now.columns < 2 ^ 32 }
    requires ascends { EntriesAscend program.now }
    requires continuous { Continuous (meaning program.now) }
    ensures { IfOk result (λ verdict. DecidesPair program.now.sense (meaning program.now) (vector_of point.now) (vector_of duals.now) verdict) }
{
    judge_pair(alloc, program, point.as_slice(), duals.as_slice())
}
