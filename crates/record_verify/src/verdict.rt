//! The verdict on records.

ghost use Rattle.std.specs.Prelude.{◌<◌, ◌^◌, IfOk, length};
ghost use Rattle.lp_model.specs.Writable.{EntriesAscend};
ghost use Rattle.record_verify.specs.Verified.{IsVerified};

use crate::header::has_header;
use crate::steps::follow_all;
use fractions::frac::Frac;
use lp_model::Program;
use problem_data::in_sense;
use same_written::is_written_of;
use sparse_problem::Problem;
use std::alloc::{AllocError, Global};
use undo_records::Records;
use walk_laws::Flaw;

/// What is said of records.
#[derive(Clone, Copy)]
pub enum Verified {
    /// They lead from the program to the reduced one: how many they are, and their offset, in the file's sense.
    Yes { records: u64, offset: Frac },
    /// They don't: the first part that fails.
    No { why: Flaw },
}

/// Whether records lead from a program to a reduced one: each is that of a reduction, with fractions, that is enabled where its turn comes.
/// What is then said of the two programs follows, whoever made the records.
///
/// # Errors
/// Memory ran out.
#[tactic(auto, using(crate::proofs::Saying::at_flaw, crate::proofs::Saying::other_program, crate::proofs::Saying::other_offset, crate::proofs::Saying::walks, crate::proofs::Saying::rows_fit, crate::proofs::Saying::columns_fit))]
pub fn verify(
    alloc: Global,
    program: &Program,
    reduced: &Program,
    records: &Records,
) -> Result<Verified, AllocError>
    requires few_rows { length program.now.rows < 2 ^ 32 }
    requires few_columns { length program.now.columns < 2 ^ 32 }
    requires ascends { EntriesAscend program.now }
    ensures { IfOk result (λ said. IsVerified program.now reduced.now records.now said) }
{
    if !has_header(program, records) {
        return Ok(Verified::No { why: Flaw::Header });
    }
    let mut problem = Problem::from_program(alloc, program)?;
    if let Some(why) = follow_all(alloc, &mut problem, records)? {
        return Ok(Verified::No { why });
    }
    if !is_written_of(alloc, &problem, program, reduced)? {
        return Ok(Verified::No { why: Flaw::Program });
    }
    let offset = records.offset();
    if !offset.is_same(&in_sense(program.sense(), &problem.offset())) {
        return Ok(Verified::No { why: Flaw::Offset });
    }
    Ok(Verified::Yes {
        records: records.undos().len() as u64,
        offset,
    })
}
