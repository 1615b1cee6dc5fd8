//! What was read of a problem.

ghost use Rattle.std.specs.Prelude.{◌≡◌, ◌≢◌, ℕ, ◌<◌, length, take, Ok, IsOk, IfErr, IfOk, IfSome, OnOk, ◌↔◌, slice_get, Some};
ghost use Rattle.problem_model.specs.declared.part.Read.{Read};
ghost use Rattle.problem_model.specs.Reading.{Agrees, DiffersAt, read_of};
ghost use Rattle.instances.specs.Moved.{NumberDiffersAt, NumbersStand};

use problem_commits::{read, stands};
use problem_model::Read;
use sparse_problem::Problem;
use std::alloc::{AllocError, Global};
use std::marker::Model;
use std::sync::Arc;

/// What an instance read, part by part. It may be kept once for several instances.
#[derive(Drop)]
pub struct Reading {
    reads: Arc<Vec<Read>>,
}

impl Model for Reading {
    ghost use Rattle.std.specs.Prelude.{List};
    ghost use Rattle.std.specs.Coded.{codes};
    ghost use Rattle.fractions.specs.Lowest.{number_code};
    ghost use Rattle.problem_model.specs.declared.part.Read.{Read};

    ghost Value = { List Read };

    ghost coded = { Prim.hlevel (codes, number_code) };

    ghost use Rattle.std.specs.Arc.{arc_value};

    ghost view = { λ r. (arc_value r.reads).items };
}

/// The first part that stands otherwise than it was read.
#[derive(Clone, Copy, Debug, PartialEq, Eq)]
pub struct Differs {
    /// Its place in the reading, from 0 on.
    pub place: usize,
}

impl Reading {
    /// These parts as they were read.
    ///
    /// # Errors
    /// Memory ran out.
    pub fn of(alloc: Global, reads: Vec<Read>) -> Result<Reading, AllocError>
        ensures { IfOk result (λ reading. reading ≡ reads.items) }
    {
        let reads = Arc::new(alloc, reads)?;
        Ok(Reading { reads })
    }

    /// The same reading, for one owner more. `None` where it has as many as can be counted.
    pub fn share(&self) -> Option<Reading>
        ensures { IfSome result (λ shared. shared ≡ self.now) }
    {
        match Arc::try_clone(&self.reads) {
            Ok(reads) => Some(Reading { reads }),
            Err(_) => None,
        }
    }

    /// The parts, in the order in which they were read.
    pub fn as_slice(&self) -> &[Read]
        ensures { result.now ≡ self.now }
    {
        self.reads.as_slice()
    }

    /// Whether each part stands as it was read.
    ///
    /// # Errors
    /// The first part that does not.
    pub fn agrees(&self, problem: &Problem) -> Result<(), Differs>
        ensures agrees { IsOk result ↔ Agrees problem.now self.now }
        ensures differs { IfErr result (λ d. DiffersAt problem.now self.now d.place) }
    {
        let reads = self.as_slice();
        for place in 0..reads.len() {
            if !stands(problem, &reads[place]) {
                return Err(Differs { place });
            }
        }
        Ok(())
    }

    /// Whether each part has changed as often as it had when it was read. Where an earlier problem of the same book was read, that tells
    /// whether it stands as it was read.
    ///
    /// # Errors
    /// The first part that has not.
    pub fn moved(&self, problem: &Problem) -> Result<(), Differs>
        ensures stands { OnOk result (NumbersStand problem.now self.now) }
        ensures differs { IfErr result (λ d. NumberDiffersAt problem.now self.now d.place) }
    {
        let reads = self.as_slice();
        for place in 0..reads.len() {
            let read = &reads[place];
            if problem.changes(read.part) != read.changes {
                return Err(Differs { place });
            }
        }
        Ok(())
    }

    /// What stands now of the part at a place of the reading. For a place where `agrees` found that it differs, the part, what was read of
    /// it, and this tell how.
    pub fn now_at(&self, alloc: Global, problem: &Problem, place: usize) -> Result<Read, AllocError>
        requires { place < length self.now }
        ensures { IfOk result (λ now. (r : Read) → slice_get self.now place ≡ Some r → now ≡ read_of problem.now r.part) }
    {
        read(alloc, problem, self.as_slice()[place].part)
    }
}
