//! The book under a lock.

use crate::book::Book;
use instances::{Proposal, Version};
use presolve_model::Outcome;
use shared_book::Serial;
use std::alloc::{AllocError, Global};

/// Workers that share a book commit what they read of its earlier problems.
impl Serial for Book {
    type Version = Version;

    type Proposal = Proposal;

    type Outcome = Outcome;

    ghost use Rattle.txn_book.specs.Sharing.{after_call, allows_call, IsFrom, takes_later};

    ghost takes = { IsFrom };

    ghost allows = { allows_call };

    ghost next = { after_call };

    ghost keeps = { takes_later };

    fn freeze(&self, alloc: Global) -> Result<Version, AllocError> {
        Book::freeze(self, alloc)
    }

    fn commit(&mut self, alloc: Global, by: u32, proposal: &Proposal) -> Outcome {
        self.commit_numbered(alloc, by, proposal)
    }
}
