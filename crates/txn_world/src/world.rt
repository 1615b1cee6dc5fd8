//! Books with their workers.

ghost use Rattle.std.specs.Prelude.{◌≡◌, ◌≢◌, [], Some, None, IfOk, OnOk, OnErr};
ghost use Rattle.std.specs.Option.{option_copied};
ghost use Rattle.presolve_model.specs.declared.outcome.Outcome.TheVariants as outcome;
ghost use Rattle.presolve_model.specs.Ledger.{Stands};
ghost use Rattle.presolve_model.specs.Worlds.{opened, Steps};
ghost use Rattle.presolve_model.specs.Worlds as worlds;
ghost use Rattle.history_laws.specs.Meanings.{Means};
ghost use Rattle.txn_world.specs.Workers.{state_of};
ghost use Rattle.txn_world.specs.Events.{CommitsFirst, happening_of};

use crate::event::Event;
use crate::seats::{add_proposal, drop_first, keep_version, place_of};
use crate::worker::Worker;
use instances::{Proposal, Version};
use presolve_model::Outcome;
use std::alloc::{AllocError, Global};
use std::marker::Model;
use txn_book::Book;

/// A book and its workers: what each froze last, and what it proposed and has not committed yet.
#[derive(Drop)]
pub struct World {
    book: Book,
    workers: Vec<Worker>,
}

impl Model for World {
    ghost use Rattle.std.specs.Coded.{codes};
    ghost use Rattle.fractions.specs.Lowest.{number_code};
    ghost use Rattle.txn_world.specs.Workers.{WorldData};

    ghost Value = { WorldData };

    ghost coded = { Prim.hlevel (codes, number_code) };

    ghost view = { λ w. record { book = w.book; workers = w.workers.items } };
}

/// Commits the first of a worker's proposals, if it has one.
fn commit_first(book: &mut Book, alloc: Global, worker: &Worker) -> Option<Outcome>
    ensures { CommitsFirst book.old worker.now.number worker.now.pending result book.new }
{
    match worker.first() {
        None => None,
        Some(proposal) => Some(book.commit(alloc, worker.number(), proposal)),
    }
}

impl World {
    /// A book whose workers have frozen nothing and proposed nothing.
    pub fn new(alloc: Global, book: Book) -> World
        ensures { state_of result ≡ opened book }
    {
        World {
            book,
            workers: Vec::new(alloc),
        }
    }

    /// The book.
    pub fn book(&self) -> &Book
        ensures { result.now ≡ self.now.book }
    {
        &self.book
    }

    /// The version that a worker froze last.
    pub fn frozen(&self, worker: u32) -> Option<&Version>
        ensures { option_copied result ≡ (state_of self.now).frozen worker }
    {
        match place_of(self.workers.as_slice(), worker) {
            None => None,
            Some(place) => self.workers[place].frozen(),
        }
    }

    /// The book keeps what a book keeps, and means what a book means, whatever its workers did. Says so, and does nothing.
    pub fn stands(&self)
        ensures stands { Stands self.now.book }
        ensures means { Means self.now.book }
    {
        self.book.stands();
    }

    /// A worker freezes the present problem.
    fn freeze(&mut self, alloc: Global, worker: u32) -> Result<(), AllocError>
        ensures ok { OnOk result (Steps (state_of self.old) (worlds.Freeze worker) None (state_of self.new)) }
        ensures err { OnErr result (state_of self.new ≡ state_of self.old) }
    {
        let version = self.book.freeze(alloc)?;
        keep_version(&mut self.workers, alloc, worker, version)?;
        Ok(())
    }

    /// A worker proposes.
    fn propose(&mut self, alloc: Global, worker: u32, proposal: Proposal) -> Result<(), AllocError>
        ensures ok { OnOk result (Steps (state_of self.old) (worlds.Propose worker proposal) None (state_of self.new)) }
        ensures err { OnErr result (state_of self.new ≡ state_of self.old) }
    {
        add_proposal(&mut self.workers, alloc, worker, proposal)?;
        Ok(())
    }

    /// A worker commits the first of its proposals, which stays where memory runs out.
    fn commit(&mut self, alloc: Global, worker: u32) -> Result<Option<Outcome>, AllocError>
        ensures ok { IfOk result (λ answer. Steps (state_of self.old) (worlds.Commit worker) answer (state_of self.new)) }
        ensures answered { IfOk result (λ answer. answer ≢ Some outcome.NoMemory) }
        ensures err { OnErr result (state_of self.new ≡ state_of self.old) }
    {
        let place = match place_of(self.workers.as_slice(), worker) {
            None => return Ok(None),
            Some(place) => place,
        };
        let answer = match commit_first(&mut self.book, alloc, &self.workers[place]) {
            None => return Ok(None),
            Some(answer) => answer,
        };
        if matches!(answer, Outcome::NoMemory) {
            return Err(AllocError);
        }
        drop_first(&mut self.workers, worker, place);
        Ok(Some(answer))
    }

    /// An event takes place, with the answer to a commit that found a proposal.
    ///
    /// # Errors
    /// For want of memory, also of the book's: the state is then what it was.
    pub fn step(&mut self, alloc: Global, event: Event) -> Result<Option<Outcome>, AllocError>
        ensures ok { IfOk result (λ answer. Steps (state_of self.old) (happening_of event) answer (state_of self.new)) }
        ensures answered { IfOk result (λ answer. answer ≢ Some outcome.NoMemory) }
        ensures err { OnErr result (state_of self.new ≡ state_of self.old) }
    {
        match event {
            Event::Freeze(worker) => {
                self.freeze(alloc, worker)?;
                Ok(None)
            }
            Event::Propose(worker, proposal) => {
                self.propose(alloc, worker, proposal)?;
                Ok(None)
            }
            Event::Commit(worker) => self.commit(alloc, worker),
        }
    }
}
