//! What workers have done.

ghost use Rattle.std.specs.Prelude.{◌≡◌, ◌++◌, ◌∷◌, [], OnErr, OnOk};
ghost use Rattle.std.specs.List.{Contains};
ghost use Rattle.presolve_model.specs.declared.instance.Instance.{Instance as AnInstance};
ghost use Rattle.worker_tasks.specs.Work.{instances_in};

use book_turns::txn_book::instances::Proposal;
use presolve_model::Instance;
use std::alloc::{AllocError, Global};
use std::marker::Model;

/// What a worker has done in a round: the numbers of the tasks that it finished, and the instances that it found in its tasks, each of which it
/// committed. With it whether the book took no more, and whether memory ran out.
#[derive(Drop)]
pub struct Work {
    done: Vec<u64>,
    found: Vec<Instance>,
    is_over: bool,
    has_failed: bool,
}

impl Model for Work {
    ghost use Rattle.worker_tasks.specs.Work.{WorkData};

    ghost Value = { WorkData };

    ghost view = { λ w. record { done = w.done.items; found = w.found.items } };
}

impl Work {
    /// None yet.
    pub fn new(alloc: Global) -> Work
        ensures { result ≡ record { done = []; found = [] } }
    {
        Work {
            done: Vec::new(alloc),
            found: Vec::new(alloc),
            is_over: false,
            has_failed: false,
        }
    }

    /// The numbers of the tasks that are finished.
    pub fn done(&self) -> &[u64]
        ensures { result.now ≡ self.now.done }
    {
        self.done.as_slice()
    }

    /// The instances that were found.
    pub fn found(&self) -> &[Instance]
        ensures { result.now ≡ self.now.found }
    {
        self.found.as_slice()
    }

    /// Whether the book took no more: a verdict stands, or the limit is reached.
    pub fn is_over(&self) -> bool {
        self.is_over
    }

    /// Whether memory ran out.
    pub fn has_failed(&self) -> bool {
        self.has_failed
    }

    /// Another task is finished.
    pub fn finish(&mut self, number: u64) -> Result<(), AllocError>
        ensures done { OnOk result (self.new.done ≡ self.old.done ++ number ∷ []) }
        ensures failed { OnErr result (self.new.done ≡ self.old.done) }
        ensures found { self.new.found ≡ self.old.found }
    {
        self.done.push(number)?;
        Ok(())
    }

    /// Memory ran out.
    pub fn fail(&mut self)
        ensures { self.new ≡ self.old }
    {
        self.has_failed = true;
    }

    /// The book takes no more.
    pub fn end(&mut self)
        ensures { self.new ≡ self.old }
    {
        self.is_over = true;
    }

    /// The instances of these proposals are found.
    pub fn find(&mut self, proposals: &[Proposal]) -> Result<(), AllocError>
        ensures done { self.new.done ≡ self.old.done }
        ensures kept { (e : AnInstance) → Contains self.old.found e → Contains self.new.found e }
        ensures found { OnOk result (self.new.found ≡ self.old.found ++ instances_in proposals.now) }
    {
        add_instances(proposals, &mut self.found)
    }
}

// Adds the instances of proposals.
fn add_instances(proposals: &[Proposal], found: &mut Vec<Instance>) -> Result<(), AllocError>
    ensures kept { (e : AnInstance) → Contains found.old.items e → Contains found.new.items e }
    ensures added { OnOk result (found.new.items ≡ found.old.items ++ instances_in proposals.now) }
{
    let mut rest = proposals;
    while let [proposal, after @ ..] = rest {
        found.push(proposal.instance())?;
        rest = after;
    }
    Ok(())
}
