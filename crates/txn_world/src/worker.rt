//! Workers.

ghost use Rattle.std.specs.Prelude.{◌≡◌, [], ◌∷◌, ◌++◌, drop, slice_get, Some, None, OnOk, OnErr};
ghost use Rattle.std.specs.Option.{option_copied};

use instances::{Proposal, Version};
use std::alloc::{AllocError, Global};
use std::collections::VecDeque;
use std::marker::Model;

/// A worker: the version that it froze last, and the proposals that it has not committed yet, the first one first.
#[derive(Drop)]
pub struct Worker {
    number: u32,
    frozen: Option<Version>,
    pending: VecDeque<Proposal>,
}

impl Model for Worker {
    ghost use Rattle.std.specs.Coded.{codes};
    ghost use Rattle.fractions.specs.Lowest.{number_code};
    ghost use Rattle.txn_world.specs.Workers.{WorkerData};

    ghost Value = { WorkerData };

    ghost coded = { Prim.hlevel (codes, number_code) };

    ghost view = { λ w. record { number = w.number; frozen = w.frozen; pending = w.pending.items } };
}

impl Worker {
    /// A worker that has frozen nothing and proposed nothing.
    pub fn new(alloc: Global, number: u32) -> Worker
        ensures { result ≡ record { number = number; frozen = None; pending = [] } }
    {
        Worker {
            number,
            frozen: None,
            pending: VecDeque::new(alloc),
        }
    }

    /// Its number.
    pub fn number(&self) -> u32
        ensures { result ≡ self.now.number }
    {
        self.number
    }

    /// The version that it froze last.
    pub fn frozen(&self) -> Option<&Version>
        ensures { option_copied result ≡ self.now.frozen }
    {
        self.frozen.as_ref()
    }

    /// Keeps a version in place of the one before.
    pub fn freeze(&mut self, version: Version)
        ensures { self.new ≡ record self.old { frozen = Some version } }
    {
        self.frozen = Some(version);
    }

    /// Adds a proposal behind the others. For want of memory nothing changes.
    pub fn propose(&mut self, proposal: Proposal) -> Result<(), AllocError>
        ensures ok { OnOk result (self.new ≡ record self.old { pending = self.old.pending ++ proposal ∷ [] }) }
        ensures err { OnErr result (self.new ≡ self.old) }
    {
        self.pending.push_back(proposal)?;
        Ok(())
    }

    /// The first of its proposals.
    pub fn first(&self) -> Option<&Proposal>
        ensures { option_copied result ≡ slice_get self.now.pending 0 }
    {
        self.pending.front()
    }

    /// Takes the first of its proposals away, if it has one.
    pub fn take_first(&mut self)
        ensures { self.new ≡ record self.old { pending = drop 1 self.old.pending } }
    {
        let _ = self.pending.pop_front();
    }
}
