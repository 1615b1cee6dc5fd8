//! Ids in ascending order.

use std::alloc::{AllocError, Global};
use std::marker::Model;

/// Ids, in ascending order where they are added in any order.
#[derive(Drop)]
pub struct Ids {
    items: Vec<u32>,
}

impl Model for Ids {
    ghost use Rattle.std.specs.Prelude.{ℕ, List};

    ghost Value = { List ℕ };

    ghost view = { λ ids. ids.items.items };
}

impl Ids {
    ghost use Rattle.std.specs.Prelude.{◌≡◌, ℕ, [], OnOk};
    ghost use Rattle.std.specs.List.{Contains};
    ghost use Rattle.sorted_ids.specs.Ascending.{AscendsFrom};

    /// No ids.
    pub fn new(alloc: Global) -> Ids
        ensures { result ≡ [] }
    {
        Ids {
            items: Vec::new(alloc),
        }
    }

    /// The ids.
    pub fn as_slice(&self) -> &[u32]
        ensures { result.now ≡ self.now }
    {
        self.items.as_slice()
    }

    /// Adds an id at its place, if it isn't there.
    pub fn add(&mut self, id: u32) -> Result<(), AllocError>
        ensures there { OnOk result (Contains self.new id) }
        ensures kept { OnOk result ((k : ℕ) → Contains self.old k → Contains self.new k) }
        ensures ascends { OnOk result (AscendsFrom 0 self.old → AscendsFrom 0 self.new) }
    {
        match self.items.binary_search(&id) {
            Ok(_) => Ok(()),
            Err(place) => {
                self.items.insert(place, id)?;
                Ok(())
            }
        }
    }
}
