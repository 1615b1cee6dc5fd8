//! Names, numbered from 0 in the order in which they first came.
#![tactic(auto)]

use indexmap::IndexSet;
use std::alloc::{AllocError, Global};
use std::marker::Model;

/// A table of different names, which it owns. A contract sees it as the list of the names' bytes, in the order in which they came.
#[derive(Drop)]
pub struct Names {
    set: IndexSet<Vec<u8>>,
}

impl Model for Names {
    ghost use Rattle.std.specs.Prelude.{ℕ, List, map};
    ghost use Rattle.names.specs.Names.{AreDifferent};

    ghost Value = { List (List ℕ) };

    ghost view = { λ names. map (λ name. name.items) names.set.keys };

    ghost invariant = { λ names. AreDifferent (map (λ name. name.items) names.set.keys) };
}

/// How a name was taken in, with its number.
#[derive(Clone, Copy, Debug, PartialEq, Eq)]
pub enum Named {
    /// The name is new, and now the last one.
    Fresh(usize),
    /// The name was there already.
    Known(usize),
}

impl Names {
    ghost use Rattle.std.specs.Prelude.{◌≡◌, ◌==◌, ◌<◌, ◌≤◌, ◌+◌, [], length, map, slice_index_or, IfOk, IfSome, OnErr, Some};
    ghost use Rattle.names.specs.Names.{place, IsTaken, number_of};

    /// A table without names.
    pub fn new(alloc: Global) -> Self
        ensures { result ≡ [] }
    {
        Names {
            set: IndexSet::new(alloc),
        }
    }

    /// How many names there are.
    pub fn len(&self) -> usize
        ensures { result ≡ length self.now }
    {
        self.set.len()
    }

    /// Whether there is no name.
    pub fn is_empty(&self) -> bool
        ensures { result ≡ (length self.now == 0) }
    {
        self.set.is_empty()
    }

    /// The names, by number.
    pub fn as_slice(&self) -> &[Vec<u8>]
        ensures names { map (λ name. name.items) result.now ≡ self.now }
        ensures len { length result.now ≡ length self.now }
    {
        self.set.as_slice()
    }

    /// The name with a number.
    pub fn name(&self, number: usize) -> &[u8]
        requires { number < length self.now }
        ensures { result.now ≡ slice_index_or self.now number [] }
    {
        self.as_slice()[number].as_slice()
    }

    /// The number of a name, or none where there is no such name.
    #[tactic(auto, using(crate::proofs::Places::place_keys))]
    pub fn find(&self, name: &[u8]) -> Option<usize>
        ensures place { result ≡ place name.now self.now }
        ensures within { IfSome result (λ id. id < length self.now) }
    {
        self.set.get_index_of(name)
    }

    /// The number of the last name, if it is this one.
    fn last_if(&self, name: &[u8]) -> Option<usize>
        ensures place { IfSome result (λ id. place name.now self.now ≡ Some id) }
        ensures within { IfSome result (λ id. id < length self.now) }
    {
        let _ = &self.set;
        let count = self.len();
        if count > 0 && self.name(count - 1) == name {
            Some(count - 1)
        } else {
            None
        }
    }

    /// Takes in a name, and says its number, which is the last where the name is new. Only a new name is copied. One that comes again and again is
    /// compared with the last name, and not looked for.
    #[tactic(auto, using(crate::proofs::Places::place_keys))]
    pub fn insert(&mut self, alloc: Global, name: &[u8]) -> Result<Named, AllocError>
        ensures taken { IfOk result (λ named. IsTaken named name.now self.old self.new) }
        ensures within { IfOk result (λ named. number_of named < length self.new) }
        ensures err { OnErr result (self.new ≡ self.old) }
    {
        if let Some(last) = self.last_if(name) {
            return Ok(Named::Known(last));
        }
        match self.set.get_index_of(name) {
            Some(id) => Ok(Named::Known(id)),
            None => {
                let id = self.len();
                let owned = Vec::from_slice(alloc, name)?;
                self.set.insert(owned)?;
                Ok(Named::Fresh(id))
            }
        }
    }
}
