//! The first set of a section, whose cards count.

use std::alloc::{AllocError, Global};
use std::marker::Model;

/// The name of the first set of a section, where a card has named one: no name is a set of its own.
/// A contract sees the name's bytes.
#[derive(Drop)]
pub struct FirstSet {
    first: Option<Option<Vec<u8>>>,
}

impl Model for FirstSet {
    ghost use Rattle.std.specs.Prelude.{ℕ, List, Option};
    ghost use Rattle.std.specs.Option.{option_map};

    ghost Value = { Option (Option (List ℕ)) };

    ghost view = { λ set. option_map (option_map (λ name. name.items)) set.first };
}

impl FirstSet {
    ghost use Rattle.std.specs.Prelude.{◌≡◌, OnOk, None};
    ghost use Rattle.mps_profile.specs.Cards.{text_set};
    ghost use Rattle.mps_profile.specs.Sets.{counts, or_first};

    /// No card has come.
    pub fn new() -> FirstSet
        ensures { result ≡ None }
    {
        FirstSet { first: None }
    }

    /// Whether a card of a set counts: it does where its set is the first.
    pub fn counts(&self, set: Option<&[u8]>) -> bool
        ensures { result ≡ counts self.now (text_set set.entry) }
    {
        match (&self.first, set) {
            (None, _) => true,
            (Some(None), None) => true,
            (Some(Some(first)), Some(name)) => first.as_slice() == name,
            (Some(None), Some(_)) => false,
            (Some(Some(_)), None) => false,
        }
    }

    /// Takes a card's set for the first, where no card came before.
    ///
    /// # Errors
    /// Where there is no memory.
    pub fn take_up(&mut self, alloc: Global, set: Option<&[u8]>) -> Result<(), AllocError>
        ensures { OnOk result (self.new ≡ or_first self.old (text_set set.entry)) }
    {
        if self.first.is_some() {
            return Ok(());
        }
        self.first = match set {
            None => Some(None),
            Some(name) => Some(Some(Vec::from_slice(alloc, name)?)),
        };
        Ok(())
    }
}
