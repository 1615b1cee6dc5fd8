// One name of files in memory.
ghost use Rattle.std.specs.Prelude.{◌≡◌, ◌≤◌, ◌⊎◌, ◌↔◌, ℕ, map, length, string_bytes, vec_capacity, Some, None, IfOk, OnOk, OnErr, IsErr, IsErrOf, IsTrue};
ghost use Rattle.std.specs.Option.{ForSome, option_map};
ghost use Rattle.std.specs.Str.{bytes_eq};
ghost use Rattle.file_ports.specs.Ports.{Gives, IsLonger};
ghost use Rattle.file_ports.specs.Memory.{Place, Passes, bytes_told, told_after};
ghost use Rattle.file_ports.specs.Held.{all_differ, has_name_in, place_of_held, told_as};

use crate::{Failed, ReadErr};
use std::alloc::{AllocError, Global};
use std::marker::Model;

/// What a name of `MemFiles` holds at first, and how many bytes it may hold.
#[derive(Drop)]
pub struct Held {
    pub name: String,
    /// The bytes; `None` where the name is missing.
    pub bytes: Option<Vec<u8>>,
    /// The most bytes that may be written; `None` where the name may not be written.
    pub room: Option<u64>,
}

/// Whether no two of these have one name.
pub fn names_differ(held: &[Held]) -> bool
    ensures { result ≡ all_differ held.now }
{
    let mut rest = held;
    while let Some((first, after)) = rest.split_first() {
        if has_name(after, &first.name) {
            return false;
        }
        rest = after;
    }
    true
}

// Whether one of these has this name.
fn has_name(held: &[Held], name: &str) -> bool
    ensures { result ≡ has_name_in held.now name.now }
{
    held.iter().any(|one| one.name.as_str() == name)
}

#[derive(Clone, Copy)]
enum Known {
    Missing,
    Bytes,
    Untold,
}

// A name with what it holds. The room for all that may be written is taken.
#[derive(Drop)]
pub struct Entry {
    name: String,
    known: Known,
    bytes: Vec<u8>,
    room: Option<u64>,
}

impl Model for Entry {
    ghost Value = { Place };

    ghost view = { λ e. record { name = string_bytes e.name; told = told_as e.known e.bytes.items; room = e.room } };

    ghost invariant = { λ e. ForSome e.room (λ most. most ≤ vec_capacity e.bytes) };
}

impl Entry {
    // A name as it is at first.
    pub fn new(alloc: Global, held: &Held) -> Result<Self, AllocError>
        ensures { IfOk result (λ entry. entry ≡ place_of_held held.now) }
    {
        let room = held.room.unwrap_or(0) as usize;
        let (known, first) = match &held.bytes {
            Some(bytes) => (Known::Bytes, bytes.as_slice()),
            None => (Known::Missing, [].as_slice()),
        };
        let mut bytes = Vec::with_capacity(alloc, room.max(first.len()))?;
        bytes.extend_from_slice(first)?;
        Ok(Entry {
            name: held.name.clone()?,
            known,
            bytes,
            room: held.room,
        })
    }

    pub fn is_named(&self, name: &str) -> bool
        ensures { result ≡ bytes_eq self.now.name name.now }
    {
        self.name.as_str() == name
    }

    // What the name gives to a read.
    pub fn read(&self, alloc: Global, limit: u64) -> Result<Vec<u8>, ReadErr>
        ensures bytes { IfOk result (λ bytes. Gives self.now.told bytes.items) }
        ensures most { IfOk result (λ bytes. length bytes.items ≤ limit) }
        ensures too_long { IsErrOf result ReadErr.TooLong → IsLonger self.now.told limit }
        ensures missing { IsErrOf result ReadErr.Failed ↔ (self.now.told ≡ Some None) }
    {
        if let Known::Missing = self.known {
            return Err(ReadErr::Failed);
        }
        if self.bytes.len() as u64 > limit {
            return Err(ReadErr::TooLong);
        }
        Ok(self.bytes.clone()?)
    }

    // Puts bytes in the place of what the name holds, or forgets what it tells.
    pub fn write(&mut self, bytes: &[u8]) -> Result<(), Failed>
        ensures told { self.new ≡ record self.old { told = told_after result bytes.now } }
        ensures fails { IsErr result ↔ Passes self.old.room (length bytes.now) }
    {
        let fits = self.room.map_or(false, |room| bytes.len() as u64 <= room);
        if !fits {
            self.known = Known::Untold;
            return Err(Failed);
        }
        self.bytes.clear();
        self.bytes.extend_from_slice(bytes).unwrap();
        self.known = Known::Bytes;
        Ok(())
    }

    // Tells nothing from now on.
    pub fn forget(&mut self)
        ensures { self.new ≡ record self.old { told = None } }
    {
        self.known = Known::Untold;
    }

    // The bytes, where they are told.
    pub fn bytes(&self) -> Option<&[u8]>
        ensures { option_map (λ s. s.now) result ≡ bytes_told self.now.told }
    {
        match self.known {
            Known::Bytes => Some(self.bytes.as_slice()),
            _ => None,
        }
    }
}
