// Files in memory. Calls that are listed by their number fail.
ghost use Rattle.file_ports.specs.Ports.{Gives, IsLonger, Rose, Written, Unsettled, KeepsOthers};
ghost use Rattle.file_ports.specs.Memory.{FilesState, Place, Passes, index_of, place_of, told_in, room_in, bytes_told, next, read_faults_after, overlong_after, faults_after};
ghost use Rattle.file_ports.specs.Held.{IsAsHeld, all_differ, place_of_held};
ghost use Rattle.std.specs.Option.{option_map};
ghost use Rattle.std.specs.Prelude.{◌≡◌, ◌≢◌, ℕ, ◌<◌, ◌≤◌, ◌↔◌, ◌⊎◌, List, map, length, Some, None, Contains, OnOk, OnErr, IfOk, IfSome, IsErr, IsErrOf, IsTrue};

use crate::entry::{Entry, Held};
use crate::{Failed, Files, ReadErr};
use std::alloc::{AllocError, Global};
use std::marker::Model;

/// Files in memory, for tests. A contract sees the names with what they tell and their rooms, the numbers of the calls that are to fail,
/// how many calls there were, and the counts of faults.
#[derive(Drop)]
pub struct MemFiles {
    entries: Vec<Entry>,
    failing_reads: Vec<u64>,
    failing_writes: Vec<u64>,
    reads: u64,
    writes: u64,
    read_faults: u64,
    write_faults: u64,
    overlong: u64,
}

impl Model for MemFiles {
    ghost Value = { FilesState };

    ghost view = { λ f. record {
      places = f.entries.items;
      failing_reads = f.failing_reads.items;
      failing_writes = f.failing_writes.items;
      reads = f.reads;
      writes = f.writes;
      read_faults = f.read_faults;
      write_faults = f.write_faults;
      overlong = f.overlong;
    } };
}

impl MemFiles {
    /// Files that hold this, with all the memory that writes will need. The reads and the writes of these numbers, from 1, fail.
    /// The names of `held` differ, as `names_differ` tells. A name that is not among them is missing and may not be written.
    ///
    /// # Errors
    /// `AllocError` where there is no memory. No write needs any later.
    pub fn new(
        alloc: Global,
        held: &[Held],
        failing_reads: &[u64],
        failing_writes: &[u64],
    ) -> Result<Self, AllocError>
        requires { IsTrue (all_differ held.now) }
        ensures state { IfOk result (λ files. files ≡ record {
          places = map place_of_held held.now;
          failing_reads = failing_reads.now;
          failing_writes = failing_writes.now;
          reads = 0;
          writes = 0;
          read_faults = 0;
          write_faults = 0;
          overlong = 0;
        }) }
        ensures as_held { IfOk result (λ files. IsAsHeld held.now files.places) }
    {
        let mut entries = Vec::new(alloc);
        for one in held {
            entries.push(Entry::new(alloc, one)?)?;
        }
        Ok(MemFiles {
            entries,
            failing_reads: Vec::from_slice(alloc, failing_reads)?,
            failing_writes: Vec::from_slice(alloc, failing_writes)?,
            reads: 0,
            writes: 0,
            read_faults: 0,
            write_faults: 0,
            overlong: 0,
        })
    }

    /// The bytes that a name holds now, where they are told.
    pub fn bytes(&self, name: &str) -> Option<&[u8]>
        ensures { option_map (λ s. s.now) result ≡ bytes_told (told_in self.now.places name.now) }
    {
        self.entry(name)?.bytes()
    }

    // The entry of a name.
    fn entry(&self, name: &str) -> Option<&Entry>
        ensures { option_map (λ e. e.now) result ≡ place_of self.now.places name.now }
    {
        self.entries.iter().find(|entry| entry.is_named(name))
    }

    // The index of a name's entry.
    fn index(&self, name: &str) -> Option<usize>
        ensures index { result ≡ index_of self.now.places name.now }
        ensures within { IfSome result (λ i. i < length self.now.places) }
    {
        self.entries.iter().position(|entry| entry.is_named(name))
    }

    // The next read, but for the counts of faults.
    fn attempt(&mut self, alloc: Global, name: &str, limit: u64) -> Result<Vec<u8>, ReadErr>
        ensures bytes { IfOk result (λ bytes. Gives (told_in self.old.places name.now) bytes.items) }
        ensures most { IfOk result (λ bytes. length bytes.items ≤ limit) }
        ensures too_long { IsErrOf result ReadErr.TooLong → IsLonger (told_in self.old.places name.now) limit }
        ensures fails { IsErrOf result ReadErr.Failed ↔ (Contains self.old.failing_reads (next self.old.reads)
            ⊎ (told_in self.old.places name.now ≡ Some None)) }
        ensures state { self.new ≡ record self.old { reads = next self.old.reads } }
    {
        self.reads = self.reads.saturating_add(1);
        if self.failing_reads.contains(&self.reads) {
            return Err(ReadErr::Failed);
        }
        match self.entry(name) {
            Some(entry) => entry.read(alloc, limit),
            None => Err(ReadErr::Failed),
        }
    }

    // The next write, but for the count of faults.
    #[tactic(auto, using(crate::proofs::Places::named_at, crate::proofs::Places::room_at_index, crate::proofs::Places::room_absent, crate::proofs::Places::placed, crate::proofs::Places::kept, crate::proofs::Places::rooms_kept))]
    fn replace(&mut self, name: &str, bytes: &[u8]) -> Result<(), Failed>
        ensures written { OnOk result (told_in self.new.places name.now ≡ Some (Some bytes.now)) }
        ensures unsettled { OnErr result (Unsettled (told_in self.old.places name.now) (told_in self.new.places name.now)) }
        ensures others { KeepsOthers (told_in self.old.places) (told_in self.new.places) name.now }
        ensures rooms { (other : List ℕ) → room_in self.new.places other ≡ room_in self.old.places other }
        ensures fails { IsErr result ↔ (Contains self.old.failing_writes (next self.old.writes)
            ⊎ Passes (room_in self.old.places name.now) (length bytes.now)) }
        ensures state { self.new ≡ record self.old { places = self.new.places; writes = next self.old.writes } }
    {
        self.writes = self.writes.saturating_add(1);
        let failing = self.failing_writes.contains(&self.writes);
        let Some(index) = self.index(name) else {
            return Err(Failed);
        };
        if failing {
            self.entries[index].forget();
            return Err(Failed);
        }
        self.entries[index].write(bytes)
    }
}

impl Files for MemFiles {
    ghost moment = { λ files. record {
      told = told_in files.places;
      reads = λ _. files.read_faults;
      writes = λ _. files.write_faults;
      overlong = λ _ _. files.overlong;
    } };

    /// A read fails exactly where its number is listed or the name is missing. Nothing else raises the count of failed reads, and only
    /// `TooLong` raises the other.
    fn read(&mut self, alloc: Global, name: &str, limit: u64) -> Result<Vec<u8>, ReadErr>
        ensures bytes { IfOk result (λ bytes. Gives (told_in self.old.places name.now) bytes.items) }
        ensures most { IfOk result (λ bytes. length bytes.items ≤ limit) }
        ensures failed { IsErrOf result ReadErr.Failed → Rose self.old.read_faults self.new.read_faults }
        ensures too_long { IsErrOf result ReadErr.TooLong → IsLonger (told_in self.old.places name.now) limit }
        ensures overlong { IsErrOf result ReadErr.TooLong → Rose self.old.overlong self.new.overlong }
        ensures kept { told_in self.new.places ≡ told_in self.old.places }
        ensures reads_stay { (name : List ℕ) → self.old.read_faults ≤ self.new.read_faults }
        ensures writes_stay { (name : List ℕ) → self.old.write_faults ≤ self.new.write_faults }
        ensures overlongs_stay { (most : ℕ) → (name : List ℕ) → self.old.overlong ≤ self.new.overlong }
        ensures fails { IsErrOf result ReadErr.Failed ↔ (Contains self.old.failing_reads (next self.old.reads)
            ⊎ (told_in self.old.places name.now ≡ Some None)) }
        ensures state { self.new ≡ record self.old {
          reads = next self.old.reads;
          read_faults = read_faults_after result self.old.read_faults;
          overlong = overlong_after result self.old.overlong;
        } }
    {
        match self.attempt(alloc, name, limit) {
            Ok(bytes) => Ok(bytes),
            Err(ReadErr::Failed) => {
                self.read_faults = self.read_faults.saturating_add(1);
                Err(ReadErr::Failed)
            }
            Err(ReadErr::TooLong) => {
                self.overlong = self.overlong.saturating_add(1);
                Err(ReadErr::TooLong)
            }
            Err(ReadErr::NoMemory) => Err(ReadErr::NoMemory),
        }
    }

    /// A write fails exactly where its number is listed, or the bytes pass the name's room, or the name may not be written. Nothing else
    /// raises the count of failed writes. No room changes.
    fn write(&mut self, name: &str, bytes: &[u8]) -> Result<(), Failed>
        ensures written { OnOk result (Written (told_in self.old.places name.now) (told_in self.new.places name.now) bytes.now) }
        ensures unsettled { OnErr result (Unsettled (told_in self.old.places name.now) (told_in self.new.places name.now)) }
        ensures others { KeepsOthers (told_in self.old.places) (told_in self.new.places) name.now }
        ensures failed { OnErr result (Rose self.old.write_faults self.new.write_faults) }
        ensures reads_stay { (name : List ℕ) → self.old.read_faults ≤ self.new.read_faults }
        ensures writes_stay { (name : List ℕ) → self.old.write_faults ≤ self.new.write_faults }
        ensures overlongs_stay { (most : ℕ) → (name : List ℕ) → self.old.overlong ≤ self.new.overlong }
        ensures fails { IsErr result ↔ (Contains self.old.failing_writes (next self.old.writes)
            ⊎ Passes (room_in self.old.places name.now) (length bytes.now)) }
        ensures rooms { (other : List ℕ) → room_in self.new.places other ≡ room_in self.old.places other }
        ensures state { self.new ≡ record self.old {
          places = self.new.places;
          writes = next self.old.writes;
          write_faults = faults_after result self.old.write_faults;
        } }
    {
        match self.replace(name, bytes) {
            Ok(()) => Ok(()),
            Err(Failed) => {
                self.write_faults = self.write_faults.saturating_add(1);
                Err(Failed)
            }
        }
    }
}
