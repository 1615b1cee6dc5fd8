// A sink in memory. Puts that are listed by their number fail.
ghost use Rattle.file_ports.specs.Ports.{Grown, GrownInPart, Rose};
ghost use Rattle.file_ports.specs.Memory.{SinkState, next, faults_after};
ghost use Rattle.std.specs.Prelude.{◌≡◌, ◌+◌, ◌<◌, ◌≤◌, ◌↔◌, ◌⊎◌, [], ◌++◌, length, vec_len, vec_capacity, Some, Contains, OnOk, OnErr, IfOk, IsErr};

use crate::{Failed, Sink};
use std::alloc::{AllocError, Global};
use std::marker::Model;

/// A sink in memory, for tests. A contract sees the taken bytes, the room, the numbers of the puts that are to fail, how many puts
/// there were, and the count of faults.
#[derive(Drop)]
pub struct MemSink {
    taken: Vec<u8>,
    room: u64,
    failing: Vec<u64>,
    puts: u64,
    faults: u64,
}

impl Model for MemSink {
    ghost Value = { SinkState };

    ghost view = { λ s. record { taken = s.taken.items; room = s.room; failing = s.failing.items; puts = s.puts; faults = s.faults } };

    ghost invariant = { λ s. (s.room ≤ vec_capacity s.taken) × (vec_len s.taken ≤ s.room) };
}

impl MemSink {
    /// An empty sink for so many bytes, with all its memory. The puts of these numbers, from 1, fail.
    pub fn new(alloc: Global, room: u64, failing: &[u64]) -> Result<Self, AllocError>
        ensures { IfOk result (λ sink. sink ≡ record { taken = []; room = room; failing = failing.now; puts = 0; faults = 0 }) }
    {
        Ok(MemSink {
            taken: Vec::with_capacity(alloc, room as usize)?,
            room,
            failing: Vec::from_slice(alloc, failing)?,
            puts: 0,
            faults: 0,
        })
    }

    /// All the bytes taken so far.
    pub fn taken(&self) -> &[u8]
        ensures { result.now ≡ self.now.taken }
    {
        &self.taken
    }
}

impl Sink for MemSink {
    ghost taken = { λ sink. Some sink.taken };

    ghost faults = { λ sink. sink.faults };

    /// A put fails exactly where its number is listed or the room is passed, and then takes nothing. Nothing else raises the count.
    fn put(&mut self, bytes: &[u8]) -> Result<(), Failed>
        ensures grown { OnOk result (Grown (Some self.old.taken) (Some self.new.taken) bytes.now) }
        ensures in_part { OnErr result (GrownInPart (Some self.old.taken) (Some self.new.taken) bytes.now) }
        ensures failed { OnErr result (Rose self.old.faults self.new.faults) }
        ensures stays { self.old.faults ≤ self.new.faults }
        ensures fails { IsErr result ↔ (Contains self.old.failing (next self.old.puts) ⊎ (self.old.room < length self.old.taken + length bytes.now)) }
        ensures state { self.new ≡ record self.old { taken = self.new.taken; puts = next self.old.puts; faults = faults_after result self.old.faults } }
        ensures untouched { OnErr result (self.new.taken ≡ self.old.taken) }
    {
        self.puts = self.puts.saturating_add(1);
        let left = self.room - self.taken.len() as u64;
        if self.failing.contains(&self.puts) || bytes.len() as u64 > left {
            self.faults = self.faults.saturating_add(1);
            return Err(Failed);
        }
        self.taken.extend_from_slice(bytes).unwrap();
        Ok(())
    }
}
