//! Chunks of ids.

ghost use Rattle.std.specs.Prelude.{◌≡◌, ◌+◌, ◌*◌, ◌<◌, ◌≤◌, ◌^◌};

use std::marker::Model;

/// The number of a chunk: 1,024 ids in a row. The first chunk is number 0.
#[derive(Clone, Copy)]
pub struct Chunk {
    number: u32,
}

impl Model for Chunk {
    ghost use Rattle.std.specs.Prelude.{ℕ};

    ghost Value = { ℕ };

    ghost view = { λ c. c.number };

    ghost inverse = { λ n. record { number = n } };
}

impl Chunk {
    /// The chunk of a number.
    pub fn new(number: u32) -> Chunk
        ensures { result ≡ number }
    {
        Chunk { number }
    }

    /// How many chunks hold so many ids.
    pub fn count(ids: usize) -> u32
        requires { ids < 2 ^ 32 }
        ensures all { ids ≤ result * 1024 }
        ensures least { result * 1024 < ids + 1024 }
    {
        ids.div_ceil(1024) as u32
    }

    /// Its first id, which may be past any column or row.
    pub fn first(self) -> u64
        ensures { result ≡ self * 1024 }
    {
        u64::from(self.number) * 1024
    }
}
