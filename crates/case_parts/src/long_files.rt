//! Files that are too long to hold in memory.

ghost use Rattle.std.specs.Prelude.{◌≡◌, None};

use file_ports::{Failed, Files, ReadErr};
use std::alloc::Global;

/// Files of one length, of which nothing is told. None can be read whole or written.
#[derive(Drop)]
pub struct LongFiles {
    length: u64,
    overlong: u64,
    writes: u64,
}

impl LongFiles {
    /// Files of so many bytes each.
    pub fn new(length: u64) -> LongFiles {
        LongFiles {
            length,
            overlong: 0,
            writes: 0,
        }
    }
}

impl Files for LongFiles {
    ghost moment = { λ files. record {
      told = λ _. None;
      reads = λ _. 0;
      writes = λ _. files.writes;
      overlong = λ _ _. files.overlong;
    } };

    fn read(&mut self, _alloc: Global, _name: &str, limit: u64) -> Result<Vec<u8>, ReadErr> {
        if self.length <= limit {
            return Err(ReadErr::NoMemory);
        }
        self.overlong = self.overlong.saturating_add(1);
        Err(ReadErr::TooLong)
    }

    fn write(&mut self, _name: &str, _bytes: &[u8]) -> Result<(), Failed> {
        self.writes = self.writes.saturating_add(1);
        Err(Failed)
    }
}
