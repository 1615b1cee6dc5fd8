// The system's files and standard output. They tell nothing, so their clauses bind counts and lengths alone: what the system did with a name
// is outside of any proof.
ghost use Rattle.std.specs.Prelude.{◌≡◌, None, IfOk, ◌≤◌, length};

use crate::replacing::replace;
use crate::{Failed, Files, ReadErr, Sink};
use std::alloc::{AllocGlobal, Global};
use std::fs;
use std::io::{ErrorKind, Read, Write};
use std::rt::Files as SystemFiles;

/// The files of the system, with a count of each kind of fault for all names. A regular file is replaced whole: where a write of it
/// fails, what it held is still there.
#[derive(Drop)]
pub struct HostFiles<'a, R: SystemFiles + AllocGlobal> {
    rt: &'a R,
    reads: u64,
    writes: u64,
    overlong: u64,
}

impl<'a, R: SystemFiles + AllocGlobal> HostFiles<'a, R> {
    /// The files that this runtime reaches, before any fault.
    pub fn new(rt: &'a R) -> Self {
        HostFiles {
            rt,
            reads: 0,
            writes: 0,
            overlong: 0,
        }
    }
}

// The first bytes of a file, `limit + 1` at most: one more than a caller takes, so that a longer file is seen.
fn read_some<R: SystemFiles>(
    rt: &R,
    alloc: Global,
    name: &str,
    limit: u64,
) -> std::io::Result<Vec<u8>> {
    let mut bytes = Vec::new(alloc);
    let file = fs::open(rt, name)?;
    file.take(limit.saturating_add(1)).read_to_end(&mut bytes)?;
    Ok(bytes)
}

impl<'a, R: SystemFiles + AllocGlobal> Files for HostFiles<'a, R> {
    ghost moment = { λ files. record { told = λ _. None; reads = λ _. files.reads; writes = λ _. files.writes; overlong = λ _ _. files.overlong } };

    fn read(&mut self, alloc: Global, name: &str, limit: u64) -> Result<Vec<u8>, ReadErr> {
        match read_some(self.rt, alloc, name, limit) {
            Ok(bytes) => {
                if bytes.len() as u64 > limit {
                    self.overlong = self.overlong.saturating_add(1);
                    return Err(ReadErr::TooLong);
                }
                Ok(bytes)
            }
            Err(error) => {
                if error.kind() == ErrorKind::OutOfMemory {
                    return Err(ReadErr::NoMemory);
                }
                self.reads = self.reads.saturating_add(1);
                Err(ReadErr::Failed)
            }
        }
    }

    fn write(&mut self, name: &str, bytes: &[u8]) -> Result<(), Failed> {
        match replace(self.rt, name, bytes) {
            Ok(()) => Ok(()),
            Err(_) => {
                self.writes = self.writes.saturating_add(1);
                Err(Failed)
            }
        }
    }
}

/// Standard output, or another writer, with a count of its faults.
#[derive(Drop)]
pub struct HostOut<W: Write + Drop> {
    writer: W,
    faults: u64,
}

impl<W: Write + Drop> HostOut<W> {
    /// A sink over this writer, before any fault.
    pub fn new(writer: W) -> Self {
        HostOut { writer, faults: 0 }
    }

    // A piece counts as taken once the writer passed it on. A writer that takes nothing of a piece that is not empty fails.
    fn pass_on(&mut self, bytes: &[u8]) -> std::io::Result<()>
        ensures { self.new.faults ≡ self.old.faults }
    {
        self.writer.write_all(bytes)?;
        self.writer.flush()
    }
}

impl<W: Write + Drop> Sink for HostOut<W> {
    ghost taken = { λ _. None };

    ghost faults = { λ out. out.faults };

    fn put(&mut self, bytes: &[u8]) -> Result<(), Failed> {
        match self.pass_on(bytes) {
            Ok(()) => Ok(()),
            Err(_) => {
                self.faults = self.faults.saturating_add(1);
                Err(Failed)
            }
        }
    }
}
