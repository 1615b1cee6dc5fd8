// What a program may ask of files.
ghost use Rattle.std.specs.Prelude.{◌≡◌, ℕ, ◌≤◌, List, length, IfOk, OnOk, OnErr, IsErrOf};
ghost use Rattle.file_ports.specs.Ports.{Moment, Rose, NeverFall, Gives, IsLonger, Written, Unsettled, KeepsOthers};
ghost use Rattle.file_ports.specs.declared.files.ReadErr.TheVariants.{NoMemory};

use std::alloc::{AllocError, Global};
use thiserror::Error;

/// Why a read gave no bytes.
#[derive(Clone, Copy, Debug, PartialEq, Eq, Error)]
pub enum ReadErr {
    /// The name is missing, or its bytes could not be read.
    #[error("read fault")]
    Failed,
    /// The name holds more bytes than the caller's limit.
    #[error("too long")]
    TooLong,
    /// There is no memory for the bytes.
    #[error("no memory")]
    NoMemory,
}

impl From<AllocError> for ReadErr {
    ghost from_gives = { λ _ e. e ≡ NoMemory };

    fn from(_: AllocError) -> Self {
        ReadErr::NoMemory
    }
}

/// A write or a put failed.
#[derive(Clone, Copy, Debug, PartialEq, Eq, Error)]
#[error("write fault")]
pub struct Failed;

/// Files by name, with counts of their faults. Each count never falls, and one count may serve all names.
pub trait Files {
    /// What each name holds, where it is told: its bytes, or that it is missing. And how many reads and writes of a name failed, and how
    /// often it was found longer than a limit.
    ghost moment: { Self → Moment };

    /// The bytes of a name, `limit` at most. A missing name is a failed read.
    ///
    /// # Errors
    /// `Failed` where a count of failed reads rises, `TooLong` where the bytes are more than `limit`, `NoMemory`.
    fn read(&mut self, alloc: Global, name: &str, limit: u64) -> Result<Vec<u8>, ReadErr>
        ensures bytes { IfOk result (λ bytes. Gives ((moment self.old).told name.now) bytes.items) }
        ensures most { IfOk result (λ bytes. length bytes.items ≤ limit) }
        ensures failed { IsErrOf result ReadErr.Failed → Rose ((moment self.old).reads name.now) ((moment self.new).reads name.now) }
        ensures too_long { IsErrOf result ReadErr.TooLong → IsLonger ((moment self.old).told name.now) limit }
        ensures overlong { IsErrOf result ReadErr.TooLong → Rose ((moment self.old).overlong limit name.now) ((moment self.new).overlong limit name.now) }
        ensures kept { (moment self.new).told ≡ (moment self.old).told }
        ensures reads_stay { NeverFall (moment self.old).reads (moment self.new).reads }
        ensures writes_stay { NeverFall (moment self.old).writes (moment self.new).writes }
        ensures overlongs_stay { (most : ℕ) → NeverFall ((moment self.old).overlong most) ((moment self.new).overlong most) };

    /// Puts these bytes in the place of what a name holds. All other names stay.
    ///
    /// # Errors
    /// `Failed` where a count of failed writes rises. What the name then holds is not told, or it is as before.
    fn write(&mut self, name: &str, bytes: &[u8]) -> Result<(), Failed>
        ensures written { OnOk result (Written ((moment self.old).told name.now) ((moment self.new).told name.now) bytes.now) }
        ensures unsettled { OnErr result (Unsettled ((moment self.old).told name.now) ((moment self.new).told name.now)) }
        ensures others { KeepsOthers (moment self.old).told (moment self.new).told name.now }
        ensures failed { OnErr result (Rose ((moment self.old).writes name.now) ((moment self.new).writes name.now)) }
        ensures reads_stay { NeverFall (moment self.old).reads (moment self.new).reads }
        ensures writes_stay { NeverFall (moment self.old).writes (moment self.new).writes }
        ensures overlongs_stay { (most : ℕ) → NeverFall ((moment self.old).overlong most) ((moment self.new).overlong most) };
}
