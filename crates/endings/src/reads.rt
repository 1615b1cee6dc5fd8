//! Reads of files up to a limit.

ghost use Rattle.std.specs.Prelude.{◌≡◌, ℕ, ◌≤◌, length, option_map, IfOk, IfSome, IsErrOf};
ghost use Rattle.file_ports.specs.Ports.{NeverFall};
ghost use Rattle.endings.specs.Moments.{FailsToRead, Finds, IsQuiet};

use file_ports::{Files, ReadErr};
use std::alloc::Global;

/// The longest program that is read, in bytes.
pub const INPUT_LIMIT: u64 = 1_073_741_824;

/// The longest solution that is read, in bytes.
pub const SOLUTION_LIMIT: u64 = 1_073_741_824;

/// Why a name's bytes were not read.
#[derive(Clone, Copy)]
pub enum Unread {
    /// The read failed.
    Failed,
    /// There is no memory for the bytes.
    NoMemory,
}

/// The bytes of a name; none where they are more than the limit.
///
/// # Errors
/// The read failed, or want of memory.
pub fn read_within<F: Files>(
    alloc: Global,
    name: &str,
    limit: u64,
    files: &mut F,
) -> Result<Option<Vec<u8>>, Unread>
    ensures found { IfOk result (λ found. Finds limit name.now (F.moment files.old) (F.moment files.new) (option_map (λ bytes. bytes.items) found)) }
    ensures most { IfOk result (λ found. IfSome found (λ bytes. length bytes.items ≤ limit)) }
    ensures failed { IsErrOf result Unread.Failed → FailsToRead name.now (F.moment files.old) (F.moment files.new) }
    ensures kept { IsQuiet (F.moment files.old) (F.moment files.new) }
    ensures reads_stay { NeverFall (F.moment files.old).reads (F.moment files.new).reads }
    ensures writes_stay { NeverFall (F.moment files.old).writes (F.moment files.new).writes }
    ensures overlongs_stay { (most : ℕ) → NeverFall ((F.moment files.old).overlong most) ((F.moment files.new).overlong most) }
{
    match files.read(alloc, name, limit) {
        Ok(bytes) => Ok(Some(bytes)),
        Err(ReadErr::TooLong) => Ok(None),
        Err(ReadErr::Failed) => Err(Unread::Failed),
        Err(ReadErr::NoMemory) => Err(Unread::NoMemory),
    }
}
