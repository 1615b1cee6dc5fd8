//! Why a text gives no program.

ghost use Rattle.std.specs.Prelude.{◌≡◌};
ghost use Rattle.mps_reader.specs.declared.faults.MpsError.TheVariants.{NoMemory};

use mps_profile::MpsFaultKind;
use std::alloc::AllocError;
use text_lines::Fault;

/// Why a text gives no program.
#[derive(Clone, Copy, Debug, PartialEq, Eq)]
pub enum MpsError {
    /// The first fault by line, and at one line the one with the lowest number. The line of a missing ENDATA is one past the last.
    Fault(Fault<MpsFaultKind>),
    /// Want of memory.
    NoMemory,
}

impl From<AllocError> for MpsError {
    ghost from_gives = { λ _ e. e ≡ NoMemory };

    fn from(_e: AllocError) -> MpsError {
        MpsError::NoMemory
    }
}
