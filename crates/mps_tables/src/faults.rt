//! Why a card is not taken.

ghost use Rattle.std.specs.Prelude.{◌≡◌};
ghost use Rattle.mps_tables.specs.Reads.{number_fault};
ghost use Rattle.mps_tables.specs.declared.faults.Stop.TheVariants.{Fault, OutOfMemory};

use mps_profile::MpsFaultKind;
use number_texts::ReadNumber;
use std::alloc::{AllocError, AllocFailed};

/// Why a card is not taken.
#[derive(Clone, Copy, Debug, PartialEq, Eq)]
pub enum Stop {
    /// The card has a fault, of which this is the first.
    Fault(MpsFaultKind),
    /// Want of memory.
    OutOfMemory,
}

impl From<MpsFaultKind> for Stop {
    ghost from_gives = { λ kind e. e ≡ Fault kind };

    fn from(kind: MpsFaultKind) -> Stop {
        Stop::Fault(kind)
    }
}

impl From<ReadNumber> for Stop {
    ghost from_gives = { λ fault e. e ≡ Fault (number_fault fault) };

    fn from(fault: ReadNumber) -> Stop {
        match fault {
            ReadNumber::NotNumber => Stop::Fault(MpsFaultKind::BadNumber),
            ReadNumber::NumberPast => Stop::Fault(MpsFaultKind::NumberPast),
        }
    }
}

impl From<AllocError> for Stop {
    ghost from_gives = { λ _ e. e ≡ OutOfMemory };

    fn from(_e: AllocError) -> Stop {
        Stop::OutOfMemory
    }
}

impl<T: Drop> From<AllocFailed<T>> for Stop {
    ghost from_gives = { λ _ e. e ≡ OutOfMemory };

    fn from(_e: AllocFailed<T>) -> Stop {
        Stop::OutOfMemory
    }
}
