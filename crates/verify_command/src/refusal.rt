//! Why records are not looked at.

ghost use Rattle.std.specs.Prelude.{◌≡◌};
ghost use Rattle.verify_command.specs.Given.{records_refusal};
ghost use Rattle.verify_command.specs.declared.refusal.Refusal.TheVariants.{NoMemory};

use record_texts::NoRecords;
use std::alloc::AllocError;

/// Why records are not looked at, with the line that says it.
#[derive(Drop)]
pub enum Refusal {
    /// The text of IN or of OUT was refused.
    Program(Vec<u8>),
    /// The text of REC was refused.
    Records(Vec<u8>),
    /// Want of memory.
    NoMemory,
}

impl From<AllocError> for Refusal {
    ghost from_gives = { λ _ e. e ≡ NoMemory };

    fn from(_e: AllocError) -> Refusal {
        Refusal::NoMemory
    }
}

impl From<NoRecords> for Refusal {
    ghost from_gives = { λ none e. e ≡ records_refusal none };

    fn from(none: NoRecords) -> Refusal {
        match none {
            NoRecords::Refused(line) => Refusal::Records(line),
            NoRecords::NoMemory => Refusal::NoMemory,
        }
    }
}
