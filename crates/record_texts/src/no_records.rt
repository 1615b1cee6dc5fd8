//! Why there are no records.

ghost use Rattle.std.specs.Prelude.{◌≡◌};
ghost use Rattle.record_texts.specs.declared.no_records.NoRecords.TheVariants.{NoMemory};

use std::alloc::AllocError;

/// Why there are no records.
#[derive(Drop)]
pub enum NoRecords {
    /// The text was refused; the line that says why.
    Refused(Vec<u8>),
    /// Want of memory.
    NoMemory,
}

impl From<AllocError> for NoRecords {
    ghost from_gives = { λ _ e. e ≡ NoMemory };

    fn from(_e: AllocError) -> NoRecords {
        NoRecords::NoMemory
    }
}
