//! Why no text was written.

ghost use Rattle.std.specs.Prelude.{◌≡◌};
ghost use Rattle.mps_writer.specs.declared.error.WriteError.TheVariants.{NoMemory};

use std::alloc::AllocError;
use thiserror::Error;

/// Why a program has no text.
#[derive(Clone, Copy, Debug, PartialEq, Eq, Error)]
pub enum WriteError {
    /// The width between a row's two sides is past the range of numbers.
    #[error("the width of a row is past the range of numbers")]
    Past,
    /// Memory ran out.
    #[error("no memory")]
    NoMemory,
}

impl From<AllocError> for WriteError {
    ghost from_gives = { λ _ e. e ≡ NoMemory };

    fn from(_: AllocError) -> WriteError {
        WriteError::NoMemory
    }
}
