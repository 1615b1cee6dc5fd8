//! Why no solution is written.

ghost use Rattle.std.specs.Prelude.{◌≡◌};
ghost use Rattle.solve_command.specs.declared.refusal.Unsolved.TheVariants.{NoMemory};

use endings::Ending;
use std::alloc::AllocError;

/// Why no solution is written.
#[derive(Drop)]
pub enum Unsolved {
    /// The command ends so.
    Ends(Ending),
    /// Want of memory.
    NoMemory,
}

impl From<AllocError> for Unsolved {
    ghost from_gives = { λ _ e. e ≡ NoMemory };

    fn from(_e: AllocError) -> Unsolved {
        Unsolved::NoMemory
    }
}
