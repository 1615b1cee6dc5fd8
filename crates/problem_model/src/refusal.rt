//! Why a change is not made.

use lp_model::fractions::Past;
use std::alloc::AllocError;

/// Why an enabled reduction is not applied.
#[derive(Clone, Copy, Debug, PartialEq, Eq)]
pub enum Refusal {
    /// A number of the change, kept or not, is past the range, or a new finite bound is 10^20 or more in magnitude.
    Past,
    /// A new side, bound or width is no decimal number, and fractions are not allowed.
    NotDecimal,
    /// Memory ran out.
    NoMemory,
}

impl From<Past> for Refusal {
    ghost use Rattle.std.specs.Prelude.{◌≡◌};
    ghost use Rattle.problem_model.specs.declared.refusal.Refusal.TheVariants.{Past};

    ghost from_gives = { λ e r. r ≡ Past };

    fn from(_: Past) -> Refusal {
        Refusal::Past
    }
}

impl From<AllocError> for Refusal {
    ghost use Rattle.std.specs.Prelude.{◌≡◌};
    ghost use Rattle.problem_model.specs.declared.refusal.Refusal.TheVariants.{NoMemory};

    ghost from_gives = { λ e r. r ≡ NoMemory };

    fn from(_: AllocError) -> Refusal {
        Refusal::NoMemory
    }
}
