//! Numbers that go into a verdict.

ghost use Rattle.std.specs.Prelude.{◌≡◌, IfOk};

use exact_numbers::Exact;
use std::alloc::{AllocError, Global};

/// A number once more.
///
/// # Errors
/// [`AllocError`] where there is no memory for it.
pub fn copy_of<T: Exact>(alloc: Global, number: &T) -> Result<T, AllocError>
    ensures { IfOk result (λ r. T.number r ≡ T.number number.now) }
{
    match number.copied(alloc) {
        Ok(copy) => Ok(copy),
        Err(_) => Err(AllocError),
    }
}
