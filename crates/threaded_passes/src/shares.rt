//! Shares of the work of a round: what one of several threads does is each so many-th of some things in a row, from a first one on.

ghost use Rattle.std.specs.Prelude.{◌≡◌, IfOk};
ghost use Rattle.std.specs.List.{range_with_len};

use std::alloc::{AllocError, Global};

/// The place of the first of them, for each of so many threads.
///
/// # Errors
/// Memory ran out.
pub fn firsts_of(alloc: Global, threads: u32) -> Result<Vec<u32>, AllocError>
    ensures { IfOk result (λ firsts. firsts.items ≡ range_with_len 0 threads) }
{
    let mut firsts = Vec::new(alloc);
    for first in 0..threads {
        firsts.push(first)?;
    }
    Ok(firsts)
}
