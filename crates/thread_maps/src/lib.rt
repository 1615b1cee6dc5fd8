//! Lists that are made by threads, item by item.
#![tactic(auto)]

ghost use Rattle.std.specs.Prelude.{IfOk};
ghost use Rattle.std.specs.List.{AllZip};
ghost use Rattle.std.specs.Fn.{FnReturnsAt};

use rayon::prelude::*;
use std::alloc::{AllocError, Global};
use std::thread::Threads;

#[cfg(test)]
mod tests;

/// What is made of each item, in the same order. Each item is worth a thread of its own, as far as there are processors: more than two are
/// not started for one of these.
///
/// # Errors
/// Memory ran out.
pub fn map_in_threads<
    R: Threads + Sync,
    T: Sync,
    U: Send + Drop,
    F: Fn(&T) -> U + Copy + Send + Sync,
>(rt: &R, alloc: Global, items: &[T], make: F) -> Result<Vec<U>, AllocError>
    requires { F.IsAlwaysCallable make }
    ensures { IfOk result (λ made. AllZip (λ item y. FnReturnsAt F.Fn make item y) items.now made.items) }
{
    items
        .par_iter()
        .with_min_len(1)
        .map(make)
        .collect(rt, alloc)
}
