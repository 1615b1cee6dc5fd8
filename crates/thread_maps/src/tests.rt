//! That threads are at work at a time.

use crate::map_in_threads;
use std::sync::atomic::{AtomicU64, Ordering};
use std::test::Fail;
use std::thread::yield_now;

/// So often another thread is looked for.
const LOOKS: u32 = 10_000_000;

/// Whether two have come, before one of them has looked for the other often enough.
fn meets(come: &AtomicU64) -> bool {
    come.fetch_add(1, Ordering::SeqCst);
    for _ in 0..LOOKS {
        if come.load(Ordering::SeqCst) >= 2 {
            return true;
        }
        yield_now();
    }
    false
}

#[test]
fn two_items_are_gone_over_at_a_time(rt: HostRuntime) -> Result<(), Fail> {
    let alloc = rt.alloc();
    let come = AtomicU64::new(0);
    let items = [0u8, 1];
    let met = map_in_threads(&rt, alloc, &items, |_: &u8| -> bool { meets(&come) })?;
    assert!(rt; met.iter().all(|one| *one));
    Ok(())
}
