//! The pass of a round whose tests run in threads.
//!
//! When a round begins the present problem is the one that it is tested on. So the instances that are enabled are found by threads that look
//! at that problem, piece by piece; the sums of rows that the tests need are made by threads too. Then one thread goes over what was found, in instance order: what reads no part that has changed since is
//! applied, and what does is left to the next round. Lines that are multiples of one another are not listed, since they may be very many:
//! they, and the empty columns behind them, are looked at in their turn.
#![tactic(auto)]

mod by_threads;
mod found;
mod listed;
mod pieces;
mod reduce;
mod shares;
mod sums;

pub use by_threads::ByThreads;
pub use presolve_rounds;
pub use reduce::presolve;
