//! What workers do.

use instances::Proposal;

/// What a worker does, by the worker's number.
#[derive(Drop)]
pub enum Event {
    /// It freezes the present problem.
    Freeze(u32),
    /// It proposes.
    Propose(u32, Proposal),
    /// It commits the first of its proposals.
    Commit(u32),
}
