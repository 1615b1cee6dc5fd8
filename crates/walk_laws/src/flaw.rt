//! Why records are none of a reduction.

/// The first part of a step that a record fails by.
#[derive(Clone, Copy, Debug, PartialEq, Eq)]
pub enum StepFlaw {
    /// The reduction that it names is not enabled.
    NotEnabled,
    /// The parts of its transaction are not those that the reduction reads, with the present numbers.
    Reading,
    /// A number of the change has no room.
    Past,
    /// The record of the reduction is another one.
    Fields,
}

/// The first part of a walk that fails.
#[derive(Clone, Copy, Debug, PartialEq, Eq)]
pub enum Flaw {
    /// The sense or the names are not the program's, or duals are undone where a column is whole or semi-continuous.
    Header,
    /// A record, by its number from 1 on.
    Step { number: u64, why: StepFlaw },
    /// The reduced program is another one.
    Program,
    /// The offset is another one.
    Offset,
}
