//! What presolve is told, and how it ends.

use fractions::Numbers;

/// What presolve is told.
#[derive(Clone, Copy, Debug, PartialEq, Eq)]
pub struct Options {
    /// The numbers that a reduced program may have.
    pub numbers: Numbers,
    /// How many reductions may be applied.
    pub limit: u64,
    /// The records undo duals too. That is of use where no column of the program has to be whole or is semi-continuous.
    pub dual: bool,
}

/// How a run ended that reduced its program.
#[derive(Clone, Copy, Debug, PartialEq, Eq)]
pub enum End {
    /// No reduction is left that could be applied. So many are enabled, and each has a number that is past the range or can't be written.
    Fixpoint { skipped: u64 },
    /// As many reductions were applied as are allowed.
    LimitReached,
}
