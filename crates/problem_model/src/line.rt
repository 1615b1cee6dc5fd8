//! Rows and columns of a problem.

use lp_model::Terms;
use lp_model::ends::{reach_lower, reach_upper};
use lp_model::fractions::ext::Ext;

/// A row, whose entries name columns, or a column, whose entries name rows. Entries may stay in place when what they name is deleted; one that
/// isn't there has none.
#[derive(Drop)]
pub struct Line {
    /// Whether it is there.
    pub live: bool,
    /// Its entries, by the ids of what they name.
    pub entries: Terms,
    /// How many of its entries name what is there.
    pub live_entries: usize,
    /// How often its live entries have changed, up to 2^64 - 1.
    pub changes: u64,
}

/// The sides of a row, and how often they have changed, up to 2^64 - 1.
#[derive(Clone, Copy)]
pub struct Sides {
    pub lower: Ext,
    pub upper: Ext,
    pub changes: u64,
}

/// The bounds of a column, whether it must be whole, whether it is semi-continuous, and how often its bounds have changed, up to 2^64 - 1.
#[derive(Clone, Copy)]
pub struct Bounds {
    pub lower: Ext,
    pub upper: Ext,
    pub whole: bool,
    pub semi: bool,
    pub changes: u64,
}

impl Bounds {
    ghost use Rattle.std.specs.Prelude.{◌≡◌};
    ghost use Rattle.problem_model.specs.Showing.{reach_high, reach_low};

    /// The end from which the column's values reach upwards: its lower bound, or that of their hull with 0 where it is semi-continuous.
    pub fn reach_lower(&self) -> Ext
        ensures { result ≡ reach_low self.now }
    {
        reach_lower(self.semi, &self.lower, &self.upper)
    }

    /// The end from which they reach downwards.
    pub fn reach_upper(&self) -> Ext
        ensures { result ≡ reach_high self.now }
    {
        reach_upper(self.semi, &self.lower, &self.upper)
    }
}
