//! How often each bound of a column was tightened. Counts stop at ten, and from there on the bound is tightened no more.

ghost use Rattle.std.specs.Prelude.{◌≡◌, length, slice_index_or, slice_set, IfOk};
ghost use Rattle.presolve_model.specs.Instances.{tallied};
ghost use Rattle.presolve_model.specs.Tallies.{count_on, counted, no_counts, one_more as once_more, open_on};

use presolve_model::Reduction;
use std::alloc::{AllocError, Global};
use std::marker::Model;
use undo_records::Side;

/// One more, up to ten.
fn one_more(count: u32) -> u32
    ensures { result ≡ once_more count }
{
    if count < 10 { count + 1 } else { count }
}

/// One more at a place, if it is there.
fn add_at(counts: &mut Vec<u32>, place: usize)
    ensures items { counts.new.items ≡ slice_set counts.old.items place (once_more (slice_index_or counts.old.items place 0)) }
    ensures long { length counts.new.items ≡ length counts.old.items }
{
    if place < counts.len() {
        counts[place] = one_more(counts[place]);
    }
}

/// How often the lower and the upper bound of each column were tightened, up to ten.
#[derive(Drop)]
pub struct Tally {
    lower: Vec<u32>,
    upper: Vec<u32>,
}

impl Model for Tally {
    ghost use Rattle.std.specs.Prelude.{◌≡◌, length};
    ghost use Rattle.presolve_model.specs.Tallies.{Counts};

    ghost Value = { Counts };

    ghost view = { λ t. record { lower = t.lower.items; upper = t.upper.items } };

    ghost invariant = { λ t. length t.upper.items ≡ length t.lower.items };
}

impl Tally {
    /// No bound of so many columns was tightened.
    pub fn new(alloc: Global, columns: u32) -> Result<Tally, AllocError>
        ensures { IfOk result (λ tally. tally ≡ no_counts columns) }
    {
        let lower = vec![in alloc; 0; columns as usize]?;
        let upper = vec![in alloc; 0; columns as usize]?;
        Ok(Tally { lower, upper })
    }

    /// How many columns there are.
    pub fn columns(&self) -> usize
        ensures lower { result ≡ length self.now.lower }
        ensures upper { result ≡ length self.now.upper }
    {
        self.lower.len()
    }

    /// How often a bound of a column was tightened, up to ten; of a column past the last, 0.
    pub fn count(&self, column: u32, side: Side) -> u32
        ensures { result ≡ count_on self.now column side }
    {
        let counts = match side {
            Side::Lower => &self.lower,
            Side::Upper => &self.upper,
        };
        match counts.get(column as usize) {
            Some(count) => *count,
            None => 0,
        }
    }

    /// Whether a bound of a column may be tightened.
    pub fn is_open(&self, column: u32, side: Side) -> bool
        ensures { result ≡ open_on self.now column side }
    {
        self.count(column, side) < 10
    }

    /// A bound of a column was tightened once more.
    pub fn add(&mut self, column: u32, side: Side)
        ensures { self.new ≡ counted self.old column side }
    {
        let place = column as usize;
        match side {
            Side::Lower => add_at(&mut self.lower, place),
            Side::Upper => add_at(&mut self.upper, place),
        }
    }

    /// A reduction was applied: one that tightens a bound is counted.
    pub fn follow(&mut self, reduction: Reduction)
        ensures { self.new ≡ tallied reduction self.old }
    {
        match reduction {
            Reduction::BoundTightening { column, side, .. } => self.add(column, side),
            Reduction::EmptyRow { .. }
            | Reduction::SingletonRow { .. }
            | Reduction::FixedColumn { .. }
            | Reduction::RoundedBounds { .. }
            | Reduction::RedundantRow { .. }
            | Reduction::RedundantSide { .. }
            | Reduction::ForcingRow { .. }
            | Reduction::CoefficientTightening { .. }
            | Reduction::DualFixing { .. }
            | Reduction::DominatedColumn { .. }
            | Reduction::DoubletonEquation { .. }
            | Reduction::FreeColumnSingleton { .. }
            | Reduction::SlackColumnSingleton { .. }
            | Reduction::ParallelRows { .. }
            | Reduction::ParallelColumns { .. }
            | Reduction::EmptyColumn { .. } => (),
        }
    }

    /// An equal tally.
    pub fn copy(&self, alloc: Global) -> Result<Tally, AllocError>
        ensures { IfOk result (λ tally. tally ≡ self.now) }
    {
        let lower = Vec::from_slice(alloc, self.lower.as_slice())?;
        let upper = Vec::from_slice(alloc, self.upper.as_slice())?;
        Ok(Tally { lower, upper })
    }
}
