//! How the work of a run is shared out.

ghost use Rattle.std.specs.Prelude.{◌≡◌, ◌≤◌};
ghost use Rattle.std.specs.Bool.{MatchBool};
ghost use Rattle.presolve_model.specs.Workers.{IsInOrder, one_worker};

use std::marker::Model;

/// How many workers a run has, and whether they have to make what the ordered run makes.
#[derive(Clone, Copy, Debug)]
pub struct Workers {
    threads: u32,
    ordered: bool,
}

impl Model for Workers {
    ghost use Rattle.std.specs.Prelude.{◌≤◌};
    ghost use Rattle.presolve_model.specs.Workers.{Workers};

    ghost Value = { Workers };

    ghost view = { λ w. record { threads = w.threads; ordered = w.ordered } };

    ghost invariant = { λ w. (1 ≤ w.threads) × (w.threads ≤ 64) };

    ghost inverse = { λ w. record { threads = w.threads; ordered = w.ordered } };
}

impl Workers {
    /// From 1 to 64 workers, who have to make what the ordered run makes, or need not.
    pub fn new(threads: u32, ordered: bool) -> Workers
        requires some { 1 ≤ threads }
        requires few { threads ≤ 64 }
        ensures { result ≡ record { threads = threads; ordered = ordered } }
    {
        Workers { threads, ordered }
    }

    /// One worker, whose run is in order.
    pub fn one() -> Workers
        ensures one { result ≡ one_worker }
        ensures in_order { IsInOrder result }
    {
        Workers {
            threads: 1,
            ordered: false,
        }
    }

    /// How many there are.
    pub fn threads(&self) -> u32
        ensures count { result ≡ self.now.threads }
        ensures some { 1 ≤ result }
        ensures few { result ≤ 64 }
    {
        self.threads
    }

    /// Whether their run is in order: there is one, or they have to make what the ordered run makes.
    pub fn is_in_order(&self) -> bool
        ensures { MatchBool result (IsInOrder self.now) (IsInOrder self.now → ⊥) }
    {
        self.ordered || self.threads == 1
    }
}
