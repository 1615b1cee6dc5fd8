//! Passes whose tests run in threads.

ghost use Rattle.std.specs.Prelude.{◌≡◌, OnOk};
ghost use Rattle.std.specs.Thread.{IsSync};
ghost use Rattle.place_laws.specs.Choosing.{visited};
ghost use Rattle.presolve_model.specs.Tallies.{open_on};
ghost use Rattle.presolve_rounds.specs.Walking.{begun, IsGoing, IsPassed, IsWalk};
ghost use Rattle.threaded_passes.specs.Listing.{listed_order, turned_order};

use crate::found::enabled_by_threads;
use crate::listed::visit_listed;
use crate::pieces::{LEAST_COST, cost_of};
use crate::sums::keep_sums_by_threads;
use presolve_model::Rule;
use presolve_rounds::Passes;
use presolve_rounds::pass::{Walk, pass, visit_rules};
use presolve_rounds::round_marks::around::Around;
use presolve_rounds::round_marks::watch::Watch;
use presolve_rounds::txn_book::Book;
use std::alloc::{AllocError, Global};
use std::thread::Threads;

/// Finds the enabled instances of a round by at most so many threads, and goes over what was found in one.
#[derive(Drop)]
pub struct ByThreads<'a, R> {
    rt: &'a R,
    threads: u32,
}

/// The rules whose instances are listed.
fn listed_rules() -> [Rule; 18]
    ensures { result ≡ listed_order }
{
    [
        Rule::CrossedBounds,
        Rule::CrossedSides,
        Rule::InfeasibleRow,
        Rule::UnboundedColumn,
        Rule::EmptyRow,
        Rule::SingletonRow,
        Rule::FixedColumn,
        Rule::RoundedBounds,
        Rule::RedundantRow,
        Rule::RedundantSide,
        Rule::ForcingRow,
        Rule::BoundTightening,
        Rule::CoefficientTightening,
        Rule::DualFixing,
        Rule::DominatedColumn,
        Rule::DoubletonEquation,
        Rule::FreeColumnSingleton,
        Rule::SlackColumnSingleton,
    ]
}

/// The rules whose instances are looked at in their turn.
fn turned_rules() -> [Rule; 3]
    ensures { result ≡ turned_order }
{
    [Rule::ParallelRows, Rule::ParallelColumns, Rule::EmptyColumn]
}

impl<'a, R: Threads + Sync> ByThreads<'a, R> {
    /// With this runtime, by so many threads. What it needs at each pass is there: the runtime may be shared.
    pub fn new(rt: &'a R, threads: u32) -> ByThreads<'a, R>
        ensures { result.threads ≡ threads }
    {
        ByThreads { rt, threads }
    }

    /// Finds what is enabled as the round begins by threads, which share what that costs, and goes over it in one; then goes over what is looked at
    /// in its turn.
    fn pass_found(
        &self,
        alloc: Global,
        book: &mut Book,
        walk: &Walk<'_>,
        ids: &Around,
        cost: u64,
        watch: &mut Watch,
    ) -> Result<(), AllocError>
        requires able { IsSync R.row }
        requires begins { begun walk.now ≡ book.old }
        requires going { IsGoing (begun walk.now) watch.old book.old }
        requires walk { IsWalk walk.now }
        ensures { OnOk result (IsPassed (begun walk.now) (visited (open_on (begun walk.now).tally) (begun walk.now).problem ids.now) watch.old book.old watch.new book.new) }
    {
        let found = enabled_by_threads(
            self.rt,
            alloc,
            self.threads,
            book.problem(),
            walk.groups,
            book.tally(),
            ids,
            &listed_rules(),
            cost,
        )?;
        visit_listed(alloc, book, walk, found.as_slice(), watch)?;
        visit_rules(alloc, book, walk, &turned_rules(), ids, watch)?;
        Ok(())
    }
}

impl<'a, R: Threads + Sync> Passes for ByThreads<'a, R> {
    ghost ready = { λ _. IsSync R.row };

    fn pass(
        &self,
        alloc: Global,
        book: &mut Book,
        walk: &Walk<'_>,
        ids: &Around,
        watch: &mut Watch,
    ) -> Result<(), AllocError> {
        let rows = ids.of(Rule::BoundTightening);
        keep_sums_by_threads(self.rt, alloc, self.threads, book, rows)?;
        let cost = cost_of(book.problem(), ids, &listed_rules());
        if cost < LEAST_COST {
            return pass(alloc, book, walk, ids, watch);
        }
        self.pass_found(alloc, book, walk, ids, cost, watch)
    }
}
