//! How a round goes over its instances.

ghost use Rattle.std.specs.Prelude.{◌≡◌, OnOk, ⊤};
ghost use Rattle.presolve_model.specs.Tallies.{open_on};
ghost use Rattle.place_laws.specs.Choosing.{visited};
ghost use Rattle.presolve_rounds.specs.Walking.{begun, IsGoing, IsPassed, IsWalk};

use crate::pass::{Walk, pass};
use round_marks::around::Around;
use round_marks::txn_book::Book;
use round_marks::watch::Watch;
use std::alloc::{AllocError, Global};

/// A way to go over the instances of a round. Each of them does the same to a book, sooner or later.
pub trait Passes {
    /// What it needs at each pass, beside what passes are asked for.
    ghost ready: { Self → Type 0 };

    /// All instances at these rows and columns, in instance order, in the book with which the round begins. Notes what changes, and a part of
    /// what was left over, or marks it as asleep.
    ///
    /// # Errors
    /// Memory ran out.
    fn pass(
        &self,
        alloc: Global,
        book: &mut Book,
        walk: &Walk<'_>,
        ids: &Around,
        watch: &mut Watch,
    ) -> Result<(), AllocError>
        requires ready { ready self.now }
        requires begins { begun walk.now ≡ book.old }
        requires going { IsGoing (begun walk.now) watch.old book.old }
        requires walk { IsWalk walk.now }
        ensures { OnOk result (IsPassed (begun walk.now) (visited (open_on (begun walk.now).tally) (begun walk.now).problem ids.now) watch.old book.old watch.new book.new) };
}

/// Looks at each instance when its turn comes, on the present problem.
#[derive(Clone, Copy, Debug, Default)]
pub struct InTurn;

impl Passes for InTurn {
    ghost ready = { λ _. ⊤ };

    fn pass(
        &self,
        alloc: Global,
        book: &mut Book,
        walk: &Walk<'_>,
        ids: &Around,
        watch: &mut Watch,
    ) -> Result<(), AllocError> {
        pass(alloc, book, walk, ids, watch)
    }
}
