//! Who looks on at a run.

use round_marks::txn_book::Book;
use std::alloc::{AllocError, Global};

/// Is told of a run after each of its rounds, and at its end. It promises nothing but to return, so no result rests on it.
pub trait Onlooker {
    /// A round has ended, and left this book.
    ///
    /// # Errors
    /// Memory ran out; the run ends with that.
    fn after_round(&mut self, alloc: Global, book: &Book) -> Result<(), AllocError>;

    /// No round follows: the run has ended, or memory ran out in it. Where workers race, this may be told twice.
    fn after_run(&mut self);
}

/// Does not look.
#[derive(Clone, Copy, Debug, Default)]
pub struct NoOnlooker;

impl Onlooker for NoOnlooker {
    fn after_round(&mut self, _alloc: Global, _book: &Book) -> Result<(), AllocError> {
        Ok(())
    }

    fn after_run(&mut self) {}
}
