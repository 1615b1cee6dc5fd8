//! The lists of entries that records hold, one for each row.

ghost use Rattle.std.specs.Prelude.{◌≡◌, IfSome, IsTrue};

use lp_model::Term;
use std::alloc::{AllocError, Global};
use undo_records::{BoundTightening, ParallelRows, SharedTerms, Undo};

/// The list that a record of each row held last. A record of the same row with the same entries gets that list for its own, so that no
/// record has a list to itself while its row stays as it is.
#[derive(Drop)]
pub struct RowLists {
    lists: Vec<Option<SharedTerms>>,
}

/// Whether two terms are the same.
fn same_term(a: &Term, b: &Term) -> bool
    ensures { IsTrue result → a.now ≡ b.now }
{
    a.id == b.id && a.value.is_same(&b.value)
}

/// Whether two lists hold the same terms.
fn same_terms(a: &[Term], b: &[Term]) -> bool
    ensures { IsTrue result → a.now ≡ b.now }
{
    let mut rest = a;
    let mut left = b;
    while let [first, after @ ..] = rest {
        match left {
            [] => return false,
            [other, others @ ..] => {
                if !same_term(first, other) {
                    return false;
                }
                left = others;
            }
        }
        rest = after;
    }
    left.is_empty()
}

/// The list of another record, if it holds the same terms.
fn shared_with(last: Option<&SharedTerms>, entries: &SharedTerms) -> Option<SharedTerms>
    ensures { IfSome result (λ shared. shared ≡ entries.now) }
{
    let list = last?;
    if same_terms(list.as_slice(), entries.as_slice()) {
        list.share()
    } else {
        None
    }
}

impl RowLists {
    /// No list of any of some rows.
    ///
    /// # Errors
    /// Memory ran out.
    pub fn new(alloc: Global, rows: usize) -> Result<RowLists, AllocError> {
        let mut lists = Vec::with_capacity(alloc, rows)?;
        for _ in 0..rows {
            lists.push(None)?;
        }
        Ok(RowLists { lists })
    }

    /// The list that a record of this row held last.
    fn last(&self, row: u32) -> Option<&SharedTerms> {
        match self.lists.get(row as usize) {
            Some(list) => list.as_ref(),
            None => None,
        }
    }

    /// Keeps a list as the last one of a row.
    fn keep(&mut self, row: u32, entries: &SharedTerms) {
        if (row as usize) < self.lists.len() {
            self.lists[row as usize] = entries.share();
        }
    }

    /// The same terms: the list that a record of this row held last, where that holds them.
    fn list_of(&mut self, row: u32, entries: SharedTerms) -> SharedTerms
        ensures { result ≡ entries }
    {
        match shared_with(self.last(row), &entries) {
            Some(shared) => shared,
            None => {
                self.keep(row, &entries);
                entries
            }
        }
    }

    /// The same record of a tightened bound, with the list of its row.
    fn with_bound_list(&mut self, tightened: BoundTightening) -> BoundTightening
        ensures { result ≡ tightened }
    {
        let BoundTightening {
            row,
            column,
            side,
            bound,
            entries,
        } = tightened;
        BoundTightening {
            row,
            column,
            side,
            bound,
            entries: self.list_of(row, entries),
        }
    }

    /// The same record of parallel rows, with the list of the row that was kept.
    fn with_kept_list(&mut self, parallel: ParallelRows) -> ParallelRows
        ensures { result ≡ parallel }
    {
        let ParallelRows {
            row,
            kept,
            factor,
            lower,
            upper,
            entries,
        } = parallel;
        ParallelRows {
            row,
            kept,
            factor,
            lower,
            upper,
            entries: self.list_of(kept, entries),
        }
    }

    /// The same record, which holds no list of a row that is held already: of the row that tightened a bound, or was kept beside a parallel
    /// one.
    pub fn share(&mut self, undo: Undo) -> Undo
        ensures { result ≡ undo }
    {
        match undo {
            Undo::BoundTightening(tightened) => Undo::BoundTightening(self.with_bound_list(
                tightened,
            )),
            Undo::ParallelRows(parallel) => Undo::ParallelRows(self.with_kept_list(parallel)),
            other => other,
        }
    }
}
