//! Whether the parts of a record are sound: ids, entries and lists.

ghost use Rattle.std.specs.Prelude.{◌≡◌, ◌≢◌, ◌<◌, ◌≤◌, IsTrue, ◌↔◌};
ghost use Rattle.fractions.specs.Number.{zero_ℚ};
ghost use Rattle.lp_model.specs.Sparse.{Ascends, has};
ghost use Rattle.undo_records.specs.Ids.{AreOthers, AreTwo, IsEntry};

use lp_model::Term;
use lp_model::fractions::frac::Frac;

/// Whether an id is one of so many.
pub(crate) fn is_among(id: u32, count: usize) -> bool
    ensures { IsTrue result ↔ (id < count) }
{
    (id as usize) < count
}

/// Whether a number can be divided by.
pub(crate) fn is_divisor(number: &Frac) -> bool
    ensures { IsTrue result ↔ (number.now ≢ zero_ℚ) }
{
    !number.is_zero()
}

/// Whether two ids are among so many and differ.
pub(crate) fn are_two(first: u32, second: u32, count: usize) -> bool
    ensures { IsTrue result ↔ AreTwo count first second }
{
    is_among(first, count) && is_among(second, count) && first != second
}

/// Whether an entry isn't 0 and stands in one of so many rows and columns.
pub(crate) fn is_entry(row: u32, column: u32, value: &Frac, rows: usize, columns: usize) -> bool
    ensures { IsTrue result ↔ IsEntry rows columns row column value.now }
{
    is_among(row, rows) && is_among(column, columns) && is_divisor(value)
}

/// Whether a term may stand where ids are at least this and below that.
fn may_stand(term: &Term, least: usize, count: usize) -> bool
    ensures { IsTrue result ↔ ((least ≤ term.now.id) × (term.now.id < count) × (term.now.value ≢ zero_ℚ)) }
{
    least <= (term.id as usize) && is_among(term.id, count) && is_divisor(&term.value)
}

/// Whether the ids of terms ascend, all among so many, and no number is 0.
pub(crate) fn ascend(terms: &[Term], count: usize) -> bool
    ensures { IsTrue result ↔ Ascends 0 count terms.now }
{
    let mut least = 0;
    let mut rest = terms;
    while let [term, after @ ..] = rest {
        if !may_stand(term, least, count) {
            return false;
        }
        least = (term.id as usize) + 1;
        rest = after;
    }
    true
}

/// Whether a term has this id.
pub(crate) fn have(terms: &[Term], id: u32) -> bool
    ensures { result ≡ has id terms.now }
{
    let mut rest = terms;
    while let [term, after @ ..] = rest {
        if term.id == id {
            return true;
        }
        rest = after;
    }
    false
}

/// Whether terms ascend, and none of them has this id.
pub(crate) fn are_others(terms: &[Term], id: u32, count: usize) -> bool
    ensures { IsTrue result ↔ AreOthers count id terms.now }
{
    ascend(terms, count) && !have(terms, id)
}
