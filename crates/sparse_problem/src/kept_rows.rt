//! What is kept of rows, and how it is mended.

ghost use Rattle.std.specs.Prelude.{◌≡◌, ◌≢◌, ◌++◌, ◌∷◌, [], true, false, List, IfOk, IfSome, slice_set};
ghost use Rattle.fractions.specs.Number.{zero_ℚ};
ghost use Rattle.lp_model.specs.Sparse.{dense, has};
ghost use Rattle.problem_model.specs.Edits.{bounds_set, column_deleted};
ghost use Rattle.problem_model.specs.Problems.{bounds_at, column_at, row_at};
ghost use Rattle.problem_model.specs.Sparse.{Sparse};
ghost use Rattle.lp_model.specs.declared.terms.Term.{Term as TermValue};
ghost use Rattle.row_spans.specs.declared.span.Span.{Span as SpanValue};
ghost use Rattle.row_spans.specs.Spans.{span_of as span_with, spans_among, spans_of};
ghost use Rattle.kept_sums.specs.KeptSums.{AreSumsOf, HaveRoom};
ghost use Rattle.sparse_problem.specs.KeptRows.{AreBetween, AreKept, AreKeptBut, kept_at, span_within};

use fractions::ext::Ext;
use kept_sums::KeptSums;
use lp_model::Term;
use lp_model::ends::{reach_lower, reach_upper};
use problem_data::ProblemData;
use problem_model::Bounds;
use row_spans::Span;
use std::alloc::{AllocError, Global};

/// An entry of a column with these bounds, those of their hull with 0 where it is semi-continuous.
#[cold]
fn span_with_zero(parts: &ProblemData, j: u32, term: &Term, lower: &Ext, upper: &Ext) -> Span
    requires { (column_at parts.now j).live ≡ true }
    ensures { result ≡ span_within parts.now j term.now.value lower.now upper.now }
{
    let Bounds { whole, semi, .. } = parts.bounds(j);
    Span {
        id: j,
        value: term.value,
        lower: reach_lower(semi, lower, upper),
        upper: reach_upper(semi, lower, upper),
        whole,
        semi,
    }
}

/// The same, with the bounds as they are where the column isn't semi-continuous.
fn span_in(parts: &ProblemData, j: u32, term: &Term, lower: &Ext, upper: &Ext) -> Span
    requires { (column_at parts.now j).live ≡ true }
    ensures { result ≡ span_within parts.now j term.now.value lower.now upper.now }
{
    let bounds = parts.bounds(j);
    if bounds.semi {
        return span_with_zero(parts, j, term, lower, upper);
    }
    Span {
        id: j,
        value: term.value,
        lower: *lower,
        upper: *upper,
        whole: bounds.whole,
        semi: false,
    }
}

/// An entry of a row with the bounds of its column.
pub(crate) fn span_of(parts: &ProblemData, term: &Term) -> Span
    requires { (column_at parts.now term.now.id).live ≡ true }
    ensures { result ≡ span_with parts.now term.now }
{
    let bounds = parts.bounds(term.id);
    span_in(parts, term.id, term, &bounds.lower, &bounds.upper)
}

/// Sums with a term more, where its column is live. `None` where a number has no room.
fn with_term(kept: &KeptSums, parts: &ProblemData, term: &Term) -> Option<KeptSums>
    requires { HaveRoom kept.now }
    ensures room { IfSome result (λ k. HaveRoom k) }
    ensures value { IfSome result (λ k. (ts : List TermValue) → AreSumsOf (spans_among parts.now ts) kept.now → AreSumsOf (spans_among parts.now (ts ++ term.now ∷ [])) k) }
{
    if parts.is_column_live(term.id) {
        kept.with(&span_of(parts, term))
    } else {
        Some(*kept)
    }
}

/// The sums of terms. `None` where a number has no room.
fn sums_of_terms(parts: &ProblemData, terms: &[Term]) -> Option<KeptSums>
    ensures { IfSome result (AreSumsOf (spans_among parts.now terms.now)) }
{
    let mut kept = KeptSums::none();
    for term in terms {
        kept = with_term(&kept, parts, term)?;
    }
    Some(kept)
}

/// The sums of a row. `None` where a number has no room; nothing is made of a row past the last.
pub fn sums_of_row(parts: &ProblemData, i: u32) -> Option<KeptSums>
    ensures { IfSome result (AreSumsOf (spans_of parts.now i)) }
{
    match parts.rows().get(i as usize) {
        Some(line) => sums_of_terms(parts, line.entries.as_slice()),
        None => None,
    }
}

/// Nothing kept of each of some rows.
pub fn nothing_kept(alloc: Global, rows: usize) -> Result<Vec<Option<KeptSums>>, AllocError>
    ensures { IfOk result (λ ks. (p : Sparse) → AreKept p ks.items) }
{
    let mut kept = Vec::with_capacity(alloc, rows)?;
    for _ in 0..rows {
        kept.push(None)?;
    }
    Ok(kept)
}

/// What is kept of a row.
pub fn kept_of(kept: &[Option<KeptSums>], i: u32) -> Option<KeptSums>
    ensures { result ≡ kept_at kept.now i }
{
    match kept.get(i as usize) {
        Some(sums) => *sums,
        None => None,
    }
}

/// Puts other sums in the place of a row's.
pub fn put(kept: &mut Vec<Option<KeptSums>>, i: u32, sums: Option<KeptSums>)
    ensures { kept.new.items ≡ slice_set kept.old.items i sums }
{
    if (i as usize) < kept.len() {
        kept[i as usize] = sums;
    }
}

/// Forgets what is kept of the rows that terms name.
pub fn forget_rows(kept: &mut Vec<Option<KeptSums>>, terms: &[Term])
    ensures { (q : Sparse) → AreKeptBut q terms.now kept.old.items → AreKept q kept.new.items }
{
    let mut rest = terms;
    while let [term, after @ ..] = rest {
        put(kept, term.id, None);
        rest = after;
    }
}

/// Forgets what is kept of all rows.
pub fn forget_all(kept: &mut Vec<Option<KeptSums>>)
    ensures { (q : Sparse) → AreKept q kept.new.items }
{
    kept.clear();
}

/// The sums of a row, one of whose entries changes. `None` where a number has no room.
fn moved(kept: &Option<KeptSums>, before: &Span, after: &Span) -> Option<KeptSums>
    requires { IfSome kept.now (λ k. HaveRoom k) }
    ensures { (a b : List SpanValue) → IfSome kept.now (AreSumsOf (a ++ before.now ∷ b)) → IfSome result (AreSumsOf (a ++ after.now ∷ b)) }
{
    match kept {
        None => None,
        Some(kept) => kept.moved(before, after),
    }
}

/// The sums of a row without one of its entries. `None` where a number has no room.
fn lost(kept: &Option<KeptSums>, span: &Span) -> Option<KeptSums>
    requires { IfSome kept.now (λ k. HaveRoom k) }
    ensures { (a b : List SpanValue) → IfSome kept.now (AreSumsOf (a ++ span.now ∷ b)) → IfSome result (AreSumsOf (a ++ b)) }
{
    match kept {
        None => None,
        Some(kept) => kept.without(span),
    }
}

/// The sums of the row that a term of a column names, where that column gets other bounds.
fn moved_in_row(
    kept: &Option<KeptSums>,
    parts: &ProblemData,
    j: u32,
    term: &Term,
    lower: &Ext,
    upper: &Ext,
) -> Option<KeptSums>
    requires column { (column_at parts.now j).live ≡ true }
    requires room { IfSome kept.now (λ k. HaveRoom k) }
    ensures { (a b : List SpanValue) → IfSome kept.now (AreSumsOf (a ++ span_within parts.now j term.now.value (bounds_at parts.now j).lower (bounds_at parts.now j).upper ∷ b)) → IfSome result (AreSumsOf (a ++ span_within parts.now j term.now.value lower.now upper.now ∷ b)) }
{
    let bounds = parts.bounds(j);
    let before = span_in(parts, j, term, &bounds.lower, &bounds.upper);
    let after = span_in(parts, j, term, lower, upper);
    moved(kept, &before, &after)
}

/// Mends what is kept of the row that a term of a column names, where that column gets other bounds.
fn move_in_row(
    kept: &mut Vec<Option<KeptSums>>,
    parts: &ProblemData,
    j: u32,
    term: &Term,
    lower: &Ext,
    upper: &Ext,
)
    requires column { (column_at parts.now j).live ≡ true }
    requires told { dense (column_at parts.now j).entries term.now.id ≡ term.now.value }
    requires some { term.now.value ≢ zero_ℚ }
    requires room { IfSome (kept_at kept.old.items term.now.id) (λ k. HaveRoom k) }
    ensures { (ts : List TermValue) → has term.now.id ts ≡ false → AreBetween parts.now (bounds_set parts.now j lower.now upper.now) (term.now ∷ ts) kept.old.items → AreBetween parts.now (bounds_set parts.now j lower.now upper.now) ts kept.new.items }
{
    parts.is_sparse();
    if parts.is_row_live(term.id) {
        let before = kept_of(kept.as_slice(), term.id);
        let sums = moved_in_row(&before, parts, j, term, lower, upper);
        put(kept, term.id, sums);
    } else {
        put(kept, term.id, None);
    }
}

/// Mends what is kept of the rows of a column, where it gets other bounds.
pub fn move_in_rows(
    kept: &mut Vec<Option<KeptSums>>,
    parts: &ProblemData,
    j: u32,
    lower: &Ext,
    upper: &Ext,
)
    requires column { (column_at parts.now j).live ≡ true }
    requires kept { AreKept parts.now kept.old.items }
    ensures { AreKept (bounds_set parts.now j lower.now upper.now) kept.new.items }
{
    parts.is_sparse();
    let mut rest = parts.columns()[j as usize].entries.as_slice();
    while let [term, after @ ..] = rest {
        move_in_row(kept, parts, j, term, lower, upper);
        rest = after;
    }
}

/// The sums of the row that a term of a column names, where that column is deleted.
fn lost_in_row(
    kept: &Option<KeptSums>,
    parts: &ProblemData,
    j: u32,
    term: &Term,
) -> Option<KeptSums>
    requires column { (column_at parts.now j).live ≡ true }
    requires room { IfSome kept.now (λ k. HaveRoom k) }
    ensures { (a b : List SpanValue) → IfSome kept.now (AreSumsOf (a ++ span_within parts.now j term.now.value (bounds_at parts.now j).lower (bounds_at parts.now j).upper ∷ b)) → IfSome result (AreSumsOf (a ++ b)) }
{
    let bounds = parts.bounds(j);
    lost(kept, &span_in(parts, j, term, &bounds.lower, &bounds.upper))
}

/// Mends what is kept of the row that a term of a column names, where that column is deleted.
fn lose_in_row(kept: &mut Vec<Option<KeptSums>>, parts: &ProblemData, j: u32, term: &Term)
    requires column { (column_at parts.now j).live ≡ true }
    requires told { dense (column_at parts.now j).entries term.now.id ≡ term.now.value }
    requires some { term.now.value ≢ zero_ℚ }
    requires room { IfSome (kept_at kept.old.items term.now.id) (λ k. HaveRoom k) }
    ensures { (ts : List TermValue) → has term.now.id ts ≡ false → AreBetween parts.now (column_deleted parts.now j) (term.now ∷ ts) kept.old.items → AreBetween parts.now (column_deleted parts.now j) ts kept.new.items }
{
    parts.is_sparse();
    if parts.is_row_live(term.id) {
        let before = kept_of(kept.as_slice(), term.id);
        let sums = lost_in_row(&before, parts, j, term);
        put(kept, term.id, sums);
    } else {
        put(kept, term.id, None);
    }
}

/// Mends what is kept of the rows of a column, where it is deleted.
pub fn lose_in_rows(kept: &mut Vec<Option<KeptSums>>, parts: &ProblemData, j: u32)
    requires column { (column_at parts.now j).live ≡ true }
    requires kept { AreKept parts.now kept.old.items }
    ensures { AreKept (column_deleted parts.now j) kept.new.items }
{
    parts.is_sparse();
    let mut rest = parts.columns()[j as usize].entries.as_slice();
    while let [term, after @ ..] = rest {
        lose_in_row(kept, parts, j, term);
        rest = after;
    }
}
