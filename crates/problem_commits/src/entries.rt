//! Entries set before anything else is changed, and given back where memory runs out.

ghost use Rattle.std.specs.Prelude.{◌≡◌, ◌<◌, ◌≤◌, ◌++◌, ◌∷◌, [], length, true, IfNone, IfOk, IfSome, OnErr, OnOk};
ghost use Rattle.std.specs.List.{All};
ghost use Rattle.problem_model.specs.declared.edit.Edit.TheVariants as edit;
ghost use Rattle.problem_model.specs.Allowed.{AreAllowed, EntriesFirst};
ghost use Rattle.problem_model.specs.Applied.{applied};
ghost use Rattle.problem_model.specs.Offsets.{OffsetFits};
ghost use Rattle.problem_model.specs.Problems.{column_at, row_at};
ghost use Rattle.problem_model.specs.Sparse.{Sparse};
ghost use Rattle.lp_model.specs.declared.terms.Term.{Term};
ghost use Rattle.entry_lines.specs.Putting.{entries_set, IdsAscend};
ghost use Rattle.problem_commits.specs.Restoring.{CanRestore, GoesOn, HasNoEntry, IsRun, IsTrail, MayGoOn, NoneBehind, restored, run_of};

use crate::edits::make_all;
use entry_lines::Replaced;
use fractions::frac::Frac;
use lp_model::Term;
use problem_model::Edit;
use sparse_problem::Problem;
use std::alloc::{AllocError, Global};

/// An edit of an entry.
#[derive(Clone, Copy)]
struct EntryEdit {
    row: u32,
    column: u32,
    value: Frac,
}

/// The first edit, if it sets an entry, and the edits behind it.
fn first_entry<'a>(edits: &'a [Edit]) -> Option<(EntryEdit, &'a [Edit])>
    ensures some { IfSome result (λ r. edits.entry.now ≡ edit.SetEntry r.0.row r.0.column r.0.value ∷ r.1.now) }
    ensures none { IfNone result (HasNoEntry edits.entry.now) }
{
    match edits {
        [Edit::SetEntry { row, column, value }, after @ ..] => Some((
            EntryEdit {
                row: *row,
                column: *column,
                value: *value,
            },
            after,
        )),
        _ => None,
    }
}

/// The term of the first edit, if that sets an entry of a column in a row behind another, and the edits behind it.
fn next_term<'a>(edits: &'a [Edit], column: u32, last: u32) -> Option<(Term, &'a [Edit])>
    ensures edit { IfSome result (λ r. edits.entry.now ≡ edit.SetEntry r.0.id column r.0.value ∷ r.1.now) }
    ensures behind { IfSome result (λ r. last < r.0.id) }
    ensures none { IfNone result (NoneBehind column last edits.entry.now) }
{
    match edits {
        [
            Edit::SetEntry {
                row,
                column: other,
                value,
            },
            after @ ..,
        ] => {
            if *other != column {
                return None;
            }
            if *row <= last {
                return None;
            }
            Some((
                Term {
                    id: *row,
                    value: *value,
                },
                after,
            ))
        }
        _ => None,
    }
}

/// Adds the terms of the first edits, as long as they set entries of a column in ascending rows, and hands out the edits behind them.
fn take_run<'a>(
    terms: &mut Vec<Term>,
    column: u32,
    last: u32,
    edits: &'a [Edit],
) -> Result<&'a [Edit], AllocError>
    requires last { All (λ t. t.id ≤ last) terms.old.items }
    requires ascends { IdsAscend 0 terms.old.items }
    requires top { (t : Term) → IdsAscend 0 (terms.old.items ++ t ∷ []) → last < t.id }
    ensures run { IfOk result (λ left. IsRun column terms.new.items (run_of column terms.old.items ++ edits.entry.now) left.now) }
    ensures shorter { IfOk result (λ left. length left.now ≤ length edits.entry.now) }
{
    let mut last = last;
    let mut rest = edits;
    while let Some((term, after)) = next_term(rest, column, last) {
        let row = term.id;
        terms.push(term)?;
        last = row;
        rest = after;
    }
    Ok(rest)
}

/// The terms of the longest run of edits that set entries of one column in ascending rows, of which this is the first, and the edits
/// behind them.
fn first_run<'a>(
    terms: &mut Vec<Term>,
    entry: &EntryEdit,
    after: &'a [Edit],
) -> Result<&'a [Edit], AllocError>
    requires none { terms.old.items ≡ [] }
    ensures run { IfOk result (λ left. IsRun entry.now.column terms.new.items (edit.SetEntry entry.now.row entry.now.column entry.now.value ∷ after.entry.now) left.now) }
    ensures shorter { IfOk result (λ left. length left.now ≤ length after.entry.now) }
{
    terms.push(Term {
        id: entry.row,
        value: entry.value,
    })?;
    take_run(terms, entry.column, entry.row, after)
}

/// Sets the entries of terms in a column, and keeps what stood there before.
fn set_terms(
    problem: &mut Problem,
    alloc: Global,
    column: u32,
    terms: &[Term],
    replaced: &mut Vec<Replaced>,
) -> Result<(), AllocError>
    requires rows { All (λ t. (row_at problem.old t.id).live ≡ true) terms.now }
    requires column { (column_at problem.old column).live ≡ true }
    requires ascends { IdsAscend 0 terms.now }
    ensures set { OnOk result (problem.new ≡ entries_set problem.old column terms.now) }
    ensures trail { (p : Sparse) → IsTrail replaced.old.items p problem.old → IsTrail replaced.new.items p problem.new }
{
    problem.is_sparse();
    replaced.reserve(1)?;
    let before = problem.set_entries(alloc, column, terms)?;
    replaced.push_reserved(before);
    Ok(())
}

/// Sets the entries that an edit and those that go on with it set in one column, and hands out the edits behind them. What stood there
/// before is kept.
fn set_run<'a>(
    problem: &mut Problem,
    alloc: Global,
    entry: &EntryEdit,
    after: &'a [Edit],
    replaced: &mut Vec<Replaced>,
) -> Result<&'a [Edit], AllocError>
    requires { MayGoOn problem.old (edit.SetEntry entry.now.row entry.now.column entry.now.value ∷ after.now) }
    ensures same { IfOk result (λ left. applied problem.new left.now ≡ applied problem.old (edit.SetEntry entry.now.row entry.now.column entry.now.value ∷ after.entry.now)) }
    ensures may { IfOk result (λ left. MayGoOn problem.new left.now) }
    ensures shorter { IfOk result (λ left. length left.now ≤ length after.entry.now) }
    ensures trail { (p : Sparse) → IsTrail replaced.old.items p problem.old → IsTrail replaced.new.items p problem.new }
{
    let mut terms = Vec::new(alloc);
    let left = first_run(&mut terms, entry, after)?;
    set_terms(problem, alloc, entry.column, terms.as_slice(), replaced)?;
    Ok(left)
}

/// Sets the entries that the first edits set, and hands out the edits behind them. What stood there before is kept.
fn set_first<'a>(
    problem: &mut Problem,
    alloc: Global,
    edits: &'a [Edit],
    replaced: &mut Vec<Replaced>,
) -> Result<&'a [Edit], AllocError>
    requires none { replaced.old.items ≡ [] }
    requires may { MayGoOn problem.old edits.now }
    ensures done { IfOk result (λ left. GoesOn problem.old edits.entry.now problem.new left.now) }
    ensures trail { IsTrail replaced.new.items problem.old problem.new }
{
    let mut rest = edits;
    while let Some((entry, after)) = first_entry(rest) {
        rest = set_run(problem, alloc, &entry, after, replaced)?;
    }
    Ok(rest)
}

/// Gives back what stood before, the last one first.
fn restore(problem: &mut Problem, replaced: Vec<Replaced>)
    requires { CanRestore replaced.items problem.old }
    ensures { problem.new ≡ restored replaced.items problem.old }
{
    let mut left = replaced;
    while let Some(last) = left.pop() {
        problem.put_back(last);
    }
}

/// Makes edits, one after the other.
///
/// # Errors
/// Memory ran out. The problem is as it was.
pub fn apply(problem: &mut Problem, alloc: Global, edits: &[Edit]) -> Result<(), AllocError>
    requires allowed { AreAllowed problem.old edits.now }
    requires fits { OffsetFits problem.old.offset edits.now }
    requires first { EntriesFirst edits.now }
    ensures ok { OnOk result (problem.new ≡ applied problem.old edits.now) }
    ensures err { OnErr result (problem.new ≡ problem.old) }
{
    let mut replaced = Vec::new(alloc);
    match set_first(problem, alloc, edits, &mut replaced) {
        Ok(left) => {
            make_all(problem, left);
            Ok(())
        }
        Err(error) => {
            restore(problem, replaced);
            Err(error)
        }
    }
}
