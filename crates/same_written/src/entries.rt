//! Entries of a column.

ghost use Rattle.std.specs.Prelude.{◌≡◌, ◌≢◌, ◌↔◌, ◌<◌, ◌+◌, ◌^◌, ◌++◌, ◌∷◌, [], IfNone, IfOk, IfSome, IsTrue, List, if◌then◌else◌};
ghost use Rattle.lp_model.specs.declared.terms.Term.{Term};
ghost use Rattle.problem_model.specs.Programs.{renumbered};
ghost use Rattle.entry_lines.specs.Ranks.{AreRanks};

use entry_lines::Lines;
use lp_model::Term;
use sparse_problem::Problem;
use std::alloc::{AllocError, Global};

/// The id after this one where something is live.
fn next_id(is_live: bool, id: u32) -> u32
    requires { id + 1 < 2 ^ 32 }
    ensures { result ≡ (if is_live then id + 1 else id) }
{
    if is_live { id + 1 } else { id }
}

/// The new id of each row of a problem: how many live ones stand before it.
pub fn new_row_ids(alloc: Global, problem: &Problem) -> Result<Vec<u32>, AllocError>
    ensures { IfOk result (λ ids. AreRanks problem.now.matrix.rows ids.items) }
{
    let count = problem.row_count();
    let mut ids = Vec::with_capacity(alloc, count)?;
    let mut next: u32 = 0;
    for i in 0..count {
        ids.push(next)?;
        next = next_id(problem.is_row_live(i as u32), next);
    }
    Ok(ids)
}

/// What stands behind the term that is written of this one; all, where its row is gone. None where another term stands first.
fn behind_term<'a>(
    rows: &Lines<'_>,
    ids: &[u32],
    term: Term,
    terms: &'a [Term],
) -> Option<&'a [Term]>
    requires { AreRanks rows.now ids.now }
    ensures some { IfSome result (λ rest. terms.now ≡ renumbered rows.now (term ∷ []) ++ rest.now) }
    ensures none { IfNone result ((rest : List Term) → terms.now ≢ renumbered rows.now (term ∷ []) ++ rest) }
{
    if !rows.is_live(term.id) {
        return Some(terms);
    }
    let [first, rest @ ..] = terms else {
        return None;
    };
    if first.id != ids[term.id as usize] || !first.value.is_same(&term.value) {
        return None;
    }
    Some(rest)
}

/// Whether these are the terms at live rows, by the rows' new ids.
pub fn are_renumbered(rows: &Lines<'_>, ids: &[u32], originals: &[Term], terms: &[Term]) -> bool
    requires { AreRanks rows.now ids.now }
    ensures { IsTrue result ↔ (terms.now ≡ renumbered rows.now originals.now) }
{
    let mut rest = originals;
    let mut left = terms;
    while let [term, after @ ..] = rest {
        let Some(behind) = behind_term(rows, ids, *term, left) else {
            return false;
        };
        rest = after;
        left = behind;
    }
    left.is_empty()
}
