//! New ids of lines, and terms by these.

ghost use Rattle.std.specs.Prelude.{◌≡◌, ◌<◌, ◌^◌, ◌++◌, ◌∷◌, [], ◌+◌, length, if◌then◌else◌, IfOk, OnOk};
ghost use Rattle.problem_model.specs.Programs.{renumbered};
ghost use Rattle.entry_lines.specs.Ranks.{AreRanks};

use crate::living::is_live;
use lp_model::{Term, Terms};
use problem_model::Line;
use std::alloc::{AllocError, Global};

/// The id after this one if a line is live.
fn next_id(line: &Line, id: u32) -> u32
    requires { id + 1 < 2 ^ 32 }
    ensures { result ≡ (if line.now.live then id + 1 else id) }
{
    if line.live { id + 1 } else { id }
}

/// The new id of each line: how many live ones come before it.
pub fn new_ids(alloc: Global, lines: &[Line]) -> Result<Vec<u32>, AllocError>
    requires { length lines.now < 2 ^ 32 }
    ensures { IfOk result (λ ids. AreRanks lines.now ids.items) }
{
    let mut ids = Vec::with_capacity(alloc, lines.len())?;
    let mut next: u32 = 0;
    for line in lines {
        ids.push(next)?;
        next = next_id(line, next);
    }
    Ok(ids)
}

/// Adds a term that names a live line, by its new id, and leaves any other out.
fn keep_renumbered(
    items: &mut Vec<Term>,
    lines: &[Line],
    ids: &[u32],
    term: Term,
) -> Result<(), AllocError>
    requires { AreRanks lines.now ids.now }
    ensures { OnOk result (items.new.items ≡ items.old.items ++ renumbered lines.now (term ∷ [])) }
{
    if is_live(lines, term.id) {
        items.push(Term {
            id: ids[term.id as usize],
            value: term.value,
        })?;
    }
    Ok(())
}

/// The terms that name a live line, by its new id.
pub fn renumber(
    alloc: Global,
    lines: &[Line],
    ids: &[u32],
    terms: &[Term],
) -> Result<Terms, AllocError>
    requires { AreRanks lines.now ids.now }
    ensures { IfOk result (λ ts. ts ≡ renumbered lines.now terms.now) }
{
    let mut items = Vec::with_capacity(alloc, terms.len())?;
    for term in terms {
        keep_renumbered(&mut items, lines, ids, *term)?;
    }
    Ok(Terms::new(items))
}
