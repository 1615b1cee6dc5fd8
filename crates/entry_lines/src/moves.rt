//! Changes of one line. None of them changes how often it has changed.

ghost use Rattle.std.specs.Prelude.{◌≡◌, ◌*◌, length, nat_lt, pred};
ghost use Rattle.problem_model.specs.Edits.{deleted, thinned};
ghost use Rattle.problem_model.specs.Matrices.{live_only};
ghost use Rattle.entry_lines.specs.Losses.{counted_out};

use crate::living::is_live;
use lp_model::Terms;
use problem_model::Line;
use std::alloc::Global;
use std::mem::replace;

/// Counts an entry out of a line's live ones.
fn count_one_out(line: &mut Line)
    ensures { line.new ≡ record line.old { live_entries = pred line.old.live_entries } }
{
    line.live_entries = line.live_entries.saturating_sub(1);
}

/// Whether fewer of a line's entries are live than are not.
fn is_thin(line: &Line) -> bool
    ensures { result ≡ nat_lt (2 * line.now.live_entries) (length line.now.entries) }
{
    let held = line.entries.as_slice().len();
    line.live_entries < held.saturating_sub(line.live_entries)
}

/// Keeps the terms that name a live line.
fn retain_live(terms: &mut Terms, alloc: Global, others: &[Line])
    ensures { terms.new ≡ live_only others.now terms.old }
{
    let mut items = replace(terms, Terms::empty(alloc)).into_vec();
    items.retain(|term| is_live(others, term.id));
    *terms = Terms::new(items);
}

/// Keeps a line's live entries alone, where there are fewer of them than of others.
fn thin(line: &mut Line, alloc: Global, others: &[Line])
    ensures { line.new ≡ thinned others.now line.old }
{
    if is_thin(line) {
        retain_live(&mut line.entries, alloc, others);
    }
}

/// Counts an entry out of a line, where these are the lines that it names. It asks for no memory.
pub fn count_out(line: &mut Line, alloc: Global, others: &[Line])
    ensures { line.new ≡ counted_out others.now line.old }
{
    count_one_out(line);
    thin(line, alloc, others);
}

/// Deletes a line, and hands out the entries that it had. It asks for no memory.
pub fn delete(line: &mut Line, alloc: Global) -> Terms
    ensures line { line.new ≡ deleted line.old }
    ensures entries { result ≡ line.old.entries }
{
    line.live = false;
    line.live_entries = 0;
    replace(&mut line.entries, Terms::empty(alloc))
}
