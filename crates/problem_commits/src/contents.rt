//! What lines hold, looked at in place.

ghost use Rattle.std.specs.Prelude.{◌≡◌, ◌↔◌, ℕ, IsTrue, [], ◌∷◌, option_map};
ghost use Rattle.problem_model.specs.Matrices.{live_only};
ghost use Rattle.problem_commits.specs.Lefts.{IsLeft};

use entry_lines::Lines;
use fractions::ext::Ext;
use lp_model::Term;

/// Whether two terms are the same.
fn same_term(a: &Term, b: &Term) -> bool
    ensures { IsTrue result ↔ (a.now ≡ b.now) }
{
    a.id == b.id && a.value.is_same(&b.value)
}

/// What is left of wanted terms behind an entry; an entry that names no live line is passed over. None where another term is wanted.
fn left_behind<'a>(others: &Lines, entry: &Term, wanted: &'a [Term]) -> Option<&'a [Term]>
    ensures { IsLeft (live_only others.now (entry.now ∷ [])) wanted.entry.now (option_map (λ left. left.now) result) }
{
    if !others.is_live(entry.id) {
        return Some(wanted);
    }
    match wanted {
        [] => None,
        [first, after @ ..] => {
            if same_term(entry, first) {
                Some(after)
            } else {
                None
            }
        }
    }
}

/// Whether the entries that name live lines are these terms.
pub fn live_entries_are(others: &Lines, entries: &[Term], wanted: &[Term]) -> bool
    ensures { IsTrue result ↔ (live_only others.now entries.now ≡ wanted.now) }
{
    let mut rest = entries;
    let mut left = wanted;
    while let [first, after @ ..] = rest {
        match left_behind(others, first, left) {
            Some(more) => left = more,
            None => return false,
        }
        rest = after;
    }
    left.is_empty()
}

/// Whether two pairs of ends are the same.
pub fn same_ends(lower: &Ext, upper: &Ext, other_lower: &Ext, other_upper: &Ext) -> bool
    ensures { IsTrue result ↔ ((lower.now ≡ other_lower.now) × (upper.now ≡ other_upper.now)) }
{
    lower.is_same(other_lower) && upper.is_same(other_upper)
}
