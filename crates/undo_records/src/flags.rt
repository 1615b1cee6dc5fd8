//! Whether ids are on.

ghost use Rattle.std.specs.Prelude.{◌≡◌, ◌∷◌};
ghost use Rattle.std.specs.List.{list_all};
ghost use Rattle.undo_records.specs.Ids.{ids_of, is_on};

use lp_model::Term;

/// Whether an id is on.
fn is_one_on(flags: &[bool], id: u32) -> bool
    ensures { result ≡ is_on flags.now id }
{
    match flags.get(id as usize) {
        Some(flag) => *flag,
        None => false,
    }
}

/// Whether all these ids are on.
pub(crate) fn are_on(flags: &[bool], ids: &[u32]) -> bool
    ensures { result ≡ list_all (is_on flags.now) ids.now }
{
    let mut rest = ids;
    while let [id, after @ ..] = rest {
        if !is_one_on(flags, *id) {
            return false;
        }
        rest = after;
    }
    true
}

/// Whether the ids of all terms are on.
pub(crate) fn are_terms_on(flags: &[bool], terms: &[Term]) -> bool
    ensures { result ≡ list_all (is_on flags.now) (ids_of terms.now) }
{
    let mut rest = terms;
    while let [term, after @ ..] = rest {
        if !is_one_on(flags, term.id) {
            return false;
        }
        rest = after;
    }
    true
}

/// Whether an id and the ids of all terms are on.
pub(crate) fn are_all_on(flags: &[bool], id: u32, terms: &[Term]) -> bool
    ensures { result ≡ list_all (is_on flags.now) (id ∷ ids_of terms.now) }
{
    is_one_on(flags, id) && are_terms_on(flags, terms)
}
