//! Names and terms, one by one.

ghost use Rattle.std.specs.Prelude.{◌≡◌, ◌↔◌, IsTrue};

use lp_model::Term;

/// Whether two terms are the same.
fn same_term(one: &Term, other: &Term) -> bool
    ensures { IsTrue result ↔ (one.now ≡ other.now) }
{
    one.id == other.id && one.value.is_same(&other.value)
}

/// Whether two lists hold the same terms.
pub fn same_terms(one: &[Term], other: &[Term]) -> bool
    ensures { IsTrue result ↔ (one.now ≡ other.now) }
{
    let mut rest = one;
    let mut left = other;
    while let [first, after @ ..] = rest {
        let [wanted, more @ ..] = left else {
            return false;
        };
        if !same_term(first, wanted) {
            return false;
        }
        rest = after;
        left = more;
    }
    left.is_empty()
}
