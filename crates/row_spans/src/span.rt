//! Entries of a row with the bounds of their columns.

ghost use Rattle.std.specs.Prelude.{◌≡◌, IfOk};
ghost use Rattle.fractions.specs.Ends.{scaled};
ghost use Rattle.lp_theory.specs.Activities.{least_term};
ghost use Rattle.row_spans.specs.Exact.{exact_end};
ghost use Rattle.row_spans.specs.Spans.{end_at};

use crate::exact::scaled_end;
use fractions::Past;
use fractions::ext::Ext;
use fractions::frac::Frac;

/// An entry of a row, with the bounds of its column.
#[derive(Clone, Copy)]
pub struct Span {
    /// The column.
    pub id: u32,
    /// The entry.
    pub value: Frac,
    /// The column's lower bound.
    pub lower: Ext,
    /// The column's upper bound.
    pub upper: Ext,
    /// Whether the column must be whole.
    pub whole: bool,
    /// Whether the column is semi-continuous; then the bounds are their hull with 0.
    pub semi: bool,
}

/// Which of a row's activities.
#[derive(Clone, Copy, Debug, PartialEq, Eq)]
pub enum Extreme {
    /// The least value within the bounds.
    Least,
    /// The greatest.
    Greatest,
}

/// The end at which the product with a number is least, where the first is the lower one; 0 where the number is.
#[tactic(auto, using(crate::proofs::Rooms::zero_rules), unfolding(lp_theory::specs::Activities::least_term))]
fn least_place(value: &Frac, first: &Ext, second: &Ext) -> Ext
    ensures { scaled value.now result ≡ least_term value.now first.now second.now }
{
    if value.is_positive() {
        *first
    } else if value.is_negative() {
        *second
    } else {
        Ext::at(Frac::zero())
    }
}

/// The bound at which an entry gives its row the least, or the greatest, value.
pub fn bound_at(extreme: Extreme, span: &Span) -> Ext
    ensures { scaled span.now.value result ≡ end_at extreme span.now }
{
    match extreme {
        Extreme::Least => least_place(&span.value, &span.lower, &span.upper),
        Extreme::Greatest => least_place(&span.value, &span.upper, &span.lower),
    }
}

/// The least, or the greatest, that an entry gives its row.
///
/// # Errors
/// [`Past`] exactly where the product of the entry and the bound has no room.
pub fn end_of(extreme: Extreme, span: &Span) -> Result<Ext, Past>
    ensures exact { result ≡ exact_end (end_at extreme span.now) }
    ensures value { IfOk result (λ e. e ≡ end_at extreme span.now) }
{
    scaled_end(&span.value, &bound_at(extreme, span))
}
