//! Lists of terms.

ghost use Rattle.std.specs.Prelude.{◌≡◌, List, [], IfOk};

use fractions::frac::Frac;
use std::alloc::{AllocError, Global};
use std::marker::Model;

/// A number at the id of a row or a column.
#[derive(Clone, Copy)]
pub struct Term {
    pub id: u32,
    pub value: Frac,
}

/// Terms, by ascending id.
#[derive(Drop)]
pub struct Terms {
    items: Vec<Term>,
}

impl Model for Terms {
    ghost use Rattle.std.specs.Prelude.{List};
    ghost use Rattle.std.specs.Coded.{codes};
    ghost use Rattle.fractions.specs.Lowest.{number_code};
    ghost use Rattle.lp_model.specs.declared.terms.Term.{Term};

    ghost Value = { List Term };

    ghost coded = { Prim.hlevel (codes, number_code) };

    ghost view = { λ terms. terms.items.items };
}

impl Terms {
    /// No terms.
    pub fn empty(alloc: Global) -> Terms
        ensures { result ≡ [] }
    {
        Terms {
            items: Vec::new(alloc),
        }
    }

    /// These terms.
    pub fn new(items: Vec<Term>) -> Terms
        ensures { result ≡ items.items }
    {
        Terms { items }
    }

    /// The terms, in order.
    pub fn as_slice(&self) -> &[Term]
        ensures { result.now ≡ self.now }
    {
        self.items.as_slice()
    }

    /// The same terms as a vector.
    pub fn into_vec(self) -> Vec<Term>
        ensures { result.items ≡ self }
    {
        self.items
    }

    /// Equal terms.
    pub fn copy(&self, alloc: Global) -> Result<Terms, AllocError>
        ensures { IfOk result (λ terms. terms ≡ self.now) }
    {
        Ok(Terms {
            items: Vec::from_slice(alloc, self.items.as_slice())?,
        })
    }
}
