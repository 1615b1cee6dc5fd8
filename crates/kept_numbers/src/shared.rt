//! Lists that several records have in common.

ghost use Rattle.std.specs.Prelude.{◌≡◌, IfOk, IfSome};

use lp_model::{Term, Terms};
use std::alloc::{AllocError, Global};
use std::marker::Model;
use std::sync::Arc;

/// Terms by ascending id, which may be kept once for several owners. In a contract they are their list.
#[derive(Drop)]
pub struct SharedTerms {
    terms: Arc<Terms>,
}

impl Model for SharedTerms {
    ghost use Rattle.std.specs.Prelude.{List};
    ghost use Rattle.std.specs.Coded.{codes};
    ghost use Rattle.fractions.specs.Lowest.{number_code};
    ghost use Rattle.lp_model.specs.declared.terms.Term.{Term};

    ghost Value = { List Term };

    ghost coded = { Prim.hlevel (codes, number_code) };

    ghost use Rattle.std.specs.Arc.{arc_value};

    ghost view = { λ s. arc_value s.terms };
}

impl SharedTerms {
    /// The same terms, with one owner.
    ///
    /// # Errors
    /// Memory ran out.
    pub fn new(alloc: Global, terms: Terms) -> Result<SharedTerms, AllocError>
        ensures { IfOk result (λ shared. shared ≡ terms) }
    {
        let terms = Arc::new(alloc, terms)?;
        Ok(SharedTerms { terms })
    }

    /// The same terms, for one owner more. `None` where they have as many as can be counted.
    pub fn share(&self) -> Option<SharedTerms>
        ensures { IfSome result (λ shared. shared ≡ self.now) }
    {
        match Arc::try_clone(&self.terms) {
            Ok(terms) => Some(SharedTerms { terms }),
            Err(_) => None,
        }
    }

    /// The terms, in order.
    pub fn as_slice(&self) -> &[Term]
        ensures { result.now ≡ self.now }
    {
        self.terms.as_slice()
    }
}
