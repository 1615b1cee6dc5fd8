//! Numbers and lists on the heap, eight bytes each in a record: so the kinds of records with many of them do not make all records large.

ghost use Rattle.std.specs.Prelude.{◌≡◌, IfOk};

use crate::kept::{KeptEnd, KeptNumber};
use lp_model::fractions::ext::Ext;
use lp_model::fractions::frac::Frac;
use lp_model::{Term, Terms};
use std::alloc::{AllocError, Global};
use std::marker::Model;

/// A number that is kept on the heap. In a contract it is that number.
#[derive(Drop)]
pub struct NumberApart {
    number: Box<KeptNumber>,
}

impl Model for NumberApart {
    ghost use Rattle.fractions.specs.Number.{Number};
    ghost use Rattle.fractions.specs.Lowest.{number_code};

    ghost Value = { Number };

    ghost coded = { number_code };

    ghost view = { λ a. a.number.value };
}

impl NumberApart {
    /// The same number, kept.
    pub fn new(alloc: Global, number: Frac) -> Result<NumberApart, AllocError>
        ensures { IfOk result (λ apart. apart ≡ number) }
    {
        let kept = KeptNumber::new(alloc, number)?;
        let number = Box::new(alloc, kept)?;
        Ok(NumberApart { number })
    }

    /// The number.
    pub fn get(&self) -> Frac
        ensures { result ≡ self.now }
    {
        self.number.get()
    }
}

/// An end of a range of numbers that is kept on the heap. In a contract it is an `Option Number`.
#[derive(Drop)]
pub struct EndApart {
    end: Box<KeptEnd>,
}

impl Model for EndApart {
    ghost use Rattle.std.specs.Prelude.{Option};
    ghost use Rattle.std.specs.Coded.{codes};
    ghost use Rattle.fractions.specs.Number.{Number};
    ghost use Rattle.fractions.specs.Lowest.{number_code};

    ghost Value = { Option Number };

    ghost coded = { Prim.hlevel (codes, number_code) };

    ghost view = { λ a. a.end.value };
}

impl EndApart {
    /// The same end, kept.
    pub fn new(alloc: Global, end: Ext) -> Result<EndApart, AllocError>
        ensures { IfOk result (λ apart. apart ≡ end) }
    {
        let kept = KeptEnd::new(alloc, end)?;
        let end = Box::new(alloc, kept)?;
        Ok(EndApart { end })
    }

    /// The end.
    pub fn get(&self) -> Ext
        ensures { result ≡ self.now }
    {
        self.end.get()
    }
}

/// Terms by ascending id that are kept on the heap with their length. In a contract they are their list.
#[derive(Drop)]
pub struct TermsApart {
    terms: Box<Terms>,
}

impl Model for TermsApart {
    ghost use Rattle.std.specs.Prelude.{List};
    ghost use Rattle.std.specs.Coded.{codes};
    ghost use Rattle.fractions.specs.Lowest.{number_code};
    ghost use Rattle.lp_model.specs.declared.terms.Term.{Term};

    ghost Value = { List Term };

    ghost coded = { Prim.hlevel (codes, number_code) };

    ghost view = { λ a. a.terms.value };
}

impl TermsApart {
    /// The same terms, kept.
    pub fn new(alloc: Global, terms: Terms) -> Result<TermsApart, AllocError>
        ensures { IfOk result (λ apart. apart ≡ terms) }
    {
        let terms = Box::new(alloc, terms)?;
        Ok(TermsApart { terms })
    }

    /// The terms, in order.
    pub fn as_slice(&self) -> &[Term]
        ensures { result.now ≡ self.now }
    {
        self.terms.as_slice()
    }
}
