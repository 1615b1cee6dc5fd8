//! Ends of a range of numbers.

ghost use Rattle.std.specs.Prelude.{◌≡◌, Some, None, is_none, IsTrue, ◌↔◌};

use crate::frac::Frac;
use crate::parts::Parts;
use crate::whole::Whole;
use std::marker::Model;

/// An end of a range of numbers: a number, or none where the range has no end on that side. In a
/// contract it is an `Option Number`.
#[derive(Clone, Copy, Debug)]
pub struct Ext {
    /// The number's parts, or 0 over 0. An `Option<Frac>` would take half as much room again.
    parts: Parts,
}

impl Model for Ext {
    ghost use Rattle.std.specs.Prelude.{Option};
    ghost use Rattle.std.specs.Coded.{codes};
    ghost use Rattle.fractions.specs.Number.{Number};
    ghost use Rattle.fractions.specs.Lowest.{number_code};
    ghost use Rattle.fractions.specs.ExtFields.{end_of, end_over, end_right, end_under, IsEnd};

    ghost Value = { Option Number };

    ghost coded = { Prim.hlevel (codes, number_code) };

    ghost view = { λ e. end_of e.parts.num e.parts.den };

    ghost invariant = { λ e. IsEnd e.parts.num e.parts.den };

    ghost inverse = { λ o. record { parts = record { num = end_over o; den = end_under o } } };

    ghost inverse_ok = { λ e h. end_right e h };
}

impl Ext {
    /// No end.
    pub fn none() -> Ext
        ensures { result ≡ None }
    {
        Ext {
            parts: Parts {
                num: Whole::new(0),
                den: 0,
            },
        }
    }

    /// An end at a number.
    pub fn at(number: Frac) -> Ext
        ensures { result ≡ Some number }
    {
        Ext {
            parts: number.parts(),
        }
    }

    /// The number that it is at, if any.
    pub fn number(&self) -> Option<Frac>
        ensures { result ≡ self.now }
    {
        if self.parts.den == 0 {
            return None;
        }
        Some(Frac::of_parts(self.parts))
    }

    /// Whether there is no end.
    pub fn is_none(&self) -> bool
        ensures { result ≡ is_none self.now }
    {
        self.parts.den == 0
    }

    /// Whether the two are the same end.
    pub fn is_same(&self, other: &Ext) -> bool
        ensures { IsTrue result ↔ (self.now ≡ other.now) }
    {
        match (self.number(), other.number()) {
            (None, None) => true,
            (Some(a), Some(b)) => a.is_same(&b),
            _ => false,
        }
    }
}
