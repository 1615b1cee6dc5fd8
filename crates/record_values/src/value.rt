//! The values of records.

ghost use Rattle.std.specs.Prelude.{◌≡◌};

use fractions::ext::Ext;
use fractions::frac::Frac;
use lp_model::Term;
use std::marker::Model;
use undo_records::{RowFate, Side};

/// Entries of a row or a column, where they stand in a record. In a contract they are their list.
#[derive(Drop)]
pub struct Listed<'a> {
    terms: &'a [Term],
}

impl<'a> Model for Listed<'a> {
    ghost use Rattle.std.specs.Prelude.{List};
    ghost use Rattle.std.specs.Coded.{codes};
    ghost use Rattle.fractions.specs.Lowest.{number_code};
    ghost use Rattle.lp_model.specs.declared.terms.Term.{Term};

    ghost Value = { List Term };

    ghost coded = { Prim.hlevel (codes, number_code) };

    ghost view = { λ l. l.terms.now };
}

impl<'a> Listed<'a> {
    /// These entries.
    pub fn new(terms: &'a [Term]) -> Listed<'a>
        ensures { result ≡ terms.now }
    {
        Listed { terms }
    }

    /// The entries, in order.
    pub fn as_slice(&self) -> &'a [Term]
        ensures { result.now ≡ self.now }
    {
        self.terms
    }
}

/// A value of a record.
#[derive(Drop)]
pub enum Value<'a> {
    /// The id of a row or a column.
    Id(u32),
    /// A number.
    Ratio(Frac),
    /// A lower side or bound.
    LowerEnd(Ext),
    /// An upper side or bound.
    UpperEnd(Ext),
    /// A side of a row.
    Letter(Side),
    /// A bound of a column, and which of the two it is.
    Bound(Side, Ext),
    /// What became of a row.
    Fate(RowFate),
    /// Entries of a row or a column.
    Entries(Listed<'a>),
}
