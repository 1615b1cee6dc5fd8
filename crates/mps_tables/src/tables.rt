//! The tables that the cards fill.

use crate::sets::FirstSet;
use crate::slots::{Flags, Slots};
use crate::words::any_free;
use fractions::ext::Ext;
use fractions::frac::Frac;
use mps_profile::dialect::Dialect;
use mps_profile::row_kinds::{Interval, RowKind};
use mps_stores::RowEntries;
use names::Names;
use std::alloc::Global;

/// What cards have said so far. Rows and columns go by their places: by the order in which they are
/// first named.
#[derive(Drop)]
pub struct Tables {
    /// How the text is read.
    pub(crate) dialect: Dialect,
    pub(crate) alloc: Global,
    /// The names of the rows.
    pub(crate) rows: Names,
    /// The types of the rows.
    pub(crate) kinds: Vec<RowKind>,
    /// The right sides that cards of RHS give rows.
    pub(crate) sides: Slots<Frac>,
    /// The sides that cards of RANGES give rows.
    pub(crate) ranges: Slots<Interval>,
    /// The names of the columns.
    pub(crate) columns: Names,
    /// The numbers of the pairs of COLUMNS, by row and column.
    pub(crate) entries: RowEntries,
    /// The column whose cards are going on.
    pub(crate) current: Option<usize>,
    /// Whether a run of whole columns is open.
    pub(crate) run: bool,
    /// The columns that are whole.
    pub(crate) wholes: Flags,
    /// The columns that are semi-continuous.
    pub(crate) semis: Flags,
    /// Whether a card of type SC gives a column its upper bound.
    pub(crate) semi_uppers: Slots<bool>,
    /// The lower bounds that cards give columns.
    pub(crate) lowers: Slots<Ext>,
    /// The upper bounds that cards give columns.
    pub(crate) uppers: Slots<Ext>,
    pub(crate) side_set: FirstSet,
    pub(crate) range_set: FirstSet,
    pub(crate) bound_set: FirstSet,
}

impl Tables {
    ghost use Rattle.std.specs.Prelude.{◌≡◌, [], List};
    ghost use Rattle.std.specs.List.{list_any};
    ghost use Rattle.mps_profile.specs.Cards.{Card};
    ghost use Rattle.mps_profile.specs.Rows.{row_kinds, is_free};
    ghost use Rattle.mps_tables.specs.Tables.{Holds};

    /// The tables before the first card.
    pub fn new(alloc: Global, dialect: Dialect) -> Tables
        ensures { Holds dialect [] result }
    {
        Tables {
            dialect,
            alloc,
            rows: Names::new(alloc),
            kinds: Vec::new(alloc),
            sides: Slots::new(alloc),
            ranges: Slots::new(alloc),
            columns: Names::new(alloc),
            entries: RowEntries::new(alloc),
            current: None,
            run: false,
            wholes: Flags::new(alloc),
            semis: Flags::new(alloc),
            semi_uppers: Slots::new(alloc),
            lowers: Slots::new(alloc),
            uppers: Slots::new(alloc),
            side_set: FirstSet::new(),
            range_set: FirstSet::new(),
            bound_set: FirstSet::new(),
        }
    }

    /// How the text is read.
    pub fn dialect(&self) -> Dialect
        ensures { result ≡ self.now.dialect }
    {
        self.dialect
    }

    /// The names of the rows, N rows among them, by place.
    pub fn rows(&self) -> &Names
        ensures { result.now ≡ self.now.rows }
    {
        &self.rows
    }

    /// The types of the rows, by place.
    pub fn kinds(&self) -> &[RowKind]
        ensures { result.now ≡ self.now.kinds.items }
    {
        &self.kinds
    }

    /// The right sides of rows, where a card gives one.
    pub fn sides(&self) -> &Slots<Frac>
        ensures { result.now ≡ self.now.sides }
    {
        &self.sides
    }

    /// Both sides of rows, where a card of RANGES gives them.
    pub fn ranges(&self) -> &Slots<Interval>
        ensures { result.now ≡ self.now.ranges }
    {
        &self.ranges
    }

    /// The names of the columns, by place.
    pub fn columns(&self) -> &Names
        ensures { result.now ≡ self.now.columns }
    {
        &self.columns
    }

    /// The numbers at rows and columns.
    pub fn entries(&self) -> &RowEntries
        ensures { result.now ≡ self.now.entries }
    {
        &self.entries
    }

    /// The columns that are whole.
    pub fn wholes(&self) -> &Flags
        ensures { result.now ≡ self.now.wholes }
    {
        &self.wholes
    }

    /// The columns that are semi-continuous.
    pub fn semis(&self) -> &Flags
        ensures { result.now ≡ self.now.semis }
    {
        &self.semis
    }

    /// Whether it is of type SC, where a card sets the upper bound of a column.
    pub fn semi_uppers(&self) -> &Slots<bool>
        ensures { result.now ≡ self.now.semi_uppers }
    {
        &self.semi_uppers
    }

    /// The lower bounds of columns, where a card sets one.
    pub fn lowers(&self) -> &Slots<Ext>
        ensures { result.now ≡ self.now.lowers }
    {
        &self.lowers
    }

    /// The upper bounds of columns, where a card sets one.
    pub fn uppers(&self) -> &Slots<Ext>
        ensures { result.now ≡ self.now.uppers }
    {
        &self.uppers
    }

    /// Whether there is an N row. This goes over all types of rows.
    pub fn has_free(&self) -> bool
        ensures { (cards : List Card) → Holds self.now.dialect cards self.now → result ≡ list_any is_free (row_kinds cards) }
    {
        any_free(&self.kinds)
    }
}
