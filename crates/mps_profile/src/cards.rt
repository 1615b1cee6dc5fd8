//! Cards: what the lines of the sections say.

use crate::bounds::{Bare, Valued};

/// A row's name and a number, as a card has them.
#[derive(Clone, Copy)]
pub struct Pair<'a> {
    pub row: &'a [u8],
    pub number: &'a [u8],
}

/// The pairs of a card: one or two.
#[derive(Clone, Copy)]
pub enum Pairs<'a> {
    One(Pair<'a>),
    Two(Pair<'a>, Pair<'a>),
}

/// A card, by its section.
#[derive(Clone, Copy)]
pub enum Card<'a> {
    /// ROWS: a type and a name.
    Row {
        kind: &'a [u8],
        name: &'a [u8],
    },
    /// COLUMNS: a marker with its word.
    Marker {
        word: &'a [u8],
    },
    /// COLUMNS: a column with pairs.
    Column {
        name: &'a [u8],
        pairs: Pairs<'a>,
    },
    /// RHS: right sides of a set.
    RightSide {
        set: Option<&'a [u8]>,
        pairs: Pairs<'a>,
    },
    /// RANGES: ranges of a set.
    Range {
        set: Option<&'a [u8]>,
        pairs: Pairs<'a>,
    },
    /// BOUNDS: a bound with a value.
    Valued {
        set: Option<&'a [u8]>,
        kind: Valued,
        column: &'a [u8],
        number: &'a [u8],
    },
    /// BOUNDS: a bound without a value.
    Bare {
        set: Option<&'a [u8]>,
        kind: Bare,
        column: &'a [u8],
    },
    /// BOUNDS: a bound of an unknown type.
    Unknown,
}
