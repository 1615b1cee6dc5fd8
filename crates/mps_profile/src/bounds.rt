//! Types of bounds, and what a card of each sets.

ghost use Rattle.std.specs.Prelude.{◌≡◌};
ghost use Rattle.mps_profile.specs.Words.{type_named};
ghost use Rattle.mps_profile.specs.Bounds.{lower_end, upper_end, fixed_end, valued_change, bare_change};

use fractions::ext::Ext;
use fractions::frac::Frac;

/// What a field of BOUNDS means: a number, or one of the infinities.
#[derive(Clone, Copy)]
pub enum Limit {
    Below,
    At(Frac),
    Above,
}

/// The types of bounds whose cards have a value.
#[derive(Clone, Copy)]
pub enum Valued {
    Lower,
    Upper,
    Fixed,
    WholeLower,
    WholeUpper,
    SemiContinuous,
}

/// The types of bounds whose cards need no value.
#[derive(Clone, Copy)]
pub enum Bare {
    Free,
    NoLower,
    NoUpper,
    Binary,
}

/// The types of bounds.
#[derive(Clone, Copy)]
pub enum BoundType {
    Valued(Valued),
    Bare(Bare),
}

/// The type that a word names.
pub fn bound_type(word: &[u8]) -> Option<BoundType>
    ensures { result ≡ type_named word.now }
{
    if word == b"LO".as_slice() {
        Some(BoundType::Valued(Valued::Lower))
    } else if word == b"UP".as_slice() {
        Some(BoundType::Valued(Valued::Upper))
    } else if word == b"FX".as_slice() {
        Some(BoundType::Valued(Valued::Fixed))
    } else if word == b"LI".as_slice() {
        Some(BoundType::Valued(Valued::WholeLower))
    } else if word == b"UI".as_slice() {
        Some(BoundType::Valued(Valued::WholeUpper))
    } else if word == b"SC".as_slice() {
        Some(BoundType::Valued(Valued::SemiContinuous))
    } else if word == b"FR".as_slice() {
        Some(BoundType::Bare(Bare::Free))
    } else if word == b"MI".as_slice() {
        Some(BoundType::Bare(Bare::NoLower))
    } else if word == b"PL".as_slice() {
        Some(BoundType::Bare(Bare::NoUpper))
    } else if word == b"BV".as_slice() {
        Some(BoundType::Bare(Bare::Binary))
    } else {
        None
    }
}

/// What a card sets of a column: a bound that it does not speak of is none, and stays.
#[derive(Clone, Copy)]
pub struct Change {
    pub whole: bool,
    pub semi: bool,
    pub lower: Option<Ext>,
    pub upper: Option<Ext>,
}

/// A lower bound: a number or -inf.
fn lower_end(limit: Limit) -> Option<Ext>
    ensures { result ≡ lower_end limit }
{
    match limit {
        Limit::Below => Some(Ext::none()),
        Limit::At(value) => Some(Ext::at(value)),
        Limit::Above => None,
    }
}

/// An upper bound: a number or inf.
fn upper_end(limit: Limit) -> Option<Ext>
    ensures { result ≡ upper_end limit }
{
    match limit {
        Limit::Below => None,
        Limit::At(value) => Some(Ext::at(value)),
        Limit::Above => Some(Ext::none()),
    }
}

/// Both bounds: a number.
fn fixed_end(limit: Limit) -> Option<Ext>
    ensures { result ≡ fixed_end limit }
{
    match limit {
        Limit::Below => None,
        Limit::At(value) => Some(Ext::at(value)),
        Limit::Above => None,
    }
}

/// What a card with a value sets; none where the value is an infinity that the type does not take.
pub fn valued_change(kind: Valued, limit: Limit) -> Option<Change>
    ensures { result ≡ valued_change kind limit }
{
    let whole = matches!(kind, Valued::WholeLower | Valued::WholeUpper);
    let semi = matches!(kind, Valued::SemiContinuous);
    let (lower, upper) = match kind {
        Valued::Lower | Valued::WholeLower => (Some(lower_end(limit)?), None),
        Valued::Upper | Valued::WholeUpper | Valued::SemiContinuous => {
            (None, Some(upper_end(limit)?))
        }
        Valued::Fixed => (Some(fixed_end(limit)?), Some(fixed_end(limit)?)),
    };
    Some(Change {
        whole,
        semi,
        lower,
        upper,
    })
}

/// What a card without a value sets.
pub fn bare_change(kind: Bare) -> Change
    ensures { result ≡ bare_change kind }
{
    let zero = Ext::at(Frac::zero());
    let one = Ext::at(Frac::one());
    let (whole, lower, upper) = match kind {
        Bare::Free => (false, Some(Ext::none()), Some(Ext::none())),
        Bare::NoLower => (false, Some(Ext::none()), None),
        Bare::NoUpper => (false, None, Some(Ext::none())),
        Bare::Binary => (true, Some(zero), Some(one)),
    };
    Change {
        whole,
        semi: false,
        lower,
        upper,
    }
}
