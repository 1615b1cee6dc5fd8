//! The cards of the free format.

ghost use Rattle.std.specs.Prelude.{◌≡◌, ◌+◌, ◌<◌, ◌≤◌, length, map, IsTrue};
ghost use Rattle.std.specs.Option.{option_map};
ghost use Rattle.mps_profile.specs.Texts.{field};
ghost use Rattle.mps_profile.specs.Cards.{text_pair, text_pairs};
ghost use Rattle.mps_profile.specs.FreeCards.{pair_at, pairs_at, is_marker, has_set, free_row, free_column, free_side, free_range, bound_with, free_bound, free_card};
ghost use Rattle.mps_cards.specs.Texts.{card_result};

use mps_profile::MpsFaultKind;
use mps_profile::bounds::{Bare, BoundType, Valued, bound_type};
use mps_profile::cards::{Card, Pair, Pairs};
use mps_profile::sections::Section;

/// The field at a place, empty where there is none.
fn field<'a>(fields: &[&'a [u8]], k: usize) -> &'a [u8]
    ensures { result.now ≡ field (map (λ s. s.now) fields.now) k }
{
    if k < fields.len() { fields[k] } else { &[] }
}

/// The pair whose row stands at a place.
fn pair_at<'a>(fields: &[&'a [u8]], k: usize) -> Pair<'a>
    requires { k + 1 < length fields.now }
    ensures { text_pair result ≡ pair_at (map (λ s. s.now) fields.now) k }
{
    Pair {
        row: fields[k],
        number: fields[k + 1],
    }
}

/// The pairs from a place on, which are all that follows.
fn pairs_at<'a>(fields: &[&'a [u8]], k: usize) -> Option<Pairs<'a>>
    requires { k ≤ 1 }
    ensures { option_map text_pairs result ≡ pairs_at (map (λ s. s.now) fields.now) k }
{
    if fields.len() == k + 2 {
        Some(Pairs::One(pair_at(fields, k)))
    } else if fields.len() == k + 4 {
        Some(Pairs::Two(pair_at(fields, k), pair_at(fields, k + 2)))
    } else {
        None
    }
}

/// Whether a word says that its card is a marker.
pub fn is_marker(word: &[u8]) -> bool
    ensures { result ≡ is_marker word.now }
{
    word == b"'MARKER'".as_slice()
}

/// A card of ROWS.
fn row<'a>(fields: &[&'a [u8]]) -> Result<Card<'a>, MpsFaultKind>
    ensures { card_result result ≡ free_row (map (λ s. s.now) fields.now) }
{
    if fields.len() == 2 {
        Ok(Card::Row {
            kind: fields[0],
            name: fields[1],
        })
    } else {
        Err(MpsFaultKind::FieldCount)
    }
}

/// A marker card.
fn marker<'a>(fields: &[&'a [u8]]) -> Result<Card<'a>, MpsFaultKind>
    requires { IsTrue (is_marker (field (map (λ s. s.now) fields.now) 1)) }
    ensures { card_result result ≡ free_column (map (λ s. s.now) fields.now) }
{
    if fields.len() != 3 {
        return Err(MpsFaultKind::FieldCount);
    }
    Ok(Card::Marker { word: fields[2] })
}

/// A card of COLUMNS.
fn column<'a>(fields: &[&'a [u8]]) -> Result<Card<'a>, MpsFaultKind>
    ensures { card_result result ≡ free_column (map (λ s. s.now) fields.now) }
{
    if is_marker(field(fields, 1)) {
        return marker(fields);
    }
    match pairs_at(fields, 1) {
        Some(pairs) => Ok(Card::Column {
            name: field(fields, 0),
            pairs,
        }),
        None => Err(MpsFaultKind::FieldCount),
    }
}

/// Whether the name of a set stands before the pairs: where the number of fields is odd.
fn has_set(fields: &[&[u8]]) -> bool
    ensures { result ≡ has_set (map (λ s. s.now) fields.now) }
{
    fields.len() == 3 || fields.len() == 5
}

/// A card of RHS.
fn side<'a>(fields: &[&'a [u8]]) -> Result<Card<'a>, MpsFaultKind>
    ensures { card_result result ≡ free_side (map (λ s. s.now) fields.now) }
{
    let (set, pairs) = if has_set(fields) {
        (Some(field(fields, 0)), pairs_at(fields, 1))
    } else {
        (None, pairs_at(fields, 0))
    };
    match pairs {
        Some(pairs) => Ok(Card::RightSide { set, pairs }),
        None => Err(MpsFaultKind::FieldCount),
    }
}

/// A card of RANGES.
fn range<'a>(fields: &[&'a [u8]]) -> Result<Card<'a>, MpsFaultKind>
    ensures { card_result result ≡ free_range (map (λ s. s.now) fields.now) }
{
    let (set, pairs) = if has_set(fields) {
        (Some(field(fields, 0)), pairs_at(fields, 1))
    } else {
        (None, pairs_at(fields, 0))
    };
    match pairs {
        Some(pairs) => Ok(Card::Range { set, pairs }),
        None => Err(MpsFaultKind::FieldCount),
    }
}

/// A card of BOUNDS.
fn bound<'a>(fields: &[&'a [u8]]) -> Result<Card<'a>, MpsFaultKind>
    ensures { card_result result ≡ free_bound (map (λ s. s.now) fields.now) }
{
    match bound_type(field(fields, 0)) {
        Some(BoundType::Valued(kind)) => valued_bound(fields, kind),
        Some(BoundType::Bare(kind)) => bare_bound(fields, kind),
        None => {
            if 1 < fields.len() && fields.len() < 5 {
                Ok(Card::Unknown)
            } else {
                Err(MpsFaultKind::FieldCount)
            }
        }
    }
}

/// A bound with a value.
fn valued_bound<'a>(fields: &[&'a [u8]], kind: Valued) -> Result<Card<'a>, MpsFaultKind>
    ensures { card_result result ≡ bound_with (map (λ s. s.now) fields.now) (Some (BoundType.Valued kind)) }
{
    if fields.len() == 3 {
        Ok(Card::Valued {
            set: None,
            kind,
            column: fields[1],
            number: fields[2],
        })
    } else if fields.len() == 4 {
        Ok(Card::Valued {
            set: Some(fields[1]),
            kind,
            column: fields[2],
            number: fields[3],
        })
    } else {
        Err(MpsFaultKind::FieldCount)
    }
}

/// A bound without a value, which may have one that is unread.
fn bare_bound<'a>(fields: &[&'a [u8]], kind: Bare) -> Result<Card<'a>, MpsFaultKind>
    ensures { card_result result ≡ bound_with (map (λ s. s.now) fields.now) (Some (BoundType.Bare kind)) }
{
    if fields.len() == 2 {
        Ok(Card::Bare {
            set: None,
            kind,
            column: fields[1],
        })
    } else if fields.len() == 3 || fields.len() == 4 {
        Ok(Card::Bare {
            set: Some(fields[1]),
            kind,
            column: fields[2],
        })
    } else {
        Err(MpsFaultKind::FieldCount)
    }
}

/// The card that the fields of a line are in a section.
pub fn free_card<'a>(
    section: Option<Section>,
    fields: &[&'a [u8]],
) -> Result<Card<'a>, MpsFaultKind>
    ensures { card_result result ≡ free_card section (map (λ s. s.now) fields.now) }
{
    match section {
        Some(Section::Rows) => row(fields),
        Some(Section::Columns) => column(fields),
        Some(Section::Rhs) => side(fields),
        Some(Section::Ranges) => range(fields),
        Some(Section::Bounds) => bound(fields),
        Some(Section::Name | Section::Objsense | Section::Endata) | None => {
            Err(MpsFaultKind::SectionOrder)
        }
    }
}
