//! The cards of the fixed format.

ghost use Rattle.std.specs.Prelude.{◌≡◌, ◌||◌, not};
ghost use Rattle.std.specs.Option.{option_map};
ghost use Rattle.mps_profile.specs.Cards.{text_pairs, text_set};
ghost use Rattle.mps_profile.specs.FixedCards.{is_empty, has_tail, fixed_row, fixed_pairs, fixed_marker, fixed_column, set_in, fixed_bound, by_fields, fixed_card};
ghost use Rattle.mps_profile.specs.FreeCards.{side_with, range_with};
ghost use Rattle.mps_cards.specs.Texts.{fields_in, card_result};

use crate::column_texts::{ColumnTexts, has_misplaced};
use crate::free_cards::is_marker;
use mps_profile::MpsFaultKind;
use mps_profile::bounds::{BoundType, bound_type};
use mps_profile::cards::{Card, Pair, Pairs};
use mps_profile::sections::Section;

/// Whether one of the fields 5 and 6 is filled.
fn has_tail(texts: &ColumnTexts) -> bool
    ensures { result ≡ has_tail (fields_in texts.now) }
{
    !texts.fifth.is_empty() || !texts.sixth.is_empty()
}

/// A card of ROWS.
fn row(texts: &ColumnTexts) -> Result<Card<'_>, MpsFaultKind>
    ensures { card_result result ≡ fixed_row (fields_in texts.now) }
{
    if texts.first.is_empty()
        || texts.second.is_empty()
        || !texts.third.is_empty()
        || !texts.fourth.is_empty()
        || has_tail(texts)
    {
        return Err(MpsFaultKind::FieldCount);
    }
    Ok(Card::Row {
        kind: &texts.first,
        name: &texts.second,
    })
}

/// The pairs in fields 3 to 6.
fn pairs(texts: &ColumnTexts) -> Option<Pairs<'_>>
    ensures { option_map text_pairs result ≡ fixed_pairs (fields_in texts.now) }
{
    if !texts.first.is_empty() || texts.third.is_empty() || texts.fourth.is_empty() {
        return None;
    }
    let pair = Pair {
        row: &texts.third,
        number: &texts.fourth,
    };
    if !has_tail(texts) {
        return Some(Pairs::One(pair));
    }
    if texts.fifth.is_empty() || texts.sixth.is_empty() {
        return None;
    }
    let other = Pair {
        row: &texts.fifth,
        number: &texts.sixth,
    };
    Some(Pairs::Two(pair, other))
}

/// A marker card.
fn marker(texts: &ColumnTexts) -> Result<Card<'_>, MpsFaultKind>
    ensures { card_result result ≡ fixed_marker (fields_in texts.now) }
{
    if !texts.first.is_empty()
        || texts.second.is_empty()
        || !texts.fourth.is_empty()
        || texts.fifth.is_empty()
        || !texts.sixth.is_empty()
    {
        return Err(MpsFaultKind::FieldCount);
    }
    Ok(Card::Marker { word: &texts.fifth })
}

/// A card of COLUMNS.
fn column(texts: &ColumnTexts) -> Result<Card<'_>, MpsFaultKind>
    ensures { card_result result ≡ fixed_column (fields_in texts.now) }
{
    if is_marker(&texts.third) {
        return marker(texts);
    }
    if texts.second.is_empty() {
        return Err(MpsFaultKind::FieldCount);
    }
    match pairs(texts) {
        Some(pairs) => Ok(Card::Column {
            name: &texts.second,
            pairs,
        }),
        None => Err(MpsFaultKind::FieldCount),
    }
}

/// The set that field 2 names.
fn set(texts: &ColumnTexts) -> Option<&[u8]>
    ensures { text_set result ≡ set_in (fields_in texts.now).second }
{
    if texts.second.is_empty() {
        None
    } else {
        Some(&texts.second)
    }
}

/// A card of RHS.
fn side(texts: &ColumnTexts) -> Result<Card<'_>, MpsFaultKind>
    ensures { card_result result ≡ side_with (set_in (fields_in texts.now).second) (fixed_pairs (fields_in texts.now)) }
{
    match pairs(texts) {
        Some(pairs) => Ok(Card::RightSide {
            set: set(texts),
            pairs,
        }),
        None => Err(MpsFaultKind::FieldCount),
    }
}

/// A card of RANGES.
fn range(texts: &ColumnTexts) -> Result<Card<'_>, MpsFaultKind>
    ensures { card_result result ≡ range_with (set_in (fields_in texts.now).second) (fixed_pairs (fields_in texts.now)) }
{
    match pairs(texts) {
        Some(pairs) => Ok(Card::Range {
            set: set(texts),
            pairs,
        }),
        None => Err(MpsFaultKind::FieldCount),
    }
}

/// A card of BOUNDS.
fn bound(texts: &ColumnTexts) -> Result<Card<'_>, MpsFaultKind>
    ensures { card_result result ≡ fixed_bound (fields_in texts.now) }
{
    if texts.first.is_empty() || texts.third.is_empty() || has_tail(texts) {
        return Err(MpsFaultKind::FieldCount);
    }
    match bound_type(&texts.first) {
        None => Ok(Card::Unknown),
        Some(BoundType::Valued(kind)) => {
            if texts.fourth.is_empty() {
                return Err(MpsFaultKind::FieldCount);
            }
            Ok(Card::Valued {
                set: set(texts),
                kind,
                column: &texts.third,
                number: &texts.fourth,
            })
        }
        Some(BoundType::Bare(kind)) => Ok(Card::Bare {
            set: set(texts),
            kind,
            column: &texts.third,
        }),
    }
}

/// The card that six fields are in a section.
pub fn by_fields(section: Option<Section>, texts: &ColumnTexts) -> Result<Card<'_>, MpsFaultKind>
    ensures { card_result result ≡ by_fields section (fields_in texts.now) }
{
    match section {
        Some(Section::Rows) => row(texts),
        Some(Section::Columns) => column(texts),
        Some(Section::Rhs) => side(texts),
        Some(Section::Ranges) => range(texts),
        Some(Section::Bounds) => bound(texts),
        Some(Section::Name | Section::Objsense | Section::Endata) | None => {
            Err(MpsFaultKind::SectionOrder)
        }
    }
}
