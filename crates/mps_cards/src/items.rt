//! What a line says, by how far the text has come before it.

ghost use Rattle.std.specs.Prelude.{◌≡◌, map};
ghost use Rattle.text_lines.specs.Lines.{lines_of};
ghost use Rattle.mps_profile.specs.Items.{is_above, may_follow, opened, objsense, heading, sense_card};
ghost use Rattle.mps_profile.specs.Items as items;
ghost use Rattle.mps_profile.specs.Words.{section_named, is_refused};
ghost use Rattle.mps_cards.specs.Texts.{item_result};

use crate::lines::has_card;
use mps_profile::MpsFaultKind;
use mps_profile::cards::Card;
use mps_profile::progress::{Progress, Told};
use mps_profile::sections::{Section, is_refused, section_named, sense_named};

/// What a line says.
#[derive(Clone, Copy)]
pub enum Item<'a> {
    /// Nothing: a comment or a line of blanks.
    Silent,
    /// How far the text has come with it: a section's line, or the card of OBJSENSE.
    Moves(Progress),
    /// A card.
    Says(Card<'a>),
}

/// Whether a section stands above ROWS.
fn is_above(section: Option<Section>) -> bool
    ensures { result ≡ is_above section }
{
    matches!(section, None | Some(Section::Name | Section::Objsense))
}

/// Whether a section may stand where a text has come to.
fn may_follow(before: &Progress, next: Section) -> bool
    ensures { result ≡ may_follow before.now next }
{
    match next {
        Section::Name => is_above(before.section) && !before.named,
        Section::Objsense => is_above(before.section) && before.sense == Told::Nothing,
        Section::Rows => is_above(before.section),
        Section::Columns => matches!(before.section, Some(Section::Rows)),
        Section::Rhs => matches!(before.section, Some(Section::Columns)),
        Section::Ranges => matches!(before.section, Some(Section::Columns | Section::Rhs)),
        Section::Bounds => matches!(
            before.section,
            Some(Section::Columns | Section::Rhs | Section::Ranges)
        ),
        Section::Endata => matches!(
            before.section,
            Some(Section::Columns | Section::Rhs | Section::Ranges | Section::Bounds)
        ),
    }
}

/// A section begins.
fn opened<'a>(before: &Progress, next: Section, sense: Told) -> Result<Item<'a>, MpsFaultKind>
    ensures { item_result result ≡ opened before.now next sense }
{
    if !may_follow(before, next) {
        return Err(MpsFaultKind::SectionOrder);
    }
    Ok(Item::Moves(Progress {
        section: Some(next),
        named: before.named || matches!(next, Section::Name),
        sense,
    }))
}

/// OBJSENSE begins, with one of its words on its line or a card in the text after it.
fn objsense<'a>(before: &Progress, words: &[&[u8]], after: &[u8]) -> Result<Item<'a>, MpsFaultKind>
    ensures { item_result result ≡ objsense before.now (map (λ s. s.now) words.now) (items.has_card (lines_of after.now)) }
{
    match words {
        [word, ..] => match sense_named(word) {
            Some(sense) => opened(before, Section::Objsense, Told::Sense(sense)),
            None => Err(MpsFaultKind::FieldCount),
        },
        [] => {
            if has_card(after) {
                opened(before, Section::Objsense, Told::Awaited)
            } else {
                Err(MpsFaultKind::FieldCount)
            }
        }
    }
}

/// A section's line, by its first word, the words behind it and the text after the line.
pub fn heading<'a>(
    before: &Progress,
    word: &[u8],
    words: &[&[u8]],
    after: &[u8],
) -> Result<Item<'a>, MpsFaultKind>
    ensures { item_result result ≡ heading before.now (section_named word.now) (is_refused word.now) (map (λ s. s.now) words.now) (items.has_card (lines_of after.now)) }
{
    match section_named(word) {
        None => {
            if is_refused(word) {
                Err(MpsFaultKind::RefusedSection)
            } else {
                Err(MpsFaultKind::UnknownSection)
            }
        }
        Some(Section::Objsense) => objsense(before, words, after),
        Some(next) => opened(before, next, before.sense),
    }
}

/// The card of OBJSENSE.
pub fn sense_card<'a>(before: &Progress, words: &[&[u8]]) -> Result<Item<'a>, MpsFaultKind>
    ensures { item_result result ≡ sense_card before.now (map (λ s. s.now) words.now) }
{
    let [word] = words else {
        return Err(MpsFaultKind::FieldCount);
    };
    match sense_named(word) {
        Some(sense) => Ok(Item::Moves(Progress {
            section: before.section,
            named: before.named,
            sense: Told::Sense(sense),
        })),
        None => Err(MpsFaultKind::FieldCount),
    }
}
