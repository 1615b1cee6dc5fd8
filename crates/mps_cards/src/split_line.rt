//! A line with its fields, and what it says.

ghost use Rattle.std.specs.Prelude.{◌≡◌, map, IfOk};
ghost use Rattle.std.specs.Option.{ForSome};
ghost use Rattle.text_lines.specs.Lines.{lines_of};
ghost use Rattle.mps_profile.specs.Fields.{fields_of, fixed_fields};
ghost use Rattle.mps_profile.specs.Items.{section_card, card_item, item_of};
ghost use Rattle.mps_profile.specs.Items as items;
ghost use Rattle.mps_cards.specs.Texts.{fields_in, card_result, item_result};
ghost use Rattle.mps_cards.specs.Splits.{format_of};

use crate::column_texts::{ColumnTexts, cut_columns, has_misplaced};
use crate::fields::{is_blank, split_fields};
use crate::fixed_cards::by_fields;
use crate::free_cards::free_card;
use crate::items::{Item, heading, sense_card};
use mps_profile::MpsFaultKind;
use mps_profile::cards::Card;
use mps_profile::dialect::Format;
use mps_profile::progress::{Progress, Told};
use mps_profile::sections::Section;
use std::alloc::{AllocError, Global};

/// A line with its fields in a format.
#[derive(Drop)]
pub struct SplitLine<'a> {
    line: &'a [u8],
    words: Vec<&'a [u8]>,
    /// The fields by columns, in the fixed format alone.
    texts: Option<ColumnTexts>,
    ghost words_are: { map (λ s. s.now) words.items ≡ fields_of line.now },
    ghost texts_are: { ForSome texts (λ t. fields_in t ≡ fixed_fields line.now) },
}

impl<'a> SplitLine<'a> {
    /// Splits a line of a text in a format. What `words` holds is lost, and its room is used again. Fails where memory
    /// runs out.
    pub fn cut(
        alloc: Global,
        format: Format,
        line: &'a [u8],
        mut words: Vec<&'a [u8]>,
    ) -> Result<Self, AllocError>
        ensures format { IfOk result (λ split. format_of split.texts ≡ format) }
        ensures line { IfOk result (λ split. split.line.now ≡ line.now) }
    {
        split_fields(&mut words, line)?;
        let texts = match format {
            Format::Free => None,
            Format::Fixed => Some(cut_columns(alloc, line)?),
        };
        Ok(SplitLine { line, words, texts })
    }

    /// The room for the words of another line.
    pub fn into_words(self) -> Vec<&'a [u8]> {
        self.words
    }

    /// The card that the line is in a section.
    fn card(&self, section: Option<Section>) -> Result<Card<'_>, MpsFaultKind>
        ensures { card_result result ≡ section_card (format_of self.now.texts) section self.now.line.now }
    {
        match &self.texts {
            None => free_card(section, &self.words),
            Some(texts) => {
                if has_misplaced(self.line) {
                    Err(MpsFaultKind::BadColumn)
                } else {
                    by_fields(section, texts)
                }
            }
        }
    }

    /// What the line says as a card.
    fn card_item(&self, before: &Progress) -> Result<Item<'_>, MpsFaultKind>
        ensures { item_result result ≡ card_item (format_of self.now.texts) before.now before.now.section self.now.line.now }
    {
        if before.section == Some(Section::Objsense) {
            if before.sense == Told::Awaited {
                return sense_card(before, &self.words);
            }
            return Err(MpsFaultKind::SectionOrder);
        }
        match self.card(before.section) {
            Ok(card) => Ok(Item::Says(card)),
            Err(fault) => Err(fault),
        }
    }

    /// What the line says where its text has come to `before` and goes on with `after`. Its fault is the first by number
    /// of those that its section and its fields can have: a byte outside the columns, a wrong number of fields, an
    /// unknown or refused section, or one out of order.
    pub fn item(&self, before: &Progress, after: &[u8]) -> Result<Item<'_>, MpsFaultKind>
        ensures { item_result result ≡ item_of (format_of self.now.texts) before.now self.now.line.now (items.has_card (lines_of after.now)) }
    {
        let [first, ..] = self.line else {
            return Ok(Item::Silent);
        };
        let [word, words @ ..] = self.words.as_slice() else {
            return Ok(Item::Silent);
        };
        if *first == b'*' {
            Ok(Item::Silent)
        } else if is_blank(*first) {
            self.card_item(before)
        } else {
            heading(before, word, words, after)
        }
    }
}
