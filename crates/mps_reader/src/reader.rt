//! What the lines of a text have said so far.

ghost use Rattle.std.specs.Prelude.{◌≡◌, [], List, Ok};
ghost use Rattle.text_lines.specs.Lines.{lines_of};
ghost use Rattle.mps_profile.specs.Texts.{Text};
ghost use Rattle.mps_profile.specs.Cards.{Card};
ghost use Rattle.mps_profile.specs.Reading.{is_end, section_fault};
ghost use Rattle.mps_cards.specs.Texts.{text_item};
ghost use Rattle.mps_tables.specs.Tables.{Holds};
ghost use Rattle.mps_reader.specs.Reading.{Has, Moved, TookItem, TookLine};

use mps_cards::items::Item;
use mps_cards::split_line::SplitLine;
use mps_profile::MpsFaultKind;
use mps_profile::dialect::Dialect;
use mps_profile::progress::Progress;
use mps_profile::sections::Section;
use mps_tables::faults::Stop;
use mps_tables::tables::Tables;
use std::alloc::Global;

/// What the lines of a text have said so far: how far it has come, and the tables of its cards.
#[derive(Drop)]
pub struct Reader {
    pub progress: Progress,
    pub tables: Tables,
}

impl Reader {
    /// Before the first line.
    pub fn new(alloc: Global, dialect: Dialect) -> Reader
        ensures { Has dialect [] result }
    {
        Reader {
            progress: Progress::start(),
            tables: Tables::new(alloc, dialect),
        }
    }

    /// Whether ENDATA was read.
    pub fn is_ended(&self) -> bool
        ensures { result ≡ is_end self.now.progress.section }
    {
        self.progress.is_end()
    }

    /// The text comes further.
    fn move_to(&mut self, next: Progress) -> Result<(), Stop>
        ensures { (cards : List Card) → Holds self.old.tables.dialect cards self.old.tables
            → Moved (section_fault cards next.section) next result self.old self.new }
    {
        if matches!(next.section, Some(Section::Columns)) && !self.tables.has_free() {
            return Err(Stop::Fault(MpsFaultKind::NoObjective));
        }
        self.progress = next;
        Ok(())
    }

    /// Takes what a line says.
    fn take(&mut self, item: Item<'_>) -> Result<(), Stop>
        ensures { (cards : List Card) → Holds self.old.tables.dialect cards self.old.tables
            → TookItem self.old.tables.dialect cards (Ok (text_item item.entry)) result self.old self.new }
    {
        match item {
            Item::Silent => Ok(()),
            Item::Moves(next) => self.move_to(next),
            Item::Says(card) => self.tables.take(card),
        }
    }

    /// Takes a line; `after` is the text behind it. The room of `words` is used for its fields.
    pub fn line<'l>(
        &mut self,
        alloc: Global,
        line: &'l [u8],
        after: &[u8],
        words: Vec<&'l [u8]>,
    ) -> Result<Vec<&'l [u8]>, Stop>
        ensures { (before : List Text) → Has self.old.tables.dialect before self.old
            → TookLine self.old.tables.dialect before line.now (lines_of after.now) result self.new }
    {
        let split = SplitLine::cut(alloc, self.tables.dialect().format, line, words)?;
        let item = split.item(&self.progress, after)?;
        self.take(item)?;
        Ok(split.into_words())
    }
}
