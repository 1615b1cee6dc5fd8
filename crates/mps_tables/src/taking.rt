//! Cards of all sections.

use crate::faults::Stop;
use crate::tables::Tables;
use mps_profile::MpsFaultKind;
use mps_profile::cards::Card;

impl Tables {
    ghost use Rattle.std.specs.Prelude.{List};
    ghost use Rattle.mps_profile.specs.Cards.{text_card};
    ghost use Rattle.mps_profile.specs.Cards.{Card as TextCard};
    ghost use Rattle.mps_tables.specs.Tables.{Holds, Took};

    /// Takes a card. After an error the tables hold nothing that is known.
    ///
    /// # Errors
    /// [`Stop::Fault`] with the first fault of the card, by number. [`Stop::OutOfMemory`].
    pub fn take(&mut self, card: Card<'_>) -> Result<(), Stop>
        ensures { (cards : List TextCard) → Holds self.old.dialect cards self.old → Took self.old.dialect cards (text_card card.entry) result self.new }
    {
        match card {
            Card::Row { kind, name } => self.row(kind, name),
            Card::Marker { word } => self.marker(word),
            Card::Column { name, pairs } => self.column(name, pairs),
            Card::RightSide { set, pairs } => self.side(set, pairs),
            Card::Range { set, pairs } => self.range(set, pairs),
            Card::Valued {
                set,
                kind,
                column,
                number,
            } => self.valued(set, kind, column, number),
            Card::Bare { set, kind, column } => self.bare(set, kind, column),
            Card::Unknown => Err(Stop::Fault(MpsFaultKind::BadBoundType)),
        }
    }
}
