//! Cards of RHS.

use crate::faults::Stop;
use crate::reads::read_both;
use crate::tables::Tables;
use mps_numbers::read_number;
use mps_profile::MpsFaultKind;
use mps_profile::cards::{Pair, Pairs};

impl Tables {
    ghost use Rattle.std.specs.Prelude.{◌≡◌, List, true};
    ghost use Rattle.mps_profile.specs.Cards.{Card, SideCard, One, Two, text_pair, text_pairs, text_set};
    ghost use Rattle.mps_profile.specs.Sets.{counts};
    ghost use Rattle.mps_tables.specs.Tables.{Holds, Took};

    /// A right side of a set that counts.
    fn side_one(&mut self, set: Option<&[u8]>, pair: Pair<'_>) -> Result<(), Stop>
        requires { counts self.old.side_set (text_set set) ≡ true }
        ensures { (cards : List Card) → Holds self.old.dialect cards self.old
            → Took self.old.dialect cards (SideCard (text_set set.entry) (One (text_pair pair.entry))) result self.new }
    {
        let value = read_number(pair.number, self.dialect)?;
        let Some(row) = self.rows.find(pair.row) else {
            return Err(Stop::Fault(MpsFaultKind::UnknownRow));
        };
        if self.sides.get(row).is_some() {
            return Err(Stop::Fault(MpsFaultKind::DuplicateEntry));
        }
        self.side_set.take_up(self.alloc, set)?;
        self.sides.put(row, value)?;
        Ok(())
    }

    /// Two right sides of a set that counts.
    fn side_two(&mut self, set: Option<&[u8]>, pair: Pair<'_>, other: Pair<'_>) -> Result<(), Stop>
        requires { counts self.old.side_set (text_set set) ≡ true }
        ensures { (cards : List Card) → Holds self.old.dialect cards self.old
            → Took self.old.dialect cards (SideCard (text_set set.entry) (Two (text_pair pair.entry) (text_pair other.entry))) result self.new }
    {
        let values = read_both(pair.number, other.number, self.dialect)?;
        let Some(first) = self.rows.find(pair.row) else {
            return Err(Stop::Fault(MpsFaultKind::UnknownRow));
        };
        let Some(second) = self.rows.find(other.row) else {
            return Err(Stop::Fault(MpsFaultKind::UnknownRow));
        };
        if pair.row == other.row {
            return Err(Stop::Fault(MpsFaultKind::DuplicateEntry));
        }
        if self.sides.get(first).is_some() {
            return Err(Stop::Fault(MpsFaultKind::DuplicateEntry));
        }
        if self.sides.get(second).is_some() {
            return Err(Stop::Fault(MpsFaultKind::DuplicateEntry));
        }
        self.side_set.take_up(self.alloc, set)?;
        self.sides.put(first, values.0)?;
        self.sides.put(second, values.1)?;
        Ok(())
    }

    /// Right sides of a set.
    pub(crate) fn side(&mut self, set: Option<&[u8]>, pairs: Pairs<'_>) -> Result<(), Stop>
        ensures { (cards : List Card) → Holds self.old.dialect cards self.old
            → Took self.old.dialect cards (SideCard (text_set set.entry) (text_pairs pairs.entry)) result self.new }
    {
        if !self.side_set.counts(set) {
            return Ok(());
        }
        match pairs {
            Pairs::One(pair) => self.side_one(set, pair),
            Pairs::Two(pair, other) => self.side_two(set, pair, other),
        }
    }
}
