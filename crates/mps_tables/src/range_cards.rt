//! Cards of RANGES.

use crate::faults::Stop;
use crate::reads::read_both;
use crate::tables::Tables;
use crate::words::is_free;
use fractions::Past;
use fractions::frac::Frac;
use mps_numbers::read_number;
use mps_numbers::sides::ranged;
use mps_profile::MpsFaultKind;
use mps_profile::cards::{Pair, Pairs};
use mps_profile::row_kinds::{Interval, RowKind};

impl Tables {
    ghost use Rattle.std.specs.Prelude.{◌≡◌, List, true, slice_index_or};
    ghost use Rattle.mps_profile.specs.Cards.{Card, RangeCard, One, Two, text_pair, text_pairs, text_set};
    ghost use Rattle.mps_profile.specs.Sets.{counts};
    ghost use Rattle.mps_profile.specs.declared.row_kinds.RowKind.TheVariants.{Free};
    ghost use Rattle.mps_tables.specs.Tables.{Holds, Took};
    ghost use Rattle.mps_tables.specs.Ranges.{range_at, new_range, other_range};

    /// The type of a row.
    fn kind(&self, row: usize) -> RowKind
        ensures { result ≡ slice_index_or self.now.kinds.items row Free }
    {
        match self.kinds.get(row) {
            Some(kind) => *kind,
            None => RowKind::Free,
        }
    }

    /// The sides that a range gives a row by its type and its right side.
    fn range_at(&self, row: usize, range: &Frac) -> Result<Option<Interval>, Past>
        ensures { result ≡ range_at self.now row range.now }
    {
        let side = self.sides.get(row).unwrap_or(Frac::zero());
        ranged(self.kind(row), &side, range, self.dialect.numbers)
    }

    /// The sides that a range gives a row that has none yet; none where there is no such row.
    fn new_range(&self, row: Option<usize>, range: &Frac) -> Result<Option<Interval>, Past>
        ensures { result ≡ new_range self.now row range.now }
    {
        match row {
            None => Ok(None),
            Some(row) => {
                if self.ranges.get(row).is_some() {
                    return Ok(None);
                }
                self.range_at(row, range)
            }
        }
    }

    /// The sides that the second range on a card gives; none where both are of the same row.
    fn other_range(
        &self,
        is_same: bool,
        row: Option<usize>,
        range: &Frac,
    ) -> Result<Option<Interval>, Past>
        ensures { result ≡ other_range self.now is_same row range.now }
    {
        if is_same {
            return Ok(None);
        }
        self.new_range(row, range)
    }

    /// A range of a set that counts.
    fn range_one(&mut self, set: Option<&[u8]>, pair: Pair<'_>) -> Result<(), Stop>
        requires { counts self.old.range_set (text_set set) ≡ true }
        ensures { (cards : List Card) → Holds self.old.dialect cards self.old
            → Took self.old.dialect cards (RangeCard (text_set set.entry) (One (text_pair pair.entry))) result self.new }
    {
        let value = read_number(pair.number, self.dialect)?;
        let place = self.rows.find(pair.row);
        let Ok(interval) = self.new_range(place, &value) else {
            return Err(Stop::Fault(MpsFaultKind::NumberPast));
        };
        let Some(row) = place else {
            return Err(Stop::Fault(MpsFaultKind::UnknownRow));
        };
        if self.ranges.get(row).is_some() {
            return Err(Stop::Fault(MpsFaultKind::DuplicateEntry));
        }
        let Some(interval) = interval else {
            return Err(Stop::Fault(MpsFaultKind::RangeOnFree));
        };
        self.range_set.take_up(self.alloc, set)?;
        self.ranges.put(row, interval)?;
        Ok(())
    }

    /// Two ranges of a set that counts.
    fn range_two(&mut self, set: Option<&[u8]>, pair: Pair<'_>, other: Pair<'_>) -> Result<(), Stop>
        requires { counts self.old.range_set (text_set set) ≡ true }
        ensures { (cards : List Card) → Holds self.old.dialect cards self.old
            → Took self.old.dialect cards (RangeCard (text_set set.entry) (Two (text_pair pair.entry) (text_pair other.entry))) result self.new }
    {
        let values = read_both(pair.number, other.number, self.dialect)?;
        let place = self.rows.find(pair.row);
        let other_place = self.rows.find(other.row);
        let Ok(interval) = self.new_range(place, &values.0) else {
            return Err(Stop::Fault(MpsFaultKind::NumberPast));
        };
        let is_same = pair.row == other.row;
        let Ok(other_interval) = self.other_range(is_same, other_place, &values.1) else {
            return Err(Stop::Fault(MpsFaultKind::NumberPast));
        };
        let Some(first) = place else {
            return Err(Stop::Fault(MpsFaultKind::UnknownRow));
        };
        let Some(second) = other_place else {
            return Err(Stop::Fault(MpsFaultKind::UnknownRow));
        };
        if is_same {
            return Err(Stop::Fault(MpsFaultKind::DuplicateEntry));
        }
        if self.ranges.get(first).is_some() {
            return Err(Stop::Fault(MpsFaultKind::DuplicateEntry));
        }
        if self.ranges.get(second).is_some() {
            return Err(Stop::Fault(MpsFaultKind::DuplicateEntry));
        }
        let (Some(interval), Some(other_interval)) = (interval, other_interval) else {
            return Err(Stop::Fault(MpsFaultKind::RangeOnFree));
        };
        self.range_set.take_up(self.alloc, set)?;
        self.ranges.put(first, interval)?;
        self.ranges.put(second, other_interval)?;
        Ok(())
    }

    /// Ranges of a set.
    pub(crate) fn range(&mut self, set: Option<&[u8]>, pairs: Pairs<'_>) -> Result<(), Stop>
        ensures { (cards : List Card) → Holds self.old.dialect cards self.old
            → Took self.old.dialect cards (RangeCard (text_set set.entry) (text_pairs pairs.entry)) result self.new }
    {
        if !self.range_set.counts(set) {
            return Ok(());
        }
        match pairs {
            Pairs::One(pair) => self.range_one(set, pair),
            Pairs::Two(pair, other) => self.range_two(set, pair, other),
        }
    }
}
