//! Cards of BOUNDS.

use crate::faults::Stop;
use crate::slots::{Flags, Slots};
use crate::tables::Tables;
use fractions::ext::Ext;
use mps_numbers::read_limit;
use mps_profile::MpsFaultKind;
use mps_profile::bounds::{Bare, Change, Valued, bare_change, valued_change};
use std::alloc::AllocError;

impl Tables {
    ghost use Rattle.std.specs.Prelude.{◌≡◌, List, OnOk};
    ghost use Rattle.mps_profile.specs.Cards.{Card, ValuedCard, BareCard, UnknownCard, text_set};
    ghost use Rattle.mps_tables.specs.Tables.{Holds, Took};
    ghost use Rattle.mps_tables.specs.Writes.{IsChanged};

    /// Changes what is known of a column.
    fn change(&mut self, column: usize, change: Change) -> Result<(), AllocError>
        ensures { OnOk result (IsChanged column change self.old self.new) }
    {
        put_end(&mut self.lowers, column, change.lower)?;
        put_end(&mut self.uppers, column, change.upper)?;
        put_mark(&mut self.wholes, column, change.whole)?;
        put_mark(&mut self.semis, column, change.semi)?;
        put_kind(&mut self.semi_uppers, column, upper_kind(change))?;
        Ok(())
    }

    /// A bound with a value.
    pub(crate) fn valued(
        &mut self,
        set: Option<&[u8]>,
        kind: Valued,
        column: &[u8],
        number: &[u8],
    ) -> Result<(), Stop>
        ensures { (cards : List Card) → Holds self.old.dialect cards self.old
            → Took self.old.dialect cards (ValuedCard (text_set set.entry) kind column.now number.now) result self.new }
    {
        if !self.bound_set.counts(set) {
            return Ok(());
        }
        let limit = read_limit(number, self.dialect)?;
        let Some(change) = valued_change(kind, limit) else {
            return Err(Stop::Fault(MpsFaultKind::BadNumber));
        };
        let Some(column) = self.columns.find(column) else {
            return Err(Stop::Fault(MpsFaultKind::UnknownColumn));
        };
        self.bound_set.take_up(self.alloc, set)?;
        self.change(column, change)?;
        Ok(())
    }

    /// A bound without a value.
    pub(crate) fn bare(&mut self, set: Option<&[u8]>, kind: Bare, column: &[u8]) -> Result<(), Stop>
        ensures { (cards : List Card) → Holds self.old.dialect cards self.old
            → Took self.old.dialect cards (BareCard (text_set set.entry) kind column.now) result self.new }
    {
        if !self.bound_set.counts(set) {
            return Ok(());
        }
        let Some(column) = self.columns.find(column) else {
            return Err(Stop::Fault(MpsFaultKind::UnknownColumn));
        };
        self.bound_set.take_up(self.alloc, set)?;
        self.change(column, bare_change(kind))?;
        Ok(())
    }
}

ghost use Rattle.std.specs.Prelude.{◌≡◌, ◌==◌, ◌&&◌, ◌||◌, ℕ, OnOk, None, Some, if◌then◌else◌};
ghost use Rattle.mps_profile.specs.Columns.{last_kind, or_before, semi_upper_in};
ghost use Rattle.mps_tables.specs.Slots.{held, flag};

/// Gives a column an end, or leaves the one that it has.
fn put_end(ends: &mut Slots<Ext>, column: usize, end: Option<Ext>) -> Result<(), AllocError>
    ensures { OnOk result ((j : ℕ) → held ends.new j ≡ or_before (if column == j then end else None) (held ends.old j)) }
{
    match end {
        Some(end) => ends.put(column, end),
        None => Ok(()),
    }
}

/// Marks a column, or leaves it as it is.
fn put_mark(marks: &mut Flags, column: usize, is_marked: bool) -> Result<(), AllocError>
    ensures { OnOk result ((j : ℕ) → flag marks.new j ≡ ((column == j && is_marked) || flag marks.old j)) }
{
    if is_marked {
        marks.mark(column)
    } else {
        Ok(())
    }
}

/// Whether a change of an upper bound is of type SC; none where it is none of an upper bound.
fn upper_kind(change: Change) -> Option<bool>
    ensures { result ≡ semi_upper_in (Some change) }
{
    match change.upper {
        Some(_) => Some(change.semi),
        None => None,
    }
}

/// Notes what kind of card set the upper bound of a column, or leaves what is noted.
fn put_kind(kinds: &mut Slots<bool>, column: usize, kind: Option<bool>) -> Result<(), AllocError>
    ensures { OnOk result ((j : ℕ) → held kinds.new j ≡ last_kind (if column == j then kind else None) (held kinds.old j)) }
{
    match kind {
        Some(semi) => kinds.put(column, semi),
        None => Ok(()),
    }
}
