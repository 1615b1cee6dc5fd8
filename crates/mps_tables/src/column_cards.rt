//! Cards of COLUMNS.

use crate::faults::Stop;
use crate::reads::read_both;
use crate::tables::Tables;
use crate::words::{enter, fits_run, is_split, is_start};
use fractions::frac::Frac;
use mps_numbers::read_number;
use mps_profile::MpsFaultKind;
use mps_profile::cards::{Pair, Pairs};
use mps_stores::RowEntries;
use std::alloc::AllocError;

impl Tables {
    ghost use Rattle.std.specs.Prelude.{◌≡◌, ℕ, List, OnOk, None};
    ghost use Rattle.mps_profile.specs.Cards.{Card, MarkerCard, ColumnCard, One, Two, text_pair, text_pairs};
    ghost use Rattle.mps_tables.specs.Tables.{Holds, Took};
    ghost use Rattle.mps_tables.specs.Writes.{IsGoing};

    /// A marker: it ends a column, and starts or ends a run of whole columns.
    pub(crate) fn marker(&mut self, word: &[u8]) -> Result<(), Stop>
        ensures { (cards : List Card) → Holds self.old.dialect cards self.old → Took self.old.dialect cards (MarkerCard word.now) result self.new }
    {
        if !fits_run(self.run, word) {
            return Err(Stop::Fault(MpsFaultKind::BadMarker));
        }
        self.current = None;
        self.run = is_start(word);
        Ok(())
    }

    /// A column is going on; in a run it is whole.
    fn go_on(&mut self, column: usize) -> Result<(), AllocError>
        ensures { OnOk result (IsGoing column self.old self.new) }
    {
        self.current = Some(column);
        if self.run {
            self.wholes.mark(column)?;
            return Ok(());
        }
        Ok(())
    }

    /// A column with one pair.
    fn column_one(&mut self, name: &[u8], pair: Pair<'_>) -> Result<(), Stop>
        ensures { (cards : List Card) → Holds self.old.dialect cards self.old
            → Took self.old.dialect cards (ColumnCard name.now (One (text_pair pair.entry))) result self.new }
    {
        let value = read_number(pair.number, self.dialect)?;
        let Some(row) = self.rows.find(pair.row) else {
            return Err(Stop::Fault(MpsFaultKind::UnknownRow));
        };
        let entered = enter(&mut self.columns, self.alloc, name)?;
        let column = entered.column;
        if self.entries.names(row, column) {
            return Err(Stop::Fault(MpsFaultKind::DuplicateEntry));
        }
        if is_split(entered.known, self.current) {
            return Err(Stop::Fault(MpsFaultKind::SplitColumn));
        }
        put_one(&mut self.entries, column, row, value)?;
        self.go_on(column)?;
        Ok(())
    }

    /// A column with two pairs.
    fn column_two(&mut self, name: &[u8], pair: Pair<'_>, other: Pair<'_>) -> Result<(), Stop>
        ensures { (cards : List Card) → Holds self.old.dialect cards self.old
            → Took self.old.dialect cards (ColumnCard name.now (Two (text_pair pair.entry) (text_pair other.entry))) result self.new }
    {
        let values = read_both(pair.number, other.number, self.dialect)?;
        let Some(first) = self.rows.find(pair.row) else {
            return Err(Stop::Fault(MpsFaultKind::UnknownRow));
        };
        let Some(second) = self.rows.find(other.row) else {
            return Err(Stop::Fault(MpsFaultKind::UnknownRow));
        };
        if first == second {
            return Err(Stop::Fault(MpsFaultKind::DuplicateEntry));
        }
        let entered = enter(&mut self.columns, self.alloc, name)?;
        let column = entered.column;
        if self.entries.names(first, column) {
            return Err(Stop::Fault(MpsFaultKind::DuplicateEntry));
        }
        if self.entries.names(second, column) {
            return Err(Stop::Fault(MpsFaultKind::DuplicateEntry));
        }
        if is_split(entered.known, self.current) {
            return Err(Stop::Fault(MpsFaultKind::SplitColumn));
        }
        put_two(
            &mut self.entries,
            column,
            (first, values.0),
            (second, values.1),
        )?;
        self.go_on(column)?;
        Ok(())
    }

    /// A column with pairs.
    pub(crate) fn column(&mut self, name: &[u8], pairs: Pairs<'_>) -> Result<(), Stop>
        ensures { (cards : List Card) → Holds self.old.dialect cards self.old
            → Took self.old.dialect cards (ColumnCard name.now (text_pairs pairs.entry)) result self.new }
    {
        match pairs {
            Pairs::One(pair) => self.column_one(name, pair),
            Pairs::Two(pair, other) => self.column_two(name, pair, other),
        }
    }
}

ghost use Rattle.std.specs.Prelude.{◌≡◌, ◌==◌, ℕ, OnOk, None, Some, false, if◌then◌else◌};
ghost use Rattle.mps_stores.specs.Stores.{number_in};

/// Puts a number at a column and a row.
fn put_one(
    entries: &mut RowEntries,
    column: usize,
    row: usize,
    value: Frac,
) -> Result<(), AllocError>
    requires { number_in entries.old row column ≡ None }
    ensures { OnOk result ((j i : ℕ) → number_in entries.new i j
        ≡ (if column == j then (if row == i then Some value else number_in entries.old i j) else number_in entries.old i j)) }
{
    entries.put(row, column, value)?;
    Ok(())
}

/// Puts two numbers at two rows of a column.
fn put_two(
    entries: &mut RowEntries,
    column: usize,
    first: (usize, Frac),
    second: (usize, Frac),
) -> Result<(), AllocError>
    requires first { number_in entries.old first.0 column ≡ None }
    requires second { number_in entries.old second.0 column ≡ None }
    requires apart { (first.0 == second.0) ≡ false }
    ensures { OnOk result ((j i : ℕ) → number_in entries.new i j
        ≡ (if column == j then (if second.0 == i then Some second.1 else if first.0 == i then Some first.1 else number_in entries.old i j)
        else number_in entries.old i j)) }
{
    entries.put(first.0, column, first.1)?;
    entries.put(second.0, column, second.1)?;
    Ok(())
}
