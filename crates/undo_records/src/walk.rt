//! Which rows and columns are live as reductions are applied.

ghost use Rattle.std.specs.Prelude.{◌≡◌, ◌↔◌, false, IfOk, IsTrue, slice_set};
ghost use Rattle.undo_records.specs.SlackColumnSingleton.{dropped};
ghost use Rattle.undo_records.specs.Walk.{NamesLive, after, all_live, cleared, columns_deleted, lives, rows_deleted};

use crate::label::Label;
use crate::side::RowFate;
use crate::undo::Undo;
use std::alloc::{AllocError, Global};
use std::marker::Model;

/// Which of the original rows and columns are live.
#[derive(Drop)]
pub struct Walk {
    rows: Vec<bool>,
    columns: Vec<bool>,
}

impl Model for Walk {
    ghost use Rattle.lp_model.specs.Flags.{Flags};

    ghost Value = { Flags };

    ghost view = { λ w. record { rows = w.rows.items; columns = w.columns.items } };
}

impl Walk {
    /// All of so many rows and columns are live.
    pub fn new(alloc: Global, rows: usize, columns: usize) -> Result<Walk, AllocError>
        ensures { IfOk result (λ walk. walk ≡ all_live rows columns) }
    {
        let rows = vec![in alloc; true; rows]?;
        let columns = vec![in alloc; true; columns]?;
        Ok(Walk { rows, columns })
    }

    /// Whether all that a record names is live, the ids of its list too.
    pub fn takes(&self, undo: &Undo) -> bool
        ensures { IsTrue result ↔ NamesLive self.now undo.now }
    {
        undo.names_live(self.rows.as_slice(), self.columns.as_slice())
    }

    /// What the reduction deletes is no longer live.
    pub fn step(&mut self, undo: &Undo)
        ensures { self.new ≡ after undo.now self.old }
    {
        delete_rows(undo, self.rows.as_mut_slice());
        delete_columns(undo, self.columns.as_mut_slice());
    }

    /// Whether just what the labels say is live.
    pub fn ends_at(&self, columns: &[Label], rows: &[Label]) -> bool
        ensures { IsTrue result ↔ (self.now ≡ record { rows = lives rows.now; columns = lives columns.now }) }
    {
        are_flags(self.rows.as_slice(), rows) && are_flags(self.columns.as_slice(), columns)
    }
}

/// Turns an id off.
#[tactic(auto, using(crate::proofs::Walking::set_past))]
fn clear(flags: &mut [bool], id: u32)
    ensures { flags.new ≡ slice_set flags.old id false }
{
    if (id as usize) >= flags.len() {
        return;
    }
    flags[id as usize] = false;
}

/// Turns off the row of a slack column, where it was deleted.
fn delete_dropped(fate: RowFate, row: u32, rows: &mut [bool])
    ensures { rows.new ≡ cleared (dropped fate row) rows.old }
{
    match fate {
        RowFate::Kept => {}
        RowFate::Dropped => clear(rows, row),
    }
}

/// Turns off the rows that a reduction deletes.
fn delete_rows(undo: &Undo, rows: &mut [bool])
    ensures { rows.new ≡ cleared (rows_deleted undo.now) rows.old }
{
    match undo {
        Undo::EmptyRow(record) => clear(rows, record.row),
        Undo::SingletonRow(record) => clear(rows, record.row),
        Undo::RedundantRow(record) => clear(rows, record.row),
        Undo::ForcingRow(record) => clear(rows, record.row),
        Undo::DoubletonEquation(record) => clear(rows, record.row),
        Undo::FreeColumnSingleton(record) => clear(rows, record.row),
        Undo::SlackColumnSingleton(record) => delete_dropped(record.fate, record.row, rows),
        Undo::ParallelRows(record) => clear(rows, record.row),
        _ => {}
    }
}

/// Turns off the columns that a reduction deletes.
fn delete_columns(undo: &Undo, columns: &mut [bool])
    ensures { columns.new ≡ cleared (columns_deleted undo.now) columns.old }
{
    match undo {
        Undo::FixedColumn(record) => clear(columns, record.column),
        Undo::DoubletonEquation(record) => clear(columns, record.column),
        Undo::FreeColumnSingleton(record) => clear(columns, record.column),
        Undo::SlackColumnSingleton(record) => clear(columns, record.column),
        Undo::ParallelColumns(record) => clear(columns, record.column),
        _ => {}
    }
}

/// Whether these are the flags of the labels.
fn are_flags(flags: &[bool], labels: &[Label]) -> bool
    ensures { IsTrue result ↔ (flags.now ≡ lives labels.now) }
{
    let mut left = flags;
    let mut rest = labels;
    while let [label, others @ ..] = rest {
        match left {
            [] => return false,
            [flag, more @ ..] => {
                if *flag != label.live {
                    return false;
                }
                left = more;
            }
        }
        rest = others;
    }
    left.is_empty()
}
