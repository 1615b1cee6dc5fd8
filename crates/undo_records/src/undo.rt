//! The record of one reduction.

ghost use Rattle.std.specs.Prelude.{◌≡◌, ◌↔◌, ◌&&◌, IsTrue};
ghost use Rattle.std.specs.List.{list_all};
ghost use Rattle.undo_records.specs.Ids.{is_on};
ghost use Rattle.undo_records.specs.Sound.{IsSound};
ghost use Rattle.undo_records.specs.Walk.{columns_named, rows_named};

use crate::kinds::{
    BoundTightening, CoefficientTightening, ColumnRecord, DominatedColumn, DoubletonEquation,
    FixedColumn, ForcingRow, FreeColumnSingleton, ParallelColumns, ParallelRows, RowRecord,
    SingletonRow, SlackColumnSingleton,
};

/// What is kept of one reduction, with the values as they were when it was made. Ids are those of the original program, from 0 on;
/// costs are in the minimizing sense.
#[derive(Drop)]
pub enum Undo {
    /// K1.
    EmptyRow(RowRecord),
    /// K2.
    SingletonRow(SingletonRow),
    /// K3.
    FixedColumn(FixedColumn),
    /// K4.
    RoundedBounds(ColumnRecord),
    /// K5.
    RedundantRow(RowRecord),
    /// K6.
    RedundantSide(RowRecord),
    /// K7.
    ForcingRow(ForcingRow),
    /// K8.
    BoundTightening(BoundTightening),
    /// K9.
    CoefficientTightening(CoefficientTightening),
    /// K10.
    DualFixing(ColumnRecord),
    /// K11.
    DominatedColumn(DominatedColumn),
    /// K12.
    DoubletonEquation(DoubletonEquation),
    /// K13.
    FreeColumnSingleton(FreeColumnSingleton),
    /// K14.
    SlackColumnSingleton(SlackColumnSingleton),
    /// K15.
    ParallelRows(ParallelRows),
    /// K16.
    ParallelColumns(ParallelColumns),
    /// K17.
    EmptyColumn(ColumnRecord),
}

impl Undo {
    /// Whether it is sound in a program of so many rows and columns: its ids are the program's and differ where they are of one
    /// kind, its entries, factors and listed numbers aren't 0, and its lists ascend.
    pub fn is_sound(&self, rows: usize, columns: usize) -> bool
        ensures { IsTrue result ↔ IsSound rows columns self.now }
    {
        match self {
            Undo::EmptyRow(record) => record.is_sound(rows),
            Undo::SingletonRow(record) => record.is_sound(rows, columns),
            Undo::FixedColumn(record) => record.is_sound(rows, columns),
            Undo::RoundedBounds(record) => record.is_sound(columns),
            Undo::RedundantRow(record) => record.is_sound(rows),
            Undo::RedundantSide(record) => record.is_sound(rows),
            Undo::ForcingRow(record) => record.is_sound(rows, columns),
            Undo::BoundTightening(record) => record.is_sound(rows, columns),
            Undo::CoefficientTightening(record) => record.is_sound(rows, columns),
            Undo::DualFixing(record) => record.is_sound(columns),
            Undo::DominatedColumn(record) => record.is_sound(rows, columns),
            Undo::DoubletonEquation(record) => record.is_sound(rows, columns),
            Undo::FreeColumnSingleton(record) => record.is_sound(rows, columns),
            Undo::SlackColumnSingleton(record) => record.is_sound(rows, columns),
            Undo::ParallelRows(record) => record.is_sound(rows, columns),
            Undo::ParallelColumns(record) => record.is_sound(columns),
            Undo::EmptyColumn(record) => record.is_sound(columns),
        }
    }

    /// Whether all that it names is on, the ids of its list too.
    #[tactic(auto, using(crate::proofs::Walking::and_true))]
    pub(crate) fn names_live(&self, rows: &[bool], columns: &[bool]) -> bool
        ensures { result ≡ (list_all (is_on rows.now) (rows_named self.now) && list_all (is_on columns.now) (columns_named self.now)) }
    {
        match self {
            Undo::EmptyRow(record) => record.names_live(rows),
            Undo::SingletonRow(record) => record.names_live(rows, columns),
            Undo::FixedColumn(record) => record.names_live(rows, columns),
            Undo::RoundedBounds(record) => record.names_live(columns),
            Undo::RedundantRow(record) => record.names_live(rows),
            Undo::RedundantSide(record) => record.names_live(rows),
            Undo::ForcingRow(record) => record.names_live(rows, columns),
            Undo::BoundTightening(record) => record.names_live(rows, columns),
            Undo::CoefficientTightening(record) => record.names_live(rows, columns),
            Undo::DualFixing(record) => record.names_live(columns),
            Undo::DominatedColumn(record) => record.names_live(rows, columns),
            Undo::DoubletonEquation(record) => record.names_live(rows, columns),
            Undo::FreeColumnSingleton(record) => record.names_live(rows, columns),
            Undo::SlackColumnSingleton(record) => record.names_live(rows, columns),
            Undo::ParallelRows(record) => record.names_live(rows, columns),
            Undo::ParallelColumns(record) => record.names_live(columns),
            Undo::EmptyColumn(record) => record.names_live(columns),
        }
    }
}
