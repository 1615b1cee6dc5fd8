//! What presolve writes down as it reduces a program, so that a solution of the reduced program can be brought back.
//!
//! `specs/` says what undoing makes of a point, when its numbers have room, and what is asked of a record: a file for each kind, and
//! tables over the kinds. [`laws`] states what holds of them.
#![tactic(auto)]

mod flags;
mod kinds;
mod label;
pub mod laws;
mod records;
mod side;
mod sound;
mod undo;
mod walk;
mod whole_run;

pub use kept_numbers::{EndApart, KeptEnd, KeptNumber, NumberApart, SharedTerms, TermsApart};
pub use kinds::{
    BoundTightening, CoefficientTightening, ColumnRecord, DominatedColumn, DoubletonEquation,
    FixedColumn, ForcingRow, FreeColumnSingleton, ParallelColumns, ParallelRows, RowRecord,
    SingletonRow, SlackColumnSingleton,
};
pub use label::{Label, labels_are_named};
pub use records::Records;
pub use side::{RowFate, Side};
pub use transactions::{PartRead, Transaction, Transactions};
pub use undo::Undo;
pub use walk::Walk;
pub use whole_run::are_sound;
