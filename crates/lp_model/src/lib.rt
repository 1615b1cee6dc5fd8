//! Linear and mixed-integer programs as the MPS format speaks of them: rows with sides, columns with costs, bounds and entries.
//!
//! `specs/` says what a program means and what is asked of a point, of duals and of a reduction.
#![tactic(auto)]

pub mod ends;
mod labels;
pub mod laws;
mod name;
mod plain;
mod point;
mod program;
mod terms;
pub mod writing;
mod written;

pub use fractions;
pub use labels::Labels;
pub use name::{Name, is_name};
pub use plain::{
    Violation, cost, first_violation, has_id, is_feasible, names_differ, no_worse, number_at,
    row_value,
};
pub use point::{Duals, Pair, Point};
pub use program::{ColumnDef, Columns, Program, RowDef, Rows, Sense};
pub use terms::{Term, Terms};
