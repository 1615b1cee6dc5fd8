//! The program that tables of rows and columns give.
#![tactic(auto)]

pub mod assembly;
pub mod columns;
pub mod costs;
pub mod places;
pub mod rows;
pub mod terms;

pub use assembly::{Definitions, Parts, assemble, define};
pub use columns::ColumnTables;
pub use rows::RowTables;
