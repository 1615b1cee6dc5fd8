//! The rules that argue with the cost of a column: whether each is enabled at an id, and its change, as edits and a record. Dual fixing
//! (K10), dominated columns (K11), and unbounded columns (V3).
#![tactic(auto)]

mod both_columns;
mod directions;
pub mod dominated_column;
pub mod dual_fixing;
pub mod footprints;
pub mod form;
pub mod sides;
pub mod unbounded_column;
