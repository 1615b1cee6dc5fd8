//! The rules of one row or one column: whether each is enabled at an id, and its change, as edits and a record. An empty row (K1), a row
//! with one entry (K2), a fixed column (K3), rounded bounds (K4), an empty column (K17), and crossed bounds and sides (V1).
#![tactic(auto)]

pub mod crossed_bounds;
pub mod crossed_sides;
pub mod empty_column;
pub mod empty_row;
pub mod fixed_column;
pub mod moved_sides;
pub mod rounded_bounds;
pub mod singleton_row;
