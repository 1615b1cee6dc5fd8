//! Sums that are kept of a row: its finite terms over one denominator, where this and the sum of their absolute numerators have room, so that
//! no order of adding them is past. They are mended term by term.
#![tactic(auto)]

mod common;
mod kept;
mod kept_sides;
mod row_totals;

pub use common::{CommonSum, common_sum, told_activity, told_rest};
pub use kept::KeptSums;
pub use kept_sides::{QuietSides, quiet_sides};
pub use row_totals::{EndSum, RowSums, RowTotals, denominator_with};
