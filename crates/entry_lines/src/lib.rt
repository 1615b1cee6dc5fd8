//! Lines that share their entries: rows and columns that cross.
#![tactic(auto)]

mod entries;
mod lines;
mod living;
mod moves;
mod numbers;
mod ranks;
mod transpose;
mod view;

pub use entries::{Held, Replaced, exchange, exchange_all, give_back, line_with_terms, rows_with};
pub use lines::{copy_lines, delete_line, first_live, live_entries_of, live_terms_of, whole_line};
pub use living::is_live;
pub use numbers::{line_changes, number_line};
pub use ranks::{new_ids, renumber};
pub use transpose::{columns_of, rows_of};
pub use view::Lines;
