//! Activities: the least and the greatest value of a row within the bounds of its columns, exactly as they are made term by term, whole or
//! with one column left out. A sum of a row is made in one pass along it. Where its terms are fractions over one denominator, and this and
//! the sum of the absolute numerators have room, no order of adding them is past, and a rest is the sum less a term; of other rows the sums
//! before each term are kept, and a rest is continued from there. `specs/` says what the activities are, and nothing of how they are made.
#![tactic(auto)]

mod entries;
mod prefixes;
mod problem_rows;
mod rests;
pub mod row_bounds;
mod row_sums;
pub mod rows;
mod spans;
mod sums;

pub use problem_rows::{greatest, least};
pub use rests::{entry_of, is_each_rest_infinite, rest_of};
pub use row_sums::RowSums;

#[cfg(test)]
mod tests;
