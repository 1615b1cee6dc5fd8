//! Numbers on cards: what the fields of numbers and of bounds mean, and the sides of rows that ranges
//! make.
#![tactic(auto)]

pub mod laws;
pub mod limits;
pub mod numerals;
pub mod sides;

pub use limits::read_limit;
pub use numerals::read_number;
