//! The tables that the cards of an MPS text fill, card by card.
#![tactic(auto)]

mod bound_cards;
mod column_cards;
pub mod faults;
mod range_cards;
mod reads;
mod row_cards;
pub mod sets;
mod side_cards;
pub mod slots;
pub mod tables;
mod taking;
mod words;

pub use faults::Stop;
pub use tables::Tables;
