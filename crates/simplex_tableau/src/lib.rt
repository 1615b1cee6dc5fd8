//! The tableau of the exact simplex method: its start, its pivots and its moves, each number exact or past.
#![tactic(auto)]

mod starting;
mod tableau;

pub use starting::NoStart;
pub use tableau::Tableau;
