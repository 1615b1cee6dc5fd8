//! The rule that substitutes a column by an equation of two (K12): whether it is enabled at a row and two columns, and its change, as
//! edits and a record.
#![tactic(auto)]

pub mod doubleton_equation;
mod equation;
mod new_bounds;
mod new_entries;
mod new_numbers;
mod record;

pub use singleton_rules;
