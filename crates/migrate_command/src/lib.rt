//! The command `migrate`: a text of records, of either version, is written as one of the second.
#![tactic(auto)]

mod command;
mod migrated;

pub use command::migrate;
