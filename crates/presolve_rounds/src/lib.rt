//! Presolve: rounds on a book, each a pass over the instances that may be enabled, until nothing more can be done or the limit is reached.
#![tactic(auto)]

mod dominated;
mod labels;
mod onlooker;
mod outcome;
pub mod pass;
mod passes;
mod reduce;
mod rounds;
mod source;

pub use onlooker::{NoOnlooker, Onlooker};
pub use outcome::{DecidedProgram, Presolved, ReducedProgram};
pub use passes::{InTurn, Passes};
pub use reduce::{conclude, opened, presolve_by};
pub use round_marks;
pub use round_marks::{instances, rule_table, txn_book};
pub use rounds::{Swept, run, run_by, run_from, sweep};
pub use source::{Source, source_of};
