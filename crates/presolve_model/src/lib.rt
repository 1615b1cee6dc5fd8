//! Presolve as definitions: the rules in order, with what each reads, where it is enabled and what it does, as tables over the rules;
//! histories of reductions, the book of what was applied, and what is concluded of a program. The functions here do nothing when they run:
//! each states laws of the tables that name no rule, and its check proves them. The types that the crates above share stand here too.
#![tactic(auto)]

mod conclusion;
mod instance;
pub mod laws;
mod outcome;
pub mod tightening;
mod workers;

pub use conclusion::{End, Options};
pub use instance::{Instance, Reach, Reduction, Rule, Verdict};
pub use outcome::Outcome;
pub use problem_model::{Bounds, Contents, Edit, Line, Part, Read, Refusal, Sides};
pub use undo_records::Side;
pub use workers::Workers;
