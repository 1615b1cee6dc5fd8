//! The fields of each kind of record as values, in the order in which its text has them.
//!
//! `specs/` has the values of a record, and the record that they make: a line a kind each. In code a record tells its values at
//! once, in an array, to what hears them.
#![tactic(auto)]

ghost use Rattle.std.specs.Prelude.{◌≡◌};
ghost use Rattle.undo_records.specs.declared.undo.Undo.{Undo};
ghost use Rattle.record_values.specs.Values.{made, rule_undone, values};

mod kinds;
mod rule;
mod telling;
mod value;
mod version;

pub use rule::Rule;
pub use telling::{Hearer, tell};
pub use value::{Listed, Value};
pub use version::TextVersion;

/// A record is made of its values. Says so, and does nothing.
pub fn values_make_records()
    ensures { (u : Undo) → made (rule_undone u) (values u) ≡ u }
{}
