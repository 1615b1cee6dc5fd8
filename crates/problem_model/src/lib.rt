//! Problems as definitions: rows and columns in parts, the linear program that a problem shows, and edits as data: what each makes of a
//! problem and of the linear program, when it may be made, which numbers are new with it, which parts it may change, and how often parts
//! have changed after a commit. The types that the crates above share stand here too. No function of this crate does anything when it runs.
#![tactic(auto)]

mod edit;
mod line;
mod part;
mod refusal;

pub use edit::Edit;
pub use line::{Bounds, Line, Sides};
pub use part::{Contents, Part, Read};
pub use refusal::Refusal;
