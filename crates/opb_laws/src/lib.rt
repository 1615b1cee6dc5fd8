//! Laws of the profile of OPB text, of its definitions alone. The functions here do nothing when
//! they run: each states laws, and its check proves them.
#![tactic(auto)]

mod laws;

pub use laws::{entries_ascend, names_differ, text_bounds, text_is_well_named, text_is_writable};
