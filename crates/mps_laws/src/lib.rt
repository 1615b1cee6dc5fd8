//! Laws of the profile of MPS text, of its definitions alone. The functions here do nothing when
//! they run: each states laws, and its check proves them.
#![tactic(auto)]

pub mod name_laws;
pub mod reading_laws;
pub mod term_laws;
