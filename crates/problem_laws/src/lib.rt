//! Laws of single edits of a problem, of its definitions alone. The function here does nothing when it runs: it states laws, and its check
//! proves them. The lemmas in `proofs/` are meant for the crates above too.
#![tactic(auto)]

pub mod single_edits;
