//! Laws of lists of edits and of commits: what they keep and show, which parts they touch, and what numbers of changes tell. The functions
//! here do nothing when they run: each states laws, and its check proves them. The lemmas in `proofs/` are meant for the crates above too.
#![tactic(auto)]

pub mod commits;
pub mod edits;
