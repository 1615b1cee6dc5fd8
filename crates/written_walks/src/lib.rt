//! What presolve writes is a proof: the records that are read of REC walk from the program of IN to that of OUT. The function here does
//! nothing when it runs: it states the law, and its check proves it.
#![tactic(auto)]

pub mod laws;
