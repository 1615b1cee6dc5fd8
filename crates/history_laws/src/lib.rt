//! What histories of reductions keep and mean: of a problem, of a book with its workers, and of a program that was walked through. The
//! functions here do nothing when they run: each states laws of the definitions in `presolve_model`, and its check proves them.
#![tactic(auto)]

pub mod laws;
