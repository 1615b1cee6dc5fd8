//! Laws of runs of `verify`, `solve` and `check` among other runs: the same bytes give the same answer, what a presolve left is verified, what
//! `solve` wrote between a presolve and a postsolve comes back as a proof, and a ray that `presolve` wrote is taken by `check`. The functions
//! here do nothing when they run: each states a law, and its check proves it.
#![tactic(auto)]

pub mod rays;
pub mod solved;
pub mod verified;
