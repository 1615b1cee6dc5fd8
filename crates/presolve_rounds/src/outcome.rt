//! What presolve makes.

use lp_model::Program;
use presolve_model::{End, Reduction, Verdict};
use undo_records::Records;

/// A program that was reduced.
#[derive(Drop)]
pub struct ReducedProgram {
    /// What is left of it.
    pub program: Program,
    /// What undoes the reductions. Their offset is what the reduced program's cost lacks, in the file's sense.
    pub records: Records,
    /// How the run ended.
    pub end: End,
}

/// A program that was decided.
#[derive(Drop)]
pub struct DecidedProgram {
    /// The reductions that were applied, first one first.
    pub history: Vec<Reduction>,
    /// The verdict that is enabled on what they leave.
    pub verdict: Verdict,
}

/// What presolve made of a program.
#[derive(Drop)]
pub enum Presolved {
    /// It was reduced.
    Reduced(ReducedProgram),
    /// It has no feasible point.
    Infeasible(DecidedProgram),
    /// It has no feasible point, or none of least cost: each feasible point gives others of any cost.
    UnboundedOrInfeasible(DecidedProgram),
}
