//! Pieces of what a round tests.

ghost use Rattle.std.specs.Prelude.{◌≡◌, ◌<◌, ◌≤◌, ◌++◌, length, IfOk, OnOk};
ghost use Rattle.problem_model.specs.Sparse.{Sparse};
ghost use Rattle.presolve_model.specs.Scans.{instances_at};
ghost use Rattle.presolve_model.specs.Tallies.{Open};
ghost use Rattle.place_laws.specs.Choosing.{instances_of};
ghost use Rattle.threaded_passes.specs.Pieces.{of_pieces};

use presolve_model::Rule;
use presolve_rounds::round_marks::around::Around;
use sparse_problem::Problem;
use std::alloc::{AllocError, Global};
use std::marker::Model;

/// Some first ids of a rule. One thread tests the instances with them.
#[derive(Drop)]
pub struct Piece {
    rule: Rule,
    ids: Vec<u32>,
}

impl Model for Piece {
    ghost use Rattle.threaded_passes.specs.Pieces.{PieceData};

    ghost Value = { PieceData };

    ghost view = { λ p. record { rule = p.rule; ids = p.ids.items } };
}

impl Piece {
    /// These first ids of a rule.
    ///
    /// # Errors
    /// Memory ran out.
    pub fn new(alloc: Global, rule: Rule, ids: &[u32]) -> Result<Piece, AllocError>
        ensures { IfOk result (λ piece. piece ≡ record { rule = rule; ids = ids.now }) }
    {
        let ids = Vec::from_slice(alloc, ids)?;
        Ok(Piece { rule, ids })
    }

    /// The rule.
    pub fn rule(&self) -> Rule
        ensures { result ≡ self.now.rule }
    {
        self.rule
    }

    /// The first ids.
    pub fn ids(&self) -> &[u32]
        ensures { result.now ≡ self.now.ids }
    {
        self.ids.as_slice()
    }
}

/// What costs less is done by one thread: starting others would take longer.
pub const LEAST_COST: u64 = 200_000;

/// The entries that a test of a rule of dominated columns looks at in a row, at most.
const MOST_IN_PAIRS: usize = 64;

/// What it costs, about, to test the instances of a rule with a first id: one, and one for each entry that is looked at.
fn cost(problem: &Problem, rule: Rule, id: u32) -> u64 {
    match rule {
        Rule::InfeasibleRow
        | Rule::RedundantRow
        | Rule::RedundantSide
        | Rule::ForcingRow
        | Rule::BoundTightening
        | Rule::CoefficientTightening => (problem.live_row_entries(id) as u64).saturating_add(1),
        Rule::UnboundedColumn | Rule::DualFixing => {
            (problem.live_column_entries(id) as u64).saturating_add(1)
        }
        Rule::DominatedColumn => {
            let entries = problem.live_row_entries(id).min(MOST_IN_PAIRS) as u64;
            entries * entries + 1
        }
        _ => 1,
    }
}

/// What it costs, about, to test the instances of a rule with these first ids.
fn cost_at(problem: &Problem, rule: Rule, ids: &[u32]) -> u64 {
    let mut sum: u64 = 0;
    for id in ids {
        sum = sum.saturating_add(cost(problem, rule, *id));
    }
    sum
}

/// What it costs, about, to test the instances of rules at these rows and columns.
pub fn cost_of(problem: &Problem, ids: &Around, rules: &[Rule]) -> u64 {
    let mut sum: u64 = 0;
    for rule in rules {
        sum = sum.saturating_add(cost_at(problem, *rule, ids.of(*rule)));
    }
    sum
}

/// How many of the first ids cost so much together, about: at least one.
fn count_for(problem: &Problem, rule: Rule, ids: &[u32], most: u64) -> usize
    requires { 0 < length ids.now }
    ensures { (0 < result) × (result ≤ length ids.now) }
{
    let mut sum = cost(problem, rule, ids[0]);
    let mut count = 1;
    while count < ids.len() && sum < most {
        sum = sum.saturating_add(cost(problem, rule, ids[count]));
        count += 1;
    }
    count
}

/// Cuts first ids of a rule into pieces, behind those before.
fn cut(
    alloc: Global,
    problem: &Problem,
    rule: Rule,
    ids: &[u32],
    most: u64,
    pieces: &mut Vec<Piece>,
) -> Result<(), AllocError>
    ensures { OnOk result ((opens : Open) (p : Sparse) → of_pieces opens p pieces.new.items ≡ of_pieces opens p pieces.old.items ++ instances_at opens p rule ids.now) }
{
    let mut rest = ids;
    while rest.len() > 0 {
        let count = count_for(problem, rule, rest, most);
        let (front, after) = rest.split_at(count);
        pieces.push(Piece::new(alloc, rule, front)?)?;
        rest = after;
    }
    Ok(())
}

/// The instances of rules at these rows and columns in pieces that cost so much each, about.
///
/// # Errors
/// Memory ran out.
pub fn pieces_of(
    alloc: Global,
    problem: &Problem,
    ids: &Around,
    rules: &[Rule],
    most: u64,
) -> Result<Vec<Piece>, AllocError>
    ensures { IfOk result (λ pieces. (opens : Open) (p : Sparse) → of_pieces opens p pieces.items ≡ instances_of opens p ids.now rules.now) }
{
    let mut pieces = Vec::new(alloc);
    let mut rest = rules;
    while let [rule, after @ ..] = rest {
        cut(alloc, problem, *rule, ids.of(*rule), most, &mut pieces)?;
        rest = after;
    }
    Ok(pieces)
}
