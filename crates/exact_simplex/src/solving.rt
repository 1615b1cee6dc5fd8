//! A program solved.

ghost use Rattle.std.specs.Prelude.{◌≡◌, ◌↔◌, ℕ, ◌<◌, true, false, length, IsTrue, IfOk};
ghost use Rattle.fractions.specs.Number.{zero_ℚ};
ghost use Rattle.lp_theory.specs.Crossed.{AreCrossed};
ghost use Rattle.lp_model.specs.Meaning.{meaning};
ghost use Rattle.lp_model.specs.Optimality.{Continuous};
ghost use Rattle.lp_model.specs.Turning.{signed};
ghost use Rattle.tableau_laws.specs.Variables.{variables, lower_end as lower_of, upper_end as upper_of};
ghost use Rattle.simplex_laws.specs.Runs.{NoneCrossed, EndsBest, duals_at};
ghost use Rattle.simplex_tableau.specs.Data.{shown};
ghost use Rattle.simplex_tableau.specs.Programs.{minimized};
ghost use Rattle.simplex_tableau.specs.Starting.{Lists};
ghost use Rattle.exact_simplex.specs.RunEnds.{RunEnds};
ghost use Rattle.exact_simplex.specs.Answers.{IsAnswer, IsTrueOf};
ghost use Rattle.exact_simplex.specs.declared.runs.Ending.TheVariants.{Ended};

use crate::runs::{Ending, run};
use fractions::ext::Ext;
use fractions::frac::Frac;
use lp_model::ends::crossed;
use lp_model::{Duals, Pair, Point, Program, Sense, cost};
use simplex_steps::{End, lower_end, upper_end};
use simplex_tableau::{NoStart, Tableau};
use std::alloc::{AllocError, Global};

/// What a run answers.
#[derive(Drop)]
pub enum Solved {
    /// A best point with duals that prove it, both in the sense of the file, its cost, and how many steps led there.
    Optimal { pair: Pair, cost: Frac, pivots: u64 },
    /// No point is feasible.
    Infeasible,
    /// Costs have no end.
    Unbounded,
    /// All steps are made, and the rules ask for one more.
    Spent,
    /// A number has no room, after so many steps.
    Past { pivot: u64 },
}

/// Whether a lower end is above an upper one.
fn are_crossed(lower: &Ext, upper: &Ext) -> bool
    ensures { IsTrue result ↔ AreCrossed lower.now upper.now }
{
    crossed(lower, upper)
}

/// How many variables a program has.
fn count(program: &Program) -> usize
    ensures { result ≡ variables (minimized program.now) }
{
    program.columns().len() + program.rows().len()
}

/// Whether the ends of a column or of a row are crossed.
fn any_crossed(program: &Program) -> bool
    ensures crossed { result ≡ true → (k : ℕ) × (k < variables (minimized program.now)) × AreCrossed (lower_of (minimized program.now) k) (upper_of (minimized program.now) k) }
    ensures in_order { result ≡ false → NoneCrossed (minimized program.now) }
{
    for k in 0..count(program) {
        if are_crossed(&lower_end(program, k), &upper_end(program, k)) {
            return true;
        }
    }
    false
}

/// The point at a tableau: the values of the columns.
fn point_at(alloc: Global, program: &Program, tableau: &Tableau) -> Result<Point, AllocError>
    ensures { IfOk result (λ x. Lists zero_ℚ (λ j v. v ≡ (shown tableau.now).values j) (length program.now.columns) x) }
{
    let columns = program.columns().len();
    let mut numbers = Vec::with_capacity(alloc, columns)?;
    for j in 0..columns {
        numbers.push(tableau.value(j))?;
    }
    Ok(Point::new(numbers))
}

/// A multiplier in the sense of the file.
fn in_sense(sense: Sense, number: Frac) -> Frac
    ensures { result ≡ signed sense number }
{
    match sense {
        Sense::Min => number,
        Sense::Max => number.neg(),
    }
}

/// The duals at a tableau: the prices of the rows' variables, in the sense of the file.
fn duals_of(alloc: Global, program: &Program, tableau: &Tableau) -> Result<Duals, AllocError>
    ensures { IfOk result (λ y. Lists zero_ℚ (λ i v. v ≡ signed program.now.sense (duals_at (meaning program.now) (shown tableau.now) i)) (length program.now.rows) y) }
{
    let columns = program.columns().len();
    let rows = program.rows().len();
    let sense = program.sense();
    let mut numbers = Vec::with_capacity(alloc, rows)?;
    for i in 0..rows {
        numbers.push(in_sense(sense, tableau.price(columns + i)))?;
    }
    Ok(Duals::new(numbers))
}

/// The best point with its duals and its cost, or that the cost has no room.
fn optimum(
    alloc: Global,
    program: &Program,
    tableau: &Tableau,
    pivots: u64,
) -> Result<Solved, AllocError>
    ensures { IfOk result (λ a. (N : ℕ) → EndsBest (minimized program.now) N pivots (shown tableau.now) → IsAnswer program.now N a) }
{
    let point = point_at(alloc, program, tableau)?;
    let Ok(cost) = cost(program, &point) else {
        return Ok(Solved::Past { pivot: pivots });
    };
    let duals = Some(duals_of(alloc, program, tableau)?);
    Ok(Solved::Optimal {
        pair: Pair { point, duals },
        cost,
        pivots,
    })
}

/// What is answered where the rules ask for no step.
fn conclude(
    alloc: Global,
    program: &Program,
    tableau: &Tableau,
    end: End,
    pivots: u64,
) -> Result<Solved, AllocError>
    ensures { IfOk result (λ a. (N : ℕ) → RunEnds (minimized program.now) N (Ended end pivots) (shown tableau.now) → IsAnswer program.now N a) }
{
    match end {
        End::Best => optimum(alloc, program, tableau, pivots),
        End::Infeasible => Ok(Solved::Infeasible),
        End::Unbounded => Ok(Solved::Unbounded),
    }
}

/// What is answered at the end of a run.
fn answer(
    alloc: Global,
    program: &Program,
    tableau: &Tableau,
    ending: Ending,
) -> Result<Solved, AllocError>
    ensures { IfOk result (λ a. (N : ℕ) → RunEnds (minimized program.now) N ending (shown tableau.now) → IsAnswer program.now N a) }
{
    match ending {
        Ending::Ended { end, pivots } => conclude(alloc, program, tableau, end, pivots),
        Ending::Spent => Ok(Solved::Spent),
        Ending::Past { pivot } => Ok(Solved::Past { pivot }),
    }
}

/// Solves a program by the simplex method in exact numbers, with so many pivots and moves at most, and the least variable wherever there
/// is a choice (Bland's rule).
///
/// Phase 1 takes basic variables to the ends that they are past, phase 2 lowers the cost as it is minimized. Each answer is given exactly
/// where the run ends so; where no column has to be whole or is semi-continuous, it is also true of the program.
pub fn solve(alloc: Global, program: &Program, pivots: u64) -> Result<Solved, AllocError>
    ensures answer { IfOk result (λ a. IsAnswer program.now pivots a) }
    ensures right { Continuous (meaning program.now) → IfOk result (λ a. IsTrueOf program.now a) }
{
    if any_crossed(program) {
        return Ok(Solved::Infeasible);
    }
    let mut tableau = match Tableau::start(alloc, program) {
        Ok(tableau) => tableau,
        Err(NoStart::Past) => return Ok(Solved::Past { pivot: 0 }),
        Err(NoStart::NoMemory) => return Err(AllocError),
    };
    let ending = run(program, &mut tableau, pivots);
    answer(alloc, program, &tableau, ending)
}
