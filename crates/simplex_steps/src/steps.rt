//! A step of a run.

ghost use Rattle.std.specs.Prelude.{◌≡◌, false, IfOk, IfErr, OnOk};
ghost use Rattle.simplex_laws.specs.Choices.{Leaves, NoneLeaves, Enters, Stops, direction, downhill};
ghost use Rattle.simplex_laws.specs.LimitRoom.{LimitsFit};
ghost use Rattle.simplex_laws.specs.Runs.{Descends};
ghost use Rattle.tableau_laws.specs.Tableaus as tableaus;
ghost use Rattle.tableau_laws.specs.Keeping.{IsTableau};
ghost use Rattle.simplex_tableau.specs.Data.{shown};
ghost use Rattle.simplex_tableau.specs.Programs.{minimized};
ghost use Rattle.simplex_steps.specs.Signs.{sign_of};
ghost use Rattle.simplex_steps.specs.Steps.{Says, Looks, IsStepPast};

use crate::choices::{Leaving, find_descent, find_leaving, find_repair, signed};
use crate::limits::{Stop, end_ahead, find_stop, is_limited};
use fractions::Past;
use lp_model::Program;
use simplex_tableau::Tableau;

/// How a run ends where the rules ask for no step.
#[derive(Clone, Copy)]
pub enum End {
    /// A basic variable is past an end, and no other one can take it there.
    Infeasible,
    /// No basic variable is past an end, and no other one lowers the cost.
    Best,
    /// Nothing limits the variable that lowers the cost.
    Unbounded,
}

/// Phase 1: a variable leaves, and the least that can takes its place.
///
/// # Errors
/// [`Past`] exactly where a number of the pivot has no room.
fn repair(program: &Program, tableau: &mut Tableau, leaving: &Leaving) -> Result<Option<End>, Past>
    requires usable { tableau.old.spent ≡ false }
    requires tableau { IsTableau (minimized program.now) (shown tableau.old) }
    requires leaves { Leaves (minimized program.now) (shown tableau.old) leaving.now.variable leaving.now.bound (sign_of leaving.now.up) }
    ensures says { IfOk result (λ n. Says (minimized program.now) (shown tableau.old) n (shown tableau.new)) }
    ensures past { IfErr result (λ p. IsStepPast (minimized program.now) (shown tableau.old)) }
    ensures usable { OnOk result (tableau.new.spent ≡ false) }
{
    let Some(e) = find_repair(program, tableau, leaving.variable, leaving.up) else {
        return Ok(Some(End::Infeasible));
    };
    tableau.pivot(leaving.variable, e, &leaving.bound)?;
    Ok(None)
}

/// Phase 2: `e` goes up or down until it stops: at its own other end, where the basis stays, or where another variable leaves.
///
/// # Errors
/// [`Past`] exactly where a number of it has no room.
fn go(program: &Program, tableau: &mut Tableau, e: usize, up: bool, stop: &Stop) -> Result<(), Past>
    requires usable { tableau.old.spent ≡ false }
    requires tableau { IsTableau (minimized program.now) (shown tableau.old) }
    requires enters { Enters (minimized program.now) (shown tableau.old) (downhill (shown tableau.old)) e }
    requires way { direction (shown tableau.old) e ≡ sign_of up }
    requires stops { Stops (minimized program.now) (shown tableau.old) e (sign_of up) stop.now.variable stop.now.far }
    requires room { LimitsFit (minimized program.now) (shown tableau.old) e (sign_of up) }
    ensures made { OnOk result (Descends (minimized program.now) (shown tableau.old) e (shown tableau.new)) }
    ensures past { IfErr result (λ p. (next : tableaus.Tableau) → Descends (minimized program.now) (shown tableau.old) e next → ⊥) }
    ensures usable { OnOk result (tableau.new.spent ≡ false) }
{
    if stop.variable == e {
        return tableau.shift(e, &signed(&stop.far, up));
    }
    match end_ahead(program, tableau, e, up, stop.variable).number() {
        Some(bound) => tableau.pivot(stop.variable, e, &bound),
        None => Ok(()),
    }
}

/// Whether `e` goes up where it lowers the cost.
fn goes_up(tableau: &Tableau, e: usize) -> bool
    ensures { direction (shown tableau.now) e ≡ sign_of result }
{
    tableau.price(e).is_negative()
}

/// Phase 2: the least variable that lowers the cost enters.
///
/// # Errors
/// [`Past`] exactly where one of its limits has no room, or a number of the step.
fn descend(program: &Program, tableau: &mut Tableau) -> Result<Option<End>, Past>
    requires usable { tableau.old.spent ≡ false }
    requires tableau { IsTableau (minimized program.now) (shown tableau.old) }
    requires repaired { NoneLeaves (minimized program.now) (shown tableau.old) }
    ensures says { IfOk result (λ n. Says (minimized program.now) (shown tableau.old) n (shown tableau.new)) }
    ensures past { IfErr result (λ p. IsStepPast (minimized program.now) (shown tableau.old)) }
    ensures usable { OnOk result (tableau.new.spent ≡ false) }
{
    let Some(e) = find_descent(program, tableau) else {
        return Ok(Some(End::Best));
    };
    let up = goes_up(tableau, e);
    let Some(stop) = find_stop(program, tableau, e, up)? else {
        return Ok(Some(End::Unbounded));
    };
    go(program, tableau, e, up, &stop)?;
    Ok(None)
}

/// A step, if the rules ask for one: phase 1 while a basic variable is past an end, else phase 2.
///
/// # Errors
/// [`Past`] exactly where a number of it has no room.
pub fn step(program: &Program, tableau: &mut Tableau) -> Result<Option<End>, Past>
    requires usable { tableau.old.spent ≡ false }
    requires tableau { IsTableau (minimized program.now) (shown tableau.old) }
    ensures says { IfOk result (λ n. Says (minimized program.now) (shown tableau.old) n (shown tableau.new)) }
    ensures past { IfErr result (λ p. IsStepPast (minimized program.now) (shown tableau.old)) }
    ensures usable { OnOk result (tableau.new.spent ≡ false) }
{
    match find_leaving(program, tableau) {
        Some(leaving) => repair(program, tableau, &leaving),
        None => descend(program, tableau),
    }
}

/// Whether the rules ask for a step of phase 1. No number is computed.
fn look_at_repair(program: &Program, tableau: &Tableau, leaving: &Leaving) -> Option<End>
    requires tableau { IsTableau (minimized program.now) (shown tableau.now) }
    requires leaves { Leaves (minimized program.now) (shown tableau.now) leaving.now.variable leaving.now.bound (sign_of leaving.now.up) }
    ensures { Looks (minimized program.now) (shown tableau.now) result }
{
    match find_repair(program, tableau, leaving.variable, leaving.up) {
        Some(_) => None,
        None => Some(End::Infeasible),
    }
}

/// Whether the rules ask for a step of phase 2. No number is computed.
fn look_at_descent(program: &Program, tableau: &Tableau) -> Option<End>
    requires tableau { IsTableau (minimized program.now) (shown tableau.now) }
    requires repaired { NoneLeaves (minimized program.now) (shown tableau.now) }
    ensures { Looks (minimized program.now) (shown tableau.now) result }
{
    let Some(e) = find_descent(program, tableau) else {
        return Some(End::Best);
    };
    if is_limited(program, tableau, e, goes_up(tableau, e)) {
        return None;
    }
    Some(End::Unbounded)
}

/// How the run ends where no step is left, or none where the rules ask for one more. No number of that one is computed.
pub fn look(program: &Program, tableau: &Tableau) -> Option<End>
    requires { IsTableau (minimized program.now) (shown tableau.now) }
    ensures { Looks (minimized program.now) (shown tableau.now) result }
{
    match find_leaving(program, tableau) {
        Some(leaving) => look_at_repair(program, tableau, &leaving),
        None => look_at_descent(program, tableau),
    }
}
