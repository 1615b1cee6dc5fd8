//! The rules by which a run chooses.

ghost use Rattle.std.specs.Prelude.{◌≡◌, ◌↔◌, ℕ, ◌<◌, true, false, IsTrue, MatchOption};
ghost use Rattle.fractions.specs.Number.{neg_ℚ, ◌*ℚ◌};
ghost use Rattle.simplex_tableau.specs.Programs.{minimized};
ghost use Rattle.tableau_laws.specs.Variables.{variables, lower_end as lower_of, upper_end as upper_of};
ghost use Rattle.simplex_laws.specs.Choices.{CanMove, IsPast, IsWithin, Leaves, NoneLeaves, Enters, NoneEnters, downhill, towards};
ghost use Rattle.simplex_tableau.specs.Data.{shown};
ghost use Rattle.simplex_steps.specs.Signs.{sign_of};

use crate::ends::{PastEnd, can_move, lower_end, past_end, upper_end};
use fractions::frac::Frac;
use lp_model::Program;
use simplex_tableau::Tableau;

/// A basic variable that has to leave, its bound and which way it has to go.
#[derive(Clone, Copy)]
pub struct Leaving {
    pub variable: usize,
    pub bound: Frac,
    pub up: bool,
}

/// The end that a variable is past.
fn variable_past(program: &Program, tableau: &Tableau, k: usize) -> Option<PastEnd>
    requires { k < variables (minimized program.now) }
    ensures { MatchOption result (IsWithin (minimized program.now) (shown tableau.now) k) (λ p. IsPast (lower_of (minimized program.now) k) (upper_of (minimized program.now) k) ((shown tableau.now).values k) p.bound (sign_of p.up)) }
{
    past_end(
        &lower_end(program, k),
        &upper_end(program, k),
        &tableau.value(k),
    )
}

/// The end that a variable is past, if it is basic.
fn basic_past(program: &Program, tableau: &Tableau, k: usize) -> Option<PastEnd>
    requires { k < variables (minimized program.now) }
    ensures { MatchOption result ((shown tableau.now).basic k ≡ true → IsWithin (minimized program.now) (shown tableau.now) k) (λ p. ((shown tableau.now).basic k ≡ true) × IsPast (lower_of (minimized program.now) k) (upper_of (minimized program.now) k) ((shown tableau.now).values k) p.bound (sign_of p.up)) }
{
    if tableau.is_basic(k) {
        variable_past(program, tableau, k)
    } else {
        None
    }
}

/// The least basic variable that is past an end.
pub fn find_leaving(program: &Program, tableau: &Tableau) -> Option<Leaving>
    requires { (shown tableau.now).size ≡ variables (minimized program.now) }
    ensures { MatchOption result (NoneLeaves (minimized program.now) (shown tableau.now)) (λ l. Leaves (minimized program.now) (shown tableau.now) l.variable l.bound (sign_of l.up)) }
{
    for k in 0..tableau.size() {
        if let Some(past) = basic_past(program, tableau, k) {
            return Some(Leaving {
                variable: k,
                bound: past.bound,
                up: past.up,
            });
        }
    }
    None
}

/// Whether a variable isn't basic and may go where `way` points.
fn may_enter(program: &Program, tableau: &Tableau, k: usize, way: &Frac) -> bool
    requires { k < variables (minimized program.now) }
    ensures { IsTrue result ↔ (((shown tableau.now).basic k ≡ false) × CanMove (minimized program.now) (shown tableau.now) k way.now) }
{
    !tableau.is_basic(k)
        && can_move(
            &lower_end(program, k),
            &upper_end(program, k),
            &tableau.value(k),
            way,
        )
}

/// Phase 2: the least variable that lowers the cost.
pub fn find_descent(program: &Program, tableau: &Tableau) -> Option<usize>
    requires { (shown tableau.now).size ≡ variables (minimized program.now) }
    ensures { MatchOption result (NoneEnters (minimized program.now) (shown tableau.now) (downhill (shown tableau.now))) (λ e. Enters (minimized program.now) (shown tableau.now) (downhill (shown tableau.now)) e) }
{
    for k in 0..tableau.size() {
        let way = tableau.price(k).neg();
        if may_enter(program, tableau, k, &way) {
            return Some(k);
        }
    }
    None
}

/// A number, or its negative where `up` doesn't hold.
pub fn signed(number: &Frac, up: bool) -> Frac
    ensures left { result ≡ sign_of up *ℚ number.now }
    ensures right { result ≡ number.now *ℚ sign_of up }
{
    if up { *number } else { number.neg() }
}

/// Phase 1: the least variable that takes `b` up, or down.
pub fn find_repair(program: &Program, tableau: &Tableau, b: usize, up: bool) -> Option<usize>
    requires { (shown tableau.now).size ≡ variables (minimized program.now) }
    ensures { MatchOption result (NoneEnters (minimized program.now) (shown tableau.now) (towards (shown tableau.now) b (sign_of up))) (λ e. Enters (minimized program.now) (shown tableau.now) (towards (shown tableau.now) b (sign_of up)) e) }
{
    for k in 0..tableau.size() {
        let way = signed(&tableau.entry(b, k), up);
        if may_enter(program, tableau, k, &way) {
            return Some(k);
        }
    }
    None
}
