//! The ends of variables.

ghost use Rattle.std.specs.Prelude.{◌≡◌, ◌⊎◌, ◌↔◌, ◌<◌, Some, IsTrue, MatchOption};
ghost use Rattle.fractions.specs.Number.{zero_ℚ};
ghost use Rattle.fractions.specs.Order.{◌<ℚ◌};
ghost use Rattle.fractions.specs.Ends.{AtLeast, AtMost, Between};
ghost use Rattle.simplex_tableau.specs.Programs.{minimized};
ghost use Rattle.lp_model.specs.Meaning.{meaning};
ghost use Rattle.tableau_laws.specs.Variables.{variables, lower_end as lower_of, upper_end as upper_of};
ghost use Rattle.simplex_steps.specs.Signs.{sign_of};
ghost use Rattle.simplex_laws.specs.Choices.{CanRise, CanFall, IsPast};

use fractions::ext::Ext;
use fractions::frac::Frac;
use lp_model::Program;
use lp_model::ends::{reach_lower, reach_upper};

/// The lower end of a variable of what the program means.
#[tactic(auto, unfolding(tableau_laws::specs::Variables::joined))]
fn lower_of_meaning(program: &Program, k: usize) -> Ext
    requires { k < variables (meaning program.now) }
    ensures { result ≡ lower_of (meaning program.now) k }
{
    let columns = program.columns();
    if k < columns.len() {
        reach_lower(columns[k].semi, &columns[k].lower, &columns[k].upper)
    } else {
        program.rows()[k - columns.len()].lower
    }
}

/// The lower end of a variable.
pub fn lower_end(program: &Program, k: usize) -> Ext
    requires { k < variables (minimized program.now) }
    ensures { result ≡ lower_of (minimized program.now) k }
{
    lower_of_meaning(program, k)
}

/// The upper end of a variable of what the program means.
#[tactic(auto, unfolding(tableau_laws::specs::Variables::joined))]
fn upper_of_meaning(program: &Program, k: usize) -> Ext
    requires { k < variables (meaning program.now) }
    ensures { result ≡ upper_of (meaning program.now) k }
{
    let columns = program.columns();
    if k < columns.len() {
        reach_upper(columns[k].semi, &columns[k].lower, &columns[k].upper)
    } else {
        program.rows()[k - columns.len()].upper
    }
}

/// The upper end of a variable.
pub fn upper_end(program: &Program, k: usize) -> Ext
    requires { k < variables (minimized program.now) }
    ensures { result ≡ upper_of (minimized program.now) k }
{
    upper_of_meaning(program, k)
}

/// The end that a value is past, and whether it has to go up.
#[derive(Clone, Copy)]
pub struct PastEnd {
    pub bound: Frac,
    pub up: bool,
}

/// The end that a value is below.
fn below_lower(lower: &Ext, value: &Frac) -> Option<Frac>
    ensures { MatchOption result (AtLeast lower.now value.now) (λ e. (lower.now ≡ Some e) × (value.now <ℚ e)) }
{
    match lower.number() {
        Some(end) if value.lt(&end) => Some(end),
        _ => None,
    }
}

/// The end that a value is above.
fn above_upper(upper: &Ext, value: &Frac) -> Option<Frac>
    ensures { MatchOption result (AtMost upper.now value.now) (λ e. (upper.now ≡ Some e) × (e <ℚ value.now)) }
{
    match upper.number() {
        Some(end) if end.lt(value) => Some(end),
        _ => None,
    }
}

/// The end that a value is past.
pub fn past_end(lower: &Ext, upper: &Ext, value: &Frac) -> Option<PastEnd>
    ensures { MatchOption result (Between lower.now upper.now value.now) (λ p. IsPast lower.now upper.now value.now p.bound (sign_of p.up)) }
{
    if let Some(bound) = below_lower(lower, value) {
        return Some(PastEnd { bound, up: true });
    }
    let bound = above_upper(upper, value)?;
    Some(PastEnd { bound, up: false })
}

/// Whether a value isn't at its upper end.
fn can_rise(upper: &Ext, value: &Frac) -> bool
    ensures { IsTrue result ↔ CanRise upper.now value.now }
{
    match upper.number() {
        Some(end) => value.lt(&end),
        None => true,
    }
}

/// Whether a value isn't at its lower end.
fn can_fall(lower: &Ext, value: &Frac) -> bool
    ensures { IsTrue result ↔ CanFall lower.now value.now }
{
    match lower.number() {
        Some(end) => end.lt(value),
        None => true,
    }
}

/// Whether a value may go where `way` points.
pub fn can_move(lower: &Ext, upper: &Ext, value: &Frac, way: &Frac) -> bool
    ensures { IsTrue result ↔ (((zero_ℚ <ℚ way.now) × CanRise upper.now value.now) ⊎ ((way.now <ℚ zero_ℚ) × CanFall lower.now value.now)) }
{
    if way.is_positive() {
        return can_rise(upper, value);
    }
    way.is_negative() && can_fall(lower, value)
}
