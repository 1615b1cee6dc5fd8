//! How far a variable can go.

ghost use Rattle.std.specs.Prelude.{◌≡◌, ◌≢◌, ◌↔◌, ◌<◌, ◌+◌, ℕ, true, false, is_some, Option, Some, None, if◌then◌else◌, IsTrue, IfOk, IsOk, MatchOption};
ghost use Rattle.fractions.specs.Number.{Number, zero_ℚ, ◌*ℚ◌};
ghost use Rattle.simplex_steps.specs.Best.{IsBest, IsNearest};
ghost use Rattle.fractions.specs.Compare.{lt_ℚ};
ghost use Rattle.fractions.specs.Ends.{less as less_of, over as over_of};
ghost use Rattle.fractions.specs.EndWords.{LessFits, OverFits};
ghost use Rattle.simplex_tableau.specs.Programs.{minimized};
ghost use Rattle.tableau_laws.specs.Variables.{variables};
ghost use Rattle.simplex_laws.specs.Choices.{end_ahead as ahead_of, limit, own_width as width_of, NoLimit, Stops};
ghost use Rattle.simplex_laws.specs.LimitRoom.{WidthFits, LimitFitsAt, LimitsFit};
ghost use Rattle.simplex_tableau.specs.Data.{shown};
ghost use Rattle.simplex_steps.specs.Signs.{sign_of};

use crate::choices::signed;
use crate::ends::{lower_end, upper_end};
use fractions::Past;
use fractions::ends::{less, over};
use fractions::ext::Ext;
use fractions::frac::Frac;
use lp_model::Program;
use simplex_tableau::Tableau;

/// The end to which a value goes that moves by a multiple of a step.
fn end_toward(lower: &Ext, upper: &Ext, multiple: &Frac) -> Ext
    ensures { result ≡ (if lt_ℚ zero_ℚ multiple.now then upper.now else if lt_ℚ multiple.now zero_ℚ then lower.now else None) }
{
    if multiple.is_positive() {
        *upper
    } else if multiple.is_negative() {
        *lower
    } else {
        Ext::none()
    }
}

/// By which multiple a variable moves where `e` goes up or down.
pub fn multiple_of(tableau: &Tableau, e: usize, up: bool, m: usize) -> Frac
    ensures { result ≡ (shown tableau.now).table m e *ℚ sign_of up }
{
    signed(&tableau.entry(m, e), up)
}

/// The end to which a variable goes where `e` goes up or down.
pub fn end_ahead(program: &Program, tableau: &Tableau, e: usize, up: bool, m: usize) -> Ext
    requires { m < variables (minimized program.now) }
    ensures { result ≡ ahead_of (minimized program.now) (shown tableau.now) e (sign_of up) m }
{
    end_toward(
        &lower_end(program, m),
        &upper_end(program, m),
        &multiple_of(tableau, e, up, m),
    )
}

/// How far the end of a range is from a value by steps of a multiple.
fn steps_to(end: &Ext, value: &Frac, multiple: &Frac) -> Result<Ext, Past>
    requires { multiple.now ≢ zero_ℚ }
    ensures value { IfOk result (λ r. r ≡ over_of (less_of end.now value.now) multiple.now) }
    ensures fits { IsOk result ↔ (LessFits end.now value.now × OverFits (less_of end.now value.now) multiple.now) }
{
    over(&less(end, value)?, multiple)
}

/// The width of a variable's own range, if both ends are finite.
pub fn own_width(lower: &Ext, upper: &Ext) -> Result<Ext, Past>
    ensures value { IfOk result (λ r. r ≡ width_of lower.now upper.now) }
    ensures fits { IsOk result ↔ WidthFits lower.now upper.now }
{
    match lower.number() {
        Some(from) => less(upper, &from),
        None => Ok(Ext::none()),
    }
}

/// How far `e` can go until another variable is at an end.
pub fn limit_of(
    program: &Program,
    tableau: &Tableau,
    e: usize,
    up: bool,
    m: usize,
) -> Result<Ext, Past>
    requires within { m < variables (minimized program.now) }
    requires apart { m ≢ e }
    ensures value { IfOk result (λ r. r ≡ limit (minimized program.now) (shown tableau.now) e (sign_of up) m) }
    ensures fits { IsOk result ↔ (LessFits (ahead_of (minimized program.now) (shown tableau.now) e (sign_of up) m) ((shown tableau.now).values m) × OverFits (less_of (ahead_of (minimized program.now) (shown tableau.now) e (sign_of up) m) ((shown tableau.now).values m)) ((shown tableau.now).table m e *ℚ sign_of up)) }
{
    let multiple = multiple_of(tableau, e, up, m);
    if multiple.is_zero() {
        return Ok(Ext::none());
    }
    steps_to(
        &end_ahead(program, tableau, e, up, m),
        &tableau.value(m),
        &multiple,
    )
}

/// How far `e` can go until a variable is at an end, or `e` at its own.
fn limit_at(program: &Program, tableau: &Tableau, e: usize, up: bool, m: usize) -> Result<Ext, Past>
    requires within { m < variables (minimized program.now) }
    ensures value { IfOk result (λ r. r ≡ limit (minimized program.now) (shown tableau.now) e (sign_of up) m) }
    ensures fits { IsOk result ↔ LimitFitsAt (minimized program.now) (shown tableau.now) e (sign_of up) m }
{
    if m == e {
        own_width(&lower_end(program, m), &upper_end(program, m))
    } else {
        limit_of(program, tableau, e, up, m)
    }
}

/// Where `e` stops, and how far that is.
#[derive(Clone, Copy)]
pub struct Stop {
    pub variable: usize,
    pub far: Frac,
}

/// The nearer one of a stop and a later one; at equal ones the first.
fn nearer_of(stop: Stop, m: usize, far: Frac) -> Stop
    ensures { (limits : ℕ → Option Number) → Some far ≡ limits m → IsNearest limits m stop → IsNearest limits (m + 1) result }
{
    if stop.far.le(&far) {
        stop
    } else {
        Stop { variable: m, far }
    }
}

/// The nearer one of a stop and a limit; at equal ones the stop.
fn nearer(best: Option<Stop>, m: usize, limit: &Ext) -> Option<Stop>
    ensures { (limits : ℕ → Option Number) → limit.now ≡ limits m → IsBest limits m best → IsBest limits (m + 1) result }
{
    let Some(far) = limit.number() else {
        return best;
    };
    let Some(stop) = best else {
        return Some(Stop { variable: m, far });
    };
    Some(nearer_of(stop, m, far))
}

/// Where `e` stops first, if something limits it.
pub fn find_stop(
    program: &Program,
    tableau: &Tableau,
    e: usize,
    up: bool,
) -> Result<Option<Stop>, Past>
    requires { (shown tableau.now).size ≡ variables (minimized program.now) }
    ensures value { IfOk result (λ o. MatchOption o (NoLimit (minimized program.now) (shown tableau.now) e (sign_of up)) (λ s. Stops (minimized program.now) (shown tableau.now) e (sign_of up) s.variable s.far)) }
    ensures fits { IsOk result ↔ LimitsFit (minimized program.now) (shown tableau.now) e (sign_of up) }
{
    let mut best = None;
    for m in 0..tableau.size() {
        let limit = limit_at(program, tableau, e, up, m)?;
        best = nearer(best, m, &limit);
    }
    Ok(best)
}

/// Whether both ends of a range are finite.
fn has_width(lower: &Ext, upper: &Ext) -> bool
    ensures { result ≡ is_some (width_of lower.now upper.now) }
{
    lower.number().is_some() && upper.number().is_some()
}

/// Whether a variable limits `e`. It computes no number.
fn limits_at(program: &Program, tableau: &Tableau, e: usize, up: bool, m: usize) -> bool
    requires { m < variables (minimized program.now) }
    ensures { result ≡ is_some (limit (minimized program.now) (shown tableau.now) e (sign_of up) m) }
{
    if m == e {
        has_width(&lower_end(program, m), &upper_end(program, m))
    } else {
        end_ahead(program, tableau, e, up, m).number().is_some()
    }
}

/// Whether something limits `e`. It computes no number.
pub fn is_limited(program: &Program, tableau: &Tableau, e: usize, up: bool) -> bool
    requires { (shown tableau.now).size ≡ variables (minimized program.now) }
    ensures free { result ≡ false → NoLimit (minimized program.now) (shown tableau.now) e (sign_of up) }
    ensures limited { result ≡ true → ¬ (NoLimit (minimized program.now) (shown tableau.now) e (sign_of up)) }
{
    for m in 0..tableau.size() {
        if limits_at(program, tableau, e, up, m) {
            return true;
        }
    }
    false
}
