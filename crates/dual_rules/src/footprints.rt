//! What a column asks of all that stand beside it, in a set of 64 bits each way: most pairs, of which neither dominates the other, differ there.

ghost use Rattle.std.specs.Prelude.{◌≡◌, ℕ, true, false, bit_or, nat_eq, slice_index_or, slice_set, IfOk, IfSome, List, ◌∷◌, [], None, Some};
ghost use Rattle.lp_model.specs.declared.terms.Term.{Term};
ghost use Rattle.lp_model.specs.Sparse.{Ascends};
ghost use Rattle.problem_model.specs.Matrices.{live_only};
ghost use Rattle.problem_model.specs.Problems.{column_at, column_entries, row_at};
ghost use Rattle.problem_model.specs.Sparse.{Sparse};
ghost use Rattle.dual_rules.specs.Footprints.{AreFootprints, IsFootprint, asked as asked_of, asks as asks_of, bit_of, bits_of, mark as mark_of, offered as offered_of, offers as offers_of};
ghost use Rattle.dual_rules.specs.Merging.{all_admit};

use crate::directions::entries;
use fractions::frac::Frac;
use lp_model::Term;
use problem_model::Sides;
use sparse_problem::Problem;
use std::alloc::{AllocError, Global};
use std::marker::Model;

/// Sets of the live rows of a column, each row a bit by its hash. Where one column stands in for another, it asks in no row in which the other
/// does not, and offers in each in which the other does.
#[derive(Clone, Copy)]
pub struct Footprint {
    /// The rows that don't take the column for one without an entry there.
    pub asked: u64,
    /// The rows that don't take one without an entry there for the column.
    pub offered: u64,
}

/// The most entries of a column of which a footprint is made.
const MOST_LOOKED_AT: usize = 64;

/// A bit for a number, by the high digits of the low half of a product with a constant near 2^32 over the golden ratio.
fn bit(number: u64) -> u64
    ensures { result ≡ bit_of number }
{
    1 << (number % (1 << 32) * 2_654_435_761 % (1 << 32) / (1 << 26))
}

/// The bit of an entry. In a row with two sides its number counts too, since it has to be the same in both columns.
fn mark(sides: &Sides, term: &Term) -> u64
    ensures { result ≡ mark_of sides.now.lower sides.now.upper term.now.id term.now.value }
{
    if sides.lower.is_none() || sides.upper.is_none() {
        return bit(term.id as u64);
    }
    let digits = term.value.parts().num.size() % (1 << 16);
    bit(term.id as u64 + digits as u64)
}

/// Whether a row of these sides doesn't take a column with this entry for one without.
fn asks(sides: &Sides, value: &Frac) -> bool
    ensures { result ≡ asks_of sides.now.lower sides.now.upper value.now }
{
    (value.is_positive() && !sides.upper.is_none())
        || (value.is_negative() && !sides.lower.is_none())
}

/// Whether it doesn't take one without for the column.
fn offers(sides: &Sides, value: &Frac) -> bool
    ensures { result ≡ offers_of sides.now.lower sides.now.upper value.now }
{
    (value.is_positive() && !sides.lower.is_none())
        || (value.is_negative() && !sides.upper.is_none())
}

/// These sets with one entry more.
fn with_entry(problem: &Problem, before: &Footprint, term: &Term) -> Footprint
    requires { (row_at problem.now term.now.id).live ≡ true }
    ensures asked { result.asked ≡ bit_or before.now.asked (asked_of problem.now term.now.id term.now.value) }
    ensures offered { result.offered ≡ bit_or before.now.offered (offered_of problem.now term.now.id term.now.value) }
{
    let sides = problem.sides(term.id);
    let own = mark(&sides, term);
    let asked = if asks(&sides, &term.value) { own } else { 0 };
    let offered = if offers(&sides, &term.value) { own } else { 0 };
    Footprint {
        asked: before.asked | asked,
        offered: before.offered | offered,
    }
}

/// The same, unless the entry's row is gone.
fn with_live(problem: &Problem, before: &Footprint, term: &Term) -> Footprint
    ensures asked { result.asked ≡ bit_or before.now.asked (bits_of (asked_of problem.now) (live_only problem.now.matrix.rows (term.now ∷ []))) }
    ensures offered { result.offered ≡ bit_or before.now.offered (bits_of (offered_of problem.now) (live_only problem.now.matrix.rows (term.now ∷ []))) }
{
    if problem.is_row_live(term.id) {
        with_entry(problem, before, term)
    } else {
        *before
    }
}

/// The footprint of a column with these entries.
fn footprint_by(problem: &Problem, entries: &[Term]) -> Footprint
    ensures { IsFootprint problem.now (live_only problem.now.matrix.rows entries.now) result }
{
    let mut sets = Footprint {
        asked: 0,
        offered: 0,
    };
    let mut rest = entries;
    while let [term, after @ ..] = rest {
        sets = with_live(problem, &sets, term);
        rest = after;
    }
    sets
}

/// The footprint of a column. None is made where it has more than 64 entries.
fn footprint_of(problem: &Problem, column: u32) -> Option<Footprint>
    requires { (column_at problem.now column).live ≡ true }
    ensures { IfSome result (λ f. IsFootprint problem.now (column_entries problem.now column) f) }
{
    let terms = entries(problem, column);
    if terms.len() > MOST_LOOKED_AT {
        return None;
    }
    Some(footprint_by(problem, terms))
}

/// A footprint, and the turn in which it was made.
#[derive(Clone, Copy)]
struct Kept {
    turn: u64,
    footprint: Footprint,
}

/// Footprints of columns, each made where it is first asked for. In a contract they are a list by column, none where it isn't kept.
#[derive(Drop)]
pub struct Footprints {
    /// Those of earlier turns are forgotten.
    turn: u64,
    kept: Vec<Kept>,
}

impl Model for Footprints {
    ghost use Rattle.std.specs.Prelude.{◌≤◌, List, map, Option};
    ghost use Rattle.std.specs.List.{All};
    ghost use Rattle.dual_rules.specs.declared.footprints.Footprint.{Footprint};
    ghost use Rattle.dual_rules.specs.Footprints.{kept_in};

    ghost Value = { List (Option Footprint) };

    ghost view = { λ f. map (kept_in f.turn) f.kept.items };

    ghost invariant = { λ f. All (λ k. k.turn ≤ f.turn) f.kept.items };
}

impl Footprints {
    /// None yet, with room for those of so many columns. Of further ones none is kept.
    ///
    /// # Errors
    /// Memory ran out.
    pub fn new(alloc: Global, columns: usize) -> Result<Footprints, AllocError>
        ensures { IfOk result (λ made. (p : Sparse) → AreFootprints p made) }
    {
        let none = Kept {
            turn: 0,
            footprint: Footprint {
                asked: 0,
                offered: 0,
            },
        };
        let kept = vec![in alloc; none; columns]?;
        Ok(Footprints { turn: 1, kept })
    }

    /// Forgets all of them, as the problem changes.
    pub fn forget(&mut self)
        ensures { (p : Sparse) → AreFootprints p self.new }
    {
        match self.turn.checked_add(1) {
            Some(turn) => self.turn = turn,
            None => self.kept.clear(),
        }
    }

    /// The footprint of a column, if it is kept.
    fn found(&self, column: u32) -> Option<Footprint>
        ensures { result ≡ slice_index_or self.now column None }
    {
        match self.kept.as_slice().get(column as usize) {
            Some(kept) if kept.turn == self.turn => Some(kept.footprint),
            _ => None,
        }
    }

    /// Keeps the footprint of a column, if there is room for it.
    fn keep(&mut self, column: u32, footprint: Footprint)
        ensures { self.new ≡ slice_set self.old column (Some footprint) }
    {
        let turn = self.turn;
        if (column as usize) < self.kept.len() {
            self.kept[column as usize] = Kept { turn, footprint };
        }
    }

    /// The footprint of a column. None is made where it has more than 64 entries.
    pub fn of(&mut self, problem: &Problem, column: u32) -> Option<Footprint>
        requires column { (column_at problem.now column).live ≡ true }
        requires kept { AreFootprints problem.now self.old }
        ensures footprint { IfSome result (λ f. IsFootprint problem.now (column_entries problem.now column) f) }
        ensures kept { AreFootprints problem.now self.new }
    {
        if let Some(footprint) = self.found(column) {
            return Some(footprint);
        }
        let Some(footprint) = footprint_of(problem, column) else {
            return None;
        };
        self.keep(column, footprint);
        Some(footprint)
    }
}

/// Whether no bit stands in the first set alone.
fn is_within(set: u64, other: u64) -> bool
    ensures { result ≡ nat_eq (bit_or set other) other }
{
    set | other == other
}

/// Whether the footprints of two columns, as far as they were made, let the first column stand in for the second.
pub fn footprints_admit(better: &Option<Footprint>, other: &Option<Footprint>) -> bool
    ensures { (p : Sparse) (n : ℕ) (ts us : List Term) → Ascends 0 n ts → Ascends 0 n us → IfSome better.now (λ f. IsFootprint p ts f) → IfSome other.now (λ f. IsFootprint p us f) → result ≡ false → all_admit p ts us ≡ false }
{
    match (better, other) {
        (Some(better), Some(other)) => {
            is_within(better.asked, other.asked) && is_within(other.offered, better.offered)
        }
        _ => true,
    }
}
