//! The bounds that a row tightens (K8), one after the other.

ghost use Rattle.std.specs.Prelude.{◌≡◌, ◌≢◌, ℕ, ◌<◌, ◌+◌, ◌∷◌, ◌++◌, [], true, false, length, if◌then◌else◌, None, IfNone, IfOk, IfSome, OnOk};
ghost use Rattle.std.specs.List.{filter};
ghost use Rattle.fractions.specs.Number.{zero_ℚ};
ghost use Rattle.fractions.specs.Compare.{lt_ℚ};
ghost use Rattle.undo_records.specs.declared.side.Side.TheVariants as side_of;
ghost use Rattle.problem_model.specs.Problems.{row_entries};
ghost use Rattle.row_spans.specs.Spans.{span_at};
ghost use Rattle.activity_laws.specs.BoundTightening.{bounds_of, enabled, implied};
ghost use Rattle.activity_rules.specs.Tightened.{AreQuiet, found_at, is_below, is_looked_at as row_is_looked_at, is_tight as is_tight_by, kept_upper, left_of};

use crate::bound_tightening::is_looked_at;
use crate::infinite_ends::may_tighten;
use activities::RowSums;
use activities::row_bounds::{is_better, left_over, old_bound, source};
use fractions::ext::Ext;
use fractions::frac::Frac;
use kept_sums::QuietSides;
use problem_model::Sides;
use row_spans::Span;
use sparse_problem::Problem;
use std::alloc::{AllocError, Global};
use std::marker::Model;
use undo_records::Side;

/// The entry at a place of a row that was summed.
fn span_of(sums: &RowSums, place: usize) -> Span
    requires { place < length sums.now }
    ensures value { result ≡ span_at sums.now place }
    ensures some { result.value ≢ zero_ℚ }
{
    sums.spans()[place]
}

/// The bound that the row implies for the column of that entry.
fn implied_at(sums: &RowSums, sides: &Sides, place: usize, side: Side) -> Ext
    requires { place < length sums.now }
    ensures { result ≡ implied side (span_at sums.now place).id (span_at sums.now place).value sides.now.lower sides.now.upper sums.now }
{
    let span = span_of(sums, place);
    let (extreme, end) = source(side, &span.value, sides);
    if end.is_none() {
        return Ext::none();
    }
    left_over(&span.value, &end, sums.rest(extreme, place))
}

/// Whether the implied bound is better than the column's own, which is not semi-continuous.
fn is_tight(sums: &RowSums, sides: &Sides, place: usize, side: Side) -> bool
    requires { place < length sums.now }
    ensures { result ≡ is_tight_by sides.now sums.now (span_at sums.now place) side }
{
    let span = span_of(sums, place);
    if span.semi {
        return false;
    }
    let old = old_bound(side, &span.lower, &span.upper);
    is_better(side, &old, &implied_at(sums, sides, place, side))
}

/// Whether the side tells of no better bound from which a bound of a column with this entry follows.
fn is_quiet(quiet: QuietSides, entry: &Frac, side: Side) -> bool
    ensures { result ≡ (if is_below side (lt_ℚ zero_ℚ entry.now) then quiet.lower else quiet.upper) }
{
    let is_lower = match side {
        Side::Lower => entry.is_positive(),
        Side::Upper => !entry.is_positive(),
    };
    if is_lower { quiet.lower } else { quiet.upper }
}

/// Whether the row implies a better bound for the column of that entry. Most that are not better are told by the sides that are quiet.
fn is_tight_at(sums: &RowSums, sides: &Sides, quiet: QuietSides, place: usize, side: Side) -> bool
    requires place { place < length sums.now }
    requires quiet { AreQuiet sides.now sums.now (span_at sums.now place) quiet }
    ensures { result ≡ is_tight_by sides.now sums.now (span_at sums.now place) side }
{
    let span = span_of(sums, place);
    if is_quiet(quiet, &span.value, side) {
        return false;
    }
    is_tight(sums, sides, place, side)
}

/// Of the two bounds of a column, those for which a row implies better ones.
#[derive(Clone, Copy)]
struct Better {
    lower: bool,
    upper: bool,
}

/// Those of the column of that entry.
fn better_at(sums: &RowSums, sides: &Sides, place: usize) -> Better
    requires { place < length sums.now }
    ensures lower { result.lower ≡ is_tight_by sides.now sums.now (span_at sums.now place) side_of.Lower }
    ensures upper { result.upper ≡ is_tight_by sides.now sums.now (span_at sums.now place) side_of.Upper }
{
    let quiet = sums.quiet_sides(place, &sides.lower, &sides.upper);
    if quiet.lower && quiet.upper {
        return Better {
            lower: false,
            upper: false,
        };
    }
    Better {
        lower: is_tight_at(sums, sides, quiet, place, Side::Lower),
        upper: is_tight_at(sums, sides, quiet, place, Side::Upper),
    }
}

/// Where the bounds begin that are left: a column whose upper bound was found beside the lower one, and the place of the next entry.
#[derive(Drop)]
struct Cursor {
    upper: Option<u32>,
    place: usize,
}

/// The first bound at the entry at a place. Where both are found there, the upper one is kept.
fn first_at(
    sums: &RowSums,
    sides: &Sides,
    place: usize,
    upper: &mut Option<u32>,
) -> Option<(u32, Side)>
    requires place { place < length sums.now }
    requires none_kept { upper.old ≡ None }
    ensures some { IfSome result (λ bound. found_at sides.now sums.now (span_at sums.now place) ≡ bound ∷ kept_upper upper.new) }
    ensures none { IfNone result ((found_at sides.now sums.now (span_at sums.now place) ≡ []) × (upper.new ≡ None)) }
{
    let better = better_at(sums, sides, place);
    let column = span_of(sums, place).id;
    if !better.lower {
        return if better.upper {
            Some((column, Side::Upper))
        } else {
            None
        };
    }
    if better.upper {
        *upper = Some(column);
    }
    Some((column, Side::Lower))
}

/// The next bound of those that are left at a cursor.
fn next_at(sums: &RowSums, sides: &Sides, cursor: &mut Cursor) -> Option<(u32, Side)>
    ensures some { IfSome result (λ bound. left_of sides.now sums.now cursor.old ≡ bound ∷ left_of sides.now sums.now cursor.new) }
    ensures none { IfNone result ((left_of sides.now sums.now cursor.old ≡ []) × (left_of sides.now sums.now cursor.new ≡ [])) }
{
    if let Some(column) = cursor.upper.take() {
        return Some((column, Side::Upper));
    }
    while cursor.place < sums.spans().len() {
        let place = cursor.place;
        cursor.place = place + 1;
        let found = first_at(sums, sides, place, &mut cursor.upper);
        if found.is_some() {
            return found;
        }
    }
    None
}

/// The bounds of the columns of a row that can be tightened by it and are left, each with its column: in the order of the row's entries, the
/// lower one first. The row is summed once, and an entry is looked at when its turn comes.
#[derive(Drop)]
pub struct TightenedBounds {
    sums: RowSums,
    sides: Sides,
    cursor: Cursor,
}

impl Model for TightenedBounds {
    ghost use Rattle.std.specs.Prelude.{ℕ, List};
    ghost use Rattle.undo_records.specs.declared.side.Side.{Side};
    ghost use Rattle.activity_rules.specs.Tightened.{left_of};

    ghost Value = { List (ℕ × Side) };

    ghost view = { λ b. left_of b.sides b.sums b.cursor };
}

impl TightenedBounds {
    /// All of a row of which nothing is crossed, and which has two entries or more.
    ///
    /// # Errors
    /// Memory ran out.
    pub fn of_row(alloc: Global, problem: &Problem, row: u32) -> Result<TightenedBounds, AllocError>
        requires { row_is_looked_at problem.now row ≡ true }
        ensures { IfOk result (λ bounds. bounds ≡ filter (λ x. enabled problem.now row x.0 x.1) (bounds_of (row_entries problem.now row))) }
    {
        problem.is_sparse();
        let sides = problem.sides(row);
        Ok(TightenedBounds {
            sums: RowSums::of_row(alloc, problem, row)?,
            sides,
            cursor: Cursor {
                upper: None,
                place: 0,
            },
        })
    }

    /// The first of them, which then isn't left. None where none is left.
    pub fn next(&mut self) -> Option<(u32, Side)>
        ensures some { IfSome result (λ bound. self.old ≡ bound ∷ self.new) }
        ensures none { IfNone result ((self.old ≡ []) × (self.new ≡ [])) }
    {
        next_at(&self.sums, &self.sides, &mut self.cursor)
    }
}

/// Whether a row may tighten a bound: nothing of it is crossed, it has two entries or more, and its infinite ends leave a finite rest. Takes no
/// memory.
pub fn may_be_tightened(problem: &Problem, row: u32) -> bool
    ensures looked { result ≡ true → row_is_looked_at problem.now row ≡ true }
    ensures none { result ≡ false → filter (λ x. enabled problem.now row x.0 x.1) (bounds_of (row_entries problem.now row)) ≡ [] }
{
    problem.is_sparse();
    is_looked_at(problem, row) && may_tighten(problem, row)
}

/// Adds all bounds of the columns of a row that can be tightened by it, in the order of its entries, the lower one first. The row is summed
/// once, and not at all where its infinite ends alone say that it has none.
///
/// # Errors
/// Memory ran out.
pub fn add_tightened(
    alloc: Global,
    problem: &Problem,
    row: u32,
    found: &mut Vec<(u32, Side)>,
) -> Result<(), AllocError>
    ensures { OnOk result (found.new.items ≡ found.old.items ++ filter (λ x. enabled problem.now row x.0 x.1) (bounds_of (row_entries problem.now row))) }
{
    if !may_be_tightened(problem, row) {
        return Ok(());
    }
    let mut bounds = TightenedBounds::of_row(alloc, problem, row)?;
    while let Some(bound) = bounds.next() {
        found.push(bound)?;
    }
    Ok(())
}
