//! K11: a column that another one without an upper bound dominates is fixed at its lower bound.

ghost use Rattle.std.specs.Prelude.{◌≡◌, ◌++◌, ◌&&◌, ◌||◌, not, nat_eq, true, false, ℕ, length, map, is_none, IfOk, OnOk};
ghost use Rattle.std.specs.List.{All, filter};
ghost use Rattle.lp_model.specs.Sparse.{Ascends, has};
ghost use Rattle.problem_model.specs.declared.part.Part.TheVariants as part;
ghost use Rattle.problem_model.specs.Matrices.{live_only};
ghost use Rattle.problem_model.specs.Parts.{contents_of};
ghost use Rattle.problem_model.specs.Problems.{bounds_at, column_at, column_entries, row_at, row_entries};
ghost use Rattle.rule_words.specs.Answers.{Changes};
ghost use Rattle.rule_words.specs.Reading.{terms_in};
ghost use Rattle.dual_laws.specs.DominatedColumn.{enabled, edits, pairs_of, record_of, rows_of_both, Computes};
ghost use Rattle.dual_rules.specs.Footprints.{AreFootprints};
ghost use Rattle.dual_rules.specs.Merging.{all_admit};
ghost use Rattle.dual_rules.specs.Pairs.{IsStanding, Tells, are_live, dominates, entries_of, is_better, is_endless, is_short, may_stay, pair_if, pairs_among, pairs_beside};

use crate::both_columns::{add_sides_besides, add_sides_of, rows_admit, takes_over};
use crate::directions::{entries, entries_if_live};
use crate::footprints::{Footprint, Footprints, footprints_admit};
use fractions::frac::Frac;
use lp_model::ends::{apart, place};
use lp_model::{Term, has_id};
use problem_model::{Edit, Part, Refusal, Sides};
use rule_words::Change;
use sparse_problem::Problem;
use std::alloc::{AllocError, Global};
use undo_records::{DominatedColumn, Undo};

/// The most entries of a row of which pairs are looked at.
const MOST_ENTRIES: usize = 64;

/// Whether a column may stay at its lower bound beside one without an upper bound that has this cost: it has a lower bound below its upper
/// one, whole if it is, costs no less, and is whole if the other one is.
fn may_stay(problem: &Problem, cost: &Frac, whole: bool, column: u32) -> bool
    requires { (column_at problem.now column).live ≡ true }
    ensures { result ≡ may_stay problem.now cost.now whole column }
{
    let bounds = problem.bounds(column);
    !bounds.semi
        && apart(&bounds.lower, &bounds.upper)
        && place(&bounds.lower, bounds.whole)
        && cost.le(&problem.cost(column))
        && (!whole || bounds.whole)
}

/// Whether a column is to be looked at beside another: they differ, it has no upper bound and costs no more; and the other one has a
/// lower bound below its upper one, whole if it is, and is whole if the first is.
fn is_better(problem: &Problem, column: u32, other: u32) -> bool
    requires column { (column_at problem.now column).live ≡ true }
    requires other { (column_at problem.now other).live ≡ true }
    ensures { result ≡ is_better problem.now column other }
{
    let bounds = problem.bounds(column);
    column != other
        && !bounds.semi
        && bounds.upper.is_none()
        && may_stay(problem, &problem.cost(column), bounds.whole, other)
}

/// Whether each row of two columns isn't crossed, and takes the first for the second.
fn rows_take_over(problem: &Problem, column: u32, other: u32) -> bool
    requires column { (column_at problem.now column).live ≡ true }
    requires other { (column_at problem.now other).live ≡ true }
    ensures { result ≡ all_admit problem.now (column_entries problem.now column) (column_entries problem.now other) }
{
    problem.is_sparse();
    rows_admit(problem, entries(problem, column), entries(problem, other))
}

/// The entries of a row, those in deleted columns among them.
fn entries_of_row(problem: &Problem, row: u32) -> &[Term]
    requires { (row_at problem.now row).live ≡ true }
    ensures { result.now ≡ (row_at problem.now row).entries }
{
    problem.row_line(row).entries.as_slice()
}

/// Whether a row has an entry in a live column.
fn is_in_row(problem: &Problem, row: u32, column: u32) -> bool
    requires row { (row_at problem.now row).live ≡ true }
    requires column { (column_at problem.now column).live ≡ true }
    ensures { result ≡ has column (row_entries problem.now row) }
{
    has_id(entries_of_row(problem, row), column)
}

/// Whether a row and two columns are live.
fn all_live(problem: &Problem, row: u32, column: u32, other: u32) -> bool
    ensures { result ≡ are_live problem.now row column other }
{
    problem.is_row_live(row) && problem.is_column_live(column) && problem.is_column_live(other)
}

/// Whether a column without an upper bound can stand in for another one that shares a row of at most 64 entries with it.
#[tactic(auto, using(crate::proofs::Pairs::enabled_is))]
pub fn is_enabled(problem: &Problem, row: u32, column: u32, other: u32) -> bool
    ensures { result ≡ enabled problem.now row column other }
{
    if !all_live(problem, row, column, other) {
        return false;
    }
    problem.live_row_entries(row) <= MOST_ENTRIES
        && is_better(problem, column, other)
        && is_in_row(problem, row, column)
        && is_in_row(problem, row, other)
        && rows_take_over(problem, column, other)
}

/// The change: the other column stays at its lower bound.
pub fn change(
    alloc: Global,
    problem: &Problem,
    row: u32,
    column: u32,
    other: u32,
) -> Result<Change, Refusal>
    requires { enabled problem.now row column other ≡ true }
    ensures { Changes (Computes problem.now other) (edits problem.now other) (record_of row column other) result }
{
    let lower = problem.bounds(other).lower;
    let mut edits = Vec::with_capacity(alloc, 1)?;
    edits
        .push(Edit::SetBounds {
            column: other,
            lower,
            upper: lower,
        })
        .map_err(AllocError::from)?;
    Ok(Change {
        edits,
        undo: Undo::DominatedColumn(DominatedColumn {
            row,
            better: column,
            column: other,
        }),
    })
}

/// Adds the parts that are read beside the row, the columns and their bounds: the sides of the rows of a column, and then those of the
/// rows of another one that are not among them.
///
/// # Errors
/// Memory ran out.
pub fn add_sides(
    problem: &Problem,
    column: u32,
    other: u32,
    parts: &mut Vec<Part>,
) -> Result<(), AllocError>
    ensures { OnOk result (parts.new.items ≡ parts.old.items ++ map part.Sides (rows_of_both (terms_in (contents_of problem.now (part.Col column))) (terms_in (contents_of problem.now (part.Col other))))) }
{
    let first = entries_if_live(problem, column);
    let second = entries_if_live(problem, other);
    add_sides_of(problem, first, parts)?;
    add_sides_besides(problem, first, second, parts)?;
    Ok(())
}

/// A column of a row: its entry there, and what is asked of it whichever column it is looked at beside.
#[derive(Clone, Copy)]
struct Standing {
    entry: Term,
    cost: Frac,
    whole: bool,
    /// Whether it has no upper bound and isn't semi-continuous, so that it may stand in for others.
    endless: bool,
    /// Whether it may stay at its lower bound: that is below the upper one, and whole if the column is; and it isn't semi-continuous.
    placed: bool,
    /// What it asks and offers in all its rows, unless these are many.
    footprint: Option<Footprint>,
}

/// What is asked of a column by itself.
fn standing_of(problem: &Problem, entry: &Term, footprints: &mut Footprints) -> Standing
    requires column { (column_at problem.now entry.now.id).live ≡ true }
    requires kept { AreFootprints problem.now footprints.old }
    ensures standing { IsStanding problem.now result }
    ensures entry { result.entry ≡ entry.now }
    ensures kept { AreFootprints problem.now footprints.new }
{
    let bounds = problem.bounds(entry.id);
    Standing {
        entry: *entry,
        cost: problem.cost(entry.id),
        whole: bounds.whole,
        endless: !bounds.semi && bounds.upper.is_none(),
        placed: !bounds.semi
            && apart(&bounds.lower, &bounds.upper)
            && place(&bounds.lower, bounds.whole),
        footprint: footprints.of(problem, entry.id),
    }
}

/// The same of each live column that terms name, once: so a pair of them is tested by what is in hand.
fn standings(
    alloc: Global,
    problem: &Problem,
    terms: &[Term],
    footprints: &mut Footprints,
) -> Result<Vec<Standing>, AllocError>
    requires { AreFootprints problem.now footprints.old }
    ensures standing { IfOk result (λ found. All (IsStanding problem.now) found.items) }
    ensures entries { IfOk result (λ found. entries_of found.items ≡ live_only problem.now.matrix.columns terms.now) }
    ensures kept { AreFootprints problem.now footprints.new }
{
    let mut found = Vec::with_capacity(alloc, terms.len())?;
    let mut rest = terms;
    while let [term, after @ ..] = rest {
        if problem.is_column_live(term.id) {
            found.push(standing_of(problem, term, footprints))?;
        }
        rest = after;
    }
    Ok(found)
}

/// Whether a column may dominate another one, by what is asked of each whichever the other is: they differ, the second may stay at its lower
/// bound, and is whole if the first is.
fn may_dominate(better: &Standing, other: &Standing) -> bool
    ensures { result ≡ (other.now.placed && (not (nat_eq better.now.entry.id other.now.entry.id) && (not better.now.whole || other.now.whole))) }
{
    other.placed && better.entry.id != other.entry.id && (!better.whole || other.whole)
}

/// Whether a column without an upper bound dominates another one of its row. What is known of both is tested first, and of their entries
/// by the row's sides, and last all rows of both columns.
fn dominates(problem: &Problem, sides: &Sides, better: &Standing, other: &Standing) -> bool
    requires better { IsStanding problem.now better.now }
    requires endless { better.now.endless ≡ true }
    requires other { IsStanding problem.now other.now }
    requires row { Tells problem.now sides.now better.now.entry other.now.entry }
    ensures { result ≡ dominates problem.now better.now.entry.id other.now.entry.id }
{
    problem.is_sparse();
    if !footprints_admit(&better.footprint, &other.footprint) {
        return false;
    }
    may_dominate(better, other)
        && takes_over(sides, &better.entry.value, &other.entry.value)
        && better.cost.le(&other.cost)
        && rows_take_over(problem, better.entry.id, other.entry.id)
}

/// Adds a pair of columns of a row if the first dominates the second.
fn add_pair(
    problem: &Problem,
    sides: &Sides,
    better: &Standing,
    other: &Standing,
    pairs: &mut Vec<(u32, u32)>,
) -> Result<(), AllocError>
    requires better { IsStanding problem.now better.now }
    requires endless { better.now.endless ≡ true }
    requires other { IsStanding problem.now other.now }
    requires row { Tells problem.now sides.now better.now.entry other.now.entry }
    ensures { OnOk result (pairs.new.items ≡ pairs.old.items ++ pair_if (dominates problem.now better.now.entry.id other.now.entry.id) better.now.entry.id other.now.entry.id) }
{
    if dominates(problem, sides, better, other) {
        pairs.push((better.entry.id, other.entry.id))?;
    }
    Ok(())
}

/// Adds the pairs of a column with those columns of a row with these sides that it dominates: none if it has an upper bound.
fn add_pairs_of(
    problem: &Problem,
    sides: &Sides,
    better: &Standing,
    others: &[Standing],
    pairs: &mut Vec<(u32, u32)>,
) -> Result<(), AllocError>
    requires better { IsStanding problem.now better.now }
    requires others { All (IsStanding problem.now) others.now }
    requires row { All (λ u. Tells problem.now sides.now better.now.entry u.entry) others.now }
    ensures { OnOk result (pairs.new.items ≡ pairs.old.items ++ pairs_beside problem.now better.now.entry.id (entries_of others.now)) }
{
    if !better.endless {
        return Ok(());
    }
    for other in others {
        add_pair(problem, sides, better, other, pairs)?;
    }
    Ok(())
}

/// Adds the pairs of the columns of a row with these sides of which the first dominates the second.
fn add_pairs(
    problem: &Problem,
    sides: &Sides,
    columns: &[Standing],
    pairs: &mut Vec<(u32, u32)>,
) -> Result<(), AllocError>
    requires columns { All (IsStanding problem.now) columns.now }
    requires row { All (λ t. All (λ u. Tells problem.now sides.now t.entry u.entry) columns.now) columns.now }
    ensures { OnOk result (pairs.new.items ≡ pairs.old.items ++ pairs_among problem.now (entries_of columns.now) (entries_of columns.now)) }
{
    for column in columns {
        add_pairs_of(problem, sides, column, columns, pairs)?;
    }
    Ok(())
}

/// Whether a row is live, and has at most 64 entries.
fn is_short(problem: &Problem, row: u32) -> bool
    ensures { result ≡ is_short problem.now row }
{
    problem.is_row_live(row) && problem.live_row_entries(row) <= MOST_ENTRIES
}

/// Whether a column is live and has no upper bound.
fn is_endless(problem: &Problem, column: u32) -> bool
    ensures { result ≡ is_endless problem.now column }
{
    problem.is_column_live(column) && problem.bounds(column).upper.is_none()
}

/// Whether one of the live columns that terms name has no upper bound.
fn some_endless(problem: &Problem, terms: &[Term]) -> bool
    ensures { result ≡ false → All (λ t. is_none (bounds_at problem.now t.id).upper ≡ false) (live_only problem.now.matrix.columns terms.now) }
{
    for term in terms {
        if is_endless(problem, term.id) {
            return true;
        }
    }
    false
}

/// All pairs of columns of a row of which the first can stand in for the second, in the order of the row's entries. None are looked at in
/// a row of more than 64 entries, or where each column has an upper bound. Footprints that are kept are not made again.
///
/// # Errors
/// Memory ran out.
pub fn pairs_at(
    alloc: Global,
    problem: &Problem,
    row: u32,
    footprints: &mut Footprints,
) -> Result<Vec<(u32, u32)>, AllocError>
    requires { AreFootprints problem.now footprints.old }
    ensures found { IfOk result (λ found. found.items ≡ filter (λ x. enabled problem.now row x.0 x.1) (pairs_of (row_entries problem.now row))) }
    ensures kept { AreFootprints problem.now footprints.new }
{
    let mut found = Vec::new(alloc);
    if !is_short(problem, row) {
        return Ok(found);
    }
    let terms = entries_of_row(problem, row);
    if !some_endless(problem, terms) {
        return Ok(found);
    }
    problem.is_sparse();
    let sides = problem.sides(row);
    let columns = standings(alloc, problem, terms, footprints)?;
    add_pairs(problem, &sides, columns.as_slice(), &mut found)?;
    Ok(found)
}
