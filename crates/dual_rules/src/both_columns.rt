//! The entries of two columns, walked together by ascending row. Nothing is copied: what is passed over is what stands in deleted rows.

ghost use Rattle.std.specs.Prelude.{◌≡◌, ◌++◌, true, length, OnOk};
ghost use Rattle.lp_model.specs.Sparse.{Ascends};
ghost use Rattle.problem_model.specs.declared.part.Contents.TheVariants as holding;
ghost use Rattle.problem_model.specs.declared.part.Part.TheVariants as part;
ghost use Rattle.problem_model.specs.Matrices.{live_only};
ghost use Rattle.problem_model.specs.Parts.{contents_of};
ghost use Rattle.problem_model.specs.Problems.{row_at};
ghost use Rattle.dual_laws.specs.DominatedColumn.{takes_over};
ghost use Rattle.dual_rules.specs.Merging.{admits, all_admit, first_row, is_besides, passes, past, sides_besides, sides_if, sides_named, starts, value_there};

use fractions::frac::Frac;
use lp_model::Term;
use lp_model::ends::in_order;
use problem_model::{Part, Sides};
use sparse_problem::Problem;
use std::alloc::AllocError;

/// The first row of either column.
fn first_row(entries: &[Term], others: &[Term]) -> Option<u32>
    ensures { result ≡ first_row entries.now others.now }
{
    match entries {
        [] => match others {
            [] => None,
            [other, ..] => Some(other.id),
        },
        [term, ..] => match others {
            [] => Some(term.id),
            [other, ..] => Some(if term.id <= other.id {
                term.id
            } else {
                other.id
            }),
        },
    }
}

/// Whether the first of the entries is in a row.
fn starts(entries: &[Term], row: u32) -> bool
    ensures { result ≡ starts row entries.now }
{
    match entries {
        [] => false,
        [term, ..] => term.id == row,
    }
}

/// The number of the first entry, if that is in a row; else 0.
fn value_there(entries: &[Term], row: u32) -> Frac
    ensures { result ≡ value_there row entries.now }
{
    match entries {
        [] => Frac::zero(),
        [term, ..] => {
            if term.id == row {
                term.value
            } else {
                Frac::zero()
            }
        }
    }
}

/// The entries after the first, if that is in a row; else all.
fn past(entries: &[Term], row: u32) -> &[Term]
    ensures { result.now ≡ past row entries.now }
{
    match entries {
        [] => entries,
        [term, after @ ..] => { if term.id == row { after } else { entries } }
    }
}

/// Whether a row with these sides takes a column with the one entry for one with the other. Between two sides the entries have to be the
/// same.
pub fn takes_over(sides: &Sides, better: &Frac, worse: &Frac) -> bool
    ensures { result ≡ takes_over better.now worse.now (holding.Sides sides.now.lower sides.now.upper) }
{
    if sides.lower.is_none() {
        sides.upper.is_none() || better.le(worse)
    } else if sides.upper.is_none() {
        worse.le(better)
    } else {
        better.is_same(worse)
    }
}

/// Whether a row isn't crossed, and takes a column with the one entry for one with the other.
fn row_admits(problem: &Problem, row: u32, better: &Frac, worse: &Frac) -> bool
    requires { (row_at problem.now row).live ≡ true }
    ensures { result ≡ admits better.now worse.now (contents_of problem.now (part.Sides row)) }
{
    let sides = problem.sides(row);
    takes_over(&sides, better, worse) && in_order(&sides.lower, &sides.upper)
}

/// The same, or the row isn't live.
fn row_passes(problem: &Problem, row: u32, better: &Frac, worse: &Frac) -> bool
    ensures { result ≡ passes problem.now row better.now worse.now }
{
    !problem.is_row_live(row) || row_admits(problem, row, better, worse)
}

/// Whether each live row of two columns with these entries admits the first for the second. It ends at the first row that doesn't.
pub fn rows_admit(problem: &Problem, entries: &[Term], others: &[Term]) -> bool
    requires entries { Ascends 0 (length problem.now.matrix.rows) entries.now }
    requires others { Ascends 0 (length problem.now.matrix.rows) others.now }
    ensures { result ≡ all_admit problem.now (live_only problem.now.matrix.rows entries.now) (live_only problem.now.matrix.rows others.now) }
{
    let mut rest = entries;
    let mut rest_of_others = others;
    while let Some(row) = first_row(rest, rest_of_others) {
        let better = value_there(rest, row);
        let worse = value_there(rest_of_others, row);
        if !row_passes(problem, row, &better, &worse) {
            return false;
        }
        rest = past(rest, row);
        rest_of_others = past(rest_of_others, row);
    }
    true
}

/// Adds the sides of a row, or nothing.
fn add_if(parts: &mut Vec<Part>, wanted: bool, row: u32) -> Result<(), AllocError>
    ensures { OnOk result (parts.new.items ≡ parts.old.items ++ sides_if wanted row) }
{
    if wanted {
        parts.push(Part::Sides(row))?;
    }
    Ok(())
}

/// Adds the sides of each live row of a column with these entries.
pub fn add_sides_of(
    problem: &Problem,
    entries: &[Term],
    parts: &mut Vec<Part>,
) -> Result<(), AllocError>
    ensures { OnOk result (parts.new.items ≡ parts.old.items ++ sides_named problem.now entries.now) }
{
    for term in entries {
        add_if(parts, problem.is_row_live(term.id), term.id)?;
    }
    Ok(())
}

/// Whether a row is live, and not that of the first of the entries.
fn is_besides(problem: &Problem, entries: &[Term], row: u32) -> bool
    ensures { result ≡ is_besides problem.now row entries.now }
{
    problem.is_row_live(row) && !starts(entries, row)
}

/// Adds the sides of each live row of the second of two columns with these entries, unless it is one of the first's.
pub fn add_sides_besides(
    problem: &Problem,
    entries: &[Term],
    others: &[Term],
    parts: &mut Vec<Part>,
) -> Result<(), AllocError>
    requires entries { Ascends 0 (length problem.now.matrix.rows) entries.now }
    requires others { Ascends 0 (length problem.now.matrix.rows) others.now }
    ensures { OnOk result (parts.new.items ≡ parts.old.items ++ sides_besides problem.now entries.now others.now) }
{
    let mut rest = entries;
    let mut rest_of_others = others;
    while let Some(row) = first_row(rest, rest_of_others) {
        add_if(parts, is_besides(problem, rest, row), row)?;
        rest = past(rest, row);
        rest_of_others = past(rest_of_others, row);
    }
    Ok(())
}
