//! The rows and columns that instances name.

ghost use Rattle.std.specs.Prelude.{◌≡◌, ◌++◌, false, Some, IfOk, IfSome, OnOk};
ghost use Rattle.fractions.specs.Places.{is_decimal};
ghost use Rattle.presolve_model.specs.Tables.{edits};
ghost use Rattle.run_report.specs.Reasons.{IsOdd, IsOfEdit, IsOfRange};
ghost use Rattle.run_report.specs.Story.{is_same_subject};
ghost use Rattle.run_report.specs.Naming.{name_at, named_by, named_by_reduction, named_by_verdict, names_text, one, side_text, three, two};

use fractions::ext::Ext;
use fractions::frac::Frac;
use fractions::places::is_decimal;
use lp_model::Program;
use presolve_model::{Instance, Reduction, Verdict};
use presolve_rounds::rule_table::{change, is_enabled};
use problem_model::{Edit, Refusal};
use sparse_problem::Problem;
use std::alloc::{AllocError, Global};
use undo_records::Side;

/// A row or a column, by original id.
#[derive(Clone, Copy)]
pub enum Subject {
    Row(u32),
    Column(u32),
}

impl Subject {
    /// Whether this is the same row or column.
    pub fn is_same(self, other: Subject) -> bool
        ensures { result ≡ is_same_subject self other }
    {
        match (self, other) {
            (Subject::Row(i), Subject::Row(k)) => i == k,
            (Subject::Column(j), Subject::Column(k)) => j == k,
            _ => false,
        }
    }
}

/// Up to three rows and columns, in order.
pub type Subjects = [Option<Subject>; 3];

/// One row or column.
pub fn one(first: Subject) -> Subjects
    ensures { result ≡ one first }
{
    [Some(first), None, None]
}

/// Two.
pub fn two(first: Subject, second: Subject) -> Subjects
    ensures { result ≡ two first second }
{
    [Some(first), Some(second), None]
}

/// Three.
fn three(first: Subject, second: Subject, third: Subject) -> Subjects
    ensures { result ≡ three first second third }
{
    [Some(first), Some(second), Some(third)]
}

/// The rows and columns that a reduction names, in its order.
pub fn named_by_reduction(reduction: Reduction) -> Subjects
    ensures { result ≡ named_by_reduction reduction }
{
    match reduction {
        Reduction::EmptyRow { row }
        | Reduction::SingletonRow { row }
        | Reduction::RedundantRow { row }
        | Reduction::RedundantSide { row }
        | Reduction::ForcingRow { row } => one(Subject::Row(row)),
        Reduction::FixedColumn { column }
        | Reduction::RoundedBounds { column }
        | Reduction::DualFixing { column }
        | Reduction::EmptyColumn { column } => one(Subject::Column(column)),
        Reduction::BoundTightening { row, column, .. }
        | Reduction::CoefficientTightening { row, column } => {
            two(Subject::Row(row), Subject::Column(column))
        }
        Reduction::DominatedColumn {
            row,
            better,
            column,
        } => three(
            Subject::Row(row),
            Subject::Column(better),
            Subject::Column(column),
        ),
        Reduction::DoubletonEquation { row, column, other } => three(
            Subject::Row(row),
            Subject::Column(column),
            Subject::Column(other),
        ),
        Reduction::FreeColumnSingleton { column, row }
        | Reduction::SlackColumnSingleton { column, row } => {
            two(Subject::Column(column), Subject::Row(row))
        }
        Reduction::ParallelRows { row, other } => two(Subject::Row(row), Subject::Row(other)),
        Reduction::ParallelColumns { column, other } => {
            two(Subject::Column(column), Subject::Column(other))
        }
    }
}

/// The row or column that a verdict names.
fn named_by_verdict(verdict: Verdict) -> Subjects
    ensures { result ≡ named_by_verdict verdict }
{
    match verdict {
        Verdict::CrossedBounds { column } | Verdict::UnboundedColumn { column } => one(
            Subject::Column(column),
        ),
        Verdict::CrossedSides { row } | Verdict::InfeasibleRow { row } => one(Subject::Row(row)),
    }
}

/// The rows and columns that an instance names, in its order.
pub fn named_by(instance: Instance) -> Subjects
    ensures { result ≡ named_by instance }
{
    match instance {
        Instance::Reduction(reduction) => named_by_reduction(reduction),
        Instance::Verdict(verdict) => named_by_verdict(verdict),
    }
}

/// The side of the bound that an instance tightens, behind a space.
pub fn side_text(instance: Instance) -> &'static str
    ensures { result.now ≡ side_text instance }
{
    match instance {
        Instance::Reduction(Reduction::BoundTightening { side, .. }) => match side {
            Side::Lower => " lower",
            Side::Upper => " upper",
        },
        _ => "",
    }
}

/// Adds the name of a row or a column of a program; nothing where there is no such one.
pub fn push_name(text: &mut Vec<u8>, program: &Program, subject: Subject) -> Result<(), AllocError>
    ensures { OnOk result (text.new.items ≡ text.old.items ++ name_at program.now subject) }
{
    match subject {
        Subject::Row(row) => match program.rows().get(row as usize) {
            Some(row) => text.extend_from_slice(row.name.as_bytes()),
            None => Ok(()),
        },
        Subject::Column(column) => match program.columns().get(column as usize) {
            Some(column) => text.extend_from_slice(column.name.as_bytes()),
            None => Ok(()),
        },
    }
}

/// Adds a space and a name for each of these.
pub fn push_names(
    text: &mut Vec<u8>,
    program: &Program,
    subjects: &[Option<Subject>],
) -> Result<(), AllocError>
    ensures { OnOk result (text.new.items ≡ text.old.items ++ names_text program.now subjects.now) }
{
    let mut rest = subjects;
    while let [one, after @ ..] = rest {
        if let Some(subject) = one {
            text.push(b' ')?;
            push_name(text, program, *subject)?;
        }
        rest = after;
    }
    Ok(())
}

/// A number that is no decimal number.
fn odd(number: Frac) -> Option<Frac>
    ensures { IfSome result (λ q. (q ≡ number) × (is_decimal q ≡ false)) }
{
    if is_decimal(&number) {
        None
    } else {
        Some(number)
    }
}

/// The number of an end that is no decimal number.
fn odd_end(end: &Ext) -> Option<Frac>
    ensures { IfSome result (λ q. (end.now ≡ Some q) × (is_decimal q ≡ false)) }
{
    match end.number() {
        Some(number) => odd(number),
        None => None,
    }
}

/// The first end, or the width, that is no decimal number.
fn odd_range(lower: &Ext, upper: &Ext) -> Option<Frac>
    ensures { IfSome result (λ q. IsOfRange lower.now upper.now q × (is_decimal q ≡ false)) }
{
    if let Some(number) = odd_end(lower) {
        return Some(number);
    }
    if let Some(number) = odd_end(upper) {
        return Some(number);
    }
    match (lower.number(), upper.number()) {
        (Some(least), Some(greatest)) => match greatest.sub(&least) {
            Ok(width) => odd(width),
            Err(_) => None,
        },
        _ => None,
    }
}

/// The first number of an edit that is no decimal number.
fn odd_in(edit: &Edit) -> Option<Frac>
    ensures { IfSome result (λ q. IsOfEdit edit.now q × (is_decimal q ≡ false)) }
{
    match edit {
        Edit::SetSides { lower, upper, .. } | Edit::SetBounds { lower, upper, .. } => {
            odd_range(lower, upper)
        }
        Edit::SetCost { cost, .. } => odd(*cost),
        Edit::SetEntry { value, .. } => odd(*value),
        Edit::DeleteRow { .. } | Edit::DeleteColumn { .. } | Edit::AddOffset { .. } => None,
    }
}

/// The first number of edits that is no decimal number.
fn odd_among(edits: &[Edit]) -> Option<Frac>
    ensures { IfSome result (IsOdd edits.now) }
{
    let mut rest = edits;
    while let [edit, after @ ..] = rest {
        if let Some(number) = odd_in(edit) {
            return Some(number);
        }
        rest = after;
    }
    None
}

/// The first number that a reduction would make and that is no decimal number.
///
/// # Errors
/// Memory ran out.
pub fn odd_number(
    alloc: Global,
    problem: &Problem,
    reduction: Reduction,
) -> Result<Option<Frac>, AllocError>
    ensures { IfOk result (λ found. IfSome found (IsOdd (edits reduction problem.now))) }
{
    if !is_enabled(problem, Instance::Reduction(reduction)) {
        return Ok(None);
    }
    match change(alloc, problem, reduction) {
        Ok(change) => Ok(odd_among(change.edits.as_slice())),
        Err(Refusal::NoMemory) => Err(AllocError),
        Err(_) => Ok(None),
    }
}
