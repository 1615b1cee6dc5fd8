//! What happened to a row or a column, in words.

ghost use Rattle.std.specs.Prelude.{◌≡◌, ◌<◌, ◌≤◌, ◌^◌, ◌++◌, length, codes, IfOk, OnOk};
ghost use Rattle.fractions.specs.Ends.{same_end};
ghost use Rattle.lp_model.specs.Writable.{EntriesAscend, Writable};
ghost use Rattle.problem_model.specs.Programs.{IsProblemOf};
ghost use Rattle.problem_model.specs.Sparse.{Sparse};
ghost use Rattle.presolve_model.specs.Replay.{Replays};
ghost use Rattle.run_report.specs.Story.{concerns, event_text, is_among, own_text, Steps, story_text, told_by, told_of, value_text};
ghost use Rattle.run_report.specs.Views.{ends_word, gone, is_same_bool, is_same_view, view_of, view_text, views_text};

use crate::lines::{push_instance, push_range};
use crate::named::{Subject, Subjects, named_by_reduction, one, push_name, two};
use fractions::ext::Ext;
use lp_model::Program;
use presolve_model::{Instance, Options, Outcome, Reduction};
use presolve_rounds::opened;
use presolve_rounds::rule_table::is_enabled;
use presolve_rounds::txn_book::Book;
use sparse_problem::Problem;
use std::alloc::{AllocError, Global};
use undo_records::Undo;

/// A row's sides or a column's bounds, and whether it is there.
#[derive(Clone, Copy)]
struct View {
    live: bool,
    lower: Ext,
    upper: Ext,
}

impl View {
    /// What is not there.
    fn gone() -> View
        ensures { result ≡ gone }
    {
        View {
            live: false,
            lower: Ext::none(),
            upper: Ext::none(),
        }
    }

    /// Whether nothing differs.
    fn is_same(&self, other: &View) -> bool
        ensures { result ≡ is_same_view self.now other.now }
    {
        is_same_bool(self.live, other.live)
            && is_same_end(&self.lower, &other.lower)
            && is_same_end(&self.upper, &other.upper)
    }
}

/// Whether both hold or neither does.
fn is_same_bool(one: bool, other: bool) -> bool
    ensures { result ≡ is_same_bool one other }
{
    if one { other } else { !other }
}

/// Whether two ends are the same.
fn is_same_end(one: &Ext, other: &Ext) -> bool
    ensures { result ≡ same_end one.now other.now }
{
    one.is_same(other)
}

/// How a row or a column stands in a problem.
fn view_of(problem: &Problem, subject: Subject) -> View
    ensures { result ≡ view_of problem.now subject }
{
    match subject {
        Subject::Row(row) if problem.is_row_live(row) => {
            let sides = problem.sides(row);
            View {
                live: true,
                lower: sides.lower,
                upper: sides.upper,
            }
        }
        Subject::Column(column) if problem.is_column_live(column) => {
            let bounds = problem.bounds(column);
            View {
                live: true,
                lower: bounds.lower,
                upper: bounds.upper,
            }
        }
        Subject::Row(_) | Subject::Column(_) => View::gone(),
    }
}

/// The rows and columns of which it is told how a record left them.
fn told_by(undo: &Undo) -> Subjects
    ensures { result ≡ told_by undo.now }
{
    match undo {
        Undo::EmptyRow(undo) => one(Subject::Row(undo.row)),
        Undo::SingletonRow(undo) => one(Subject::Column(undo.column)),
        Undo::FixedColumn(undo) => one(Subject::Column(undo.column)),
        Undo::RoundedBounds(undo) => one(Subject::Column(undo.column)),
        Undo::RedundantRow(undo) => one(Subject::Row(undo.row)),
        Undo::RedundantSide(undo) => one(Subject::Row(undo.row)),
        Undo::ForcingRow(undo) => one(Subject::Row(undo.row)),
        Undo::BoundTightening(undo) => one(Subject::Column(undo.column)),
        Undo::CoefficientTightening(undo) => one(Subject::Row(undo.row)),
        Undo::DualFixing(undo) => one(Subject::Column(undo.column)),
        Undo::DominatedColumn(undo) => one(Subject::Column(undo.column)),
        Undo::DoubletonEquation(undo) => two(
            Subject::Column(undo.column),
            Subject::Column(undo.kept),
        ),
        Undo::FreeColumnSingleton(undo) => two(
            Subject::Column(undo.column),
            Subject::Row(undo.row),
        ),
        Undo::SlackColumnSingleton(undo) => two(
            Subject::Column(undo.column),
            Subject::Row(undo.row),
        ),
        Undo::ParallelRows(undo) => two(Subject::Row(undo.row), Subject::Row(undo.kept)),
        Undo::ParallelColumns(undo) => two(
            Subject::Column(undo.column),
            Subject::Column(undo.kept),
        ),
        Undo::EmptyColumn(undo) => one(Subject::Column(undo.column)),
    }
}

/// Whether a row or a column is among these.
fn is_among(subject: Subject, subjects: &[Option<Subject>]) -> bool
    ensures { result ≡ is_among subject subjects.now }
{
    let mut rest = subjects;
    while let [one, after @ ..] = rest {
        if let Some(other) = one {
            if subject.is_same(*other) {
                return true;
            }
        }
        rest = after;
    }
    false
}

/// What a row or a column has.
fn ends_word(subject: Subject) -> &'static str
    ensures { result.now ≡ ends_word subject }
{
    match subject {
        Subject::Row(_) => "sides of ",
        Subject::Column(_) => "bounds of ",
    }
}

/// Adds how a row or a column stands in a problem.
fn push_view(
    text: &mut Vec<u8>,
    program: &Program,
    problem: &Problem,
    subject: Subject,
) -> Result<(), AllocError>
    ensures { OnOk result (text.new.items ≡ text.old.items ++ view_text program.now problem.now subject) }
{
    let view = view_of(problem, subject);
    if !view.live {
        push_name(text, program, subject)?;
        return text.extend_from_slice(" goes".as_bytes());
    }
    text.extend_from_slice(ends_word(subject).as_bytes())?;
    push_name(text, program, subject)?;
    text.extend_from_slice(" become ".as_bytes())?;
    push_range(text, &view.lower, &view.upper)
}

/// Adds how these stand in a problem, with a comma between two.
fn push_views(
    text: &mut Vec<u8>,
    program: &Program,
    problem: &Problem,
    subjects: &[Option<Subject>],
) -> Result<(), AllocError>
    ensures { OnOk result (text.new.items ≡ text.old.items ++ views_text program.now problem.now (codes ": ") subjects.now) }
{
    let mut rest = subjects;
    let mut mark: &[u8] = ": ".as_bytes();
    while let [one, after @ ..] = rest {
        if let Some(subject) = one {
            text.extend_from_slice(mark)?;
            push_view(text, program, problem, *subject)?;
            mark = ", ".as_bytes();
        }
        rest = after;
    }
    Ok(())
}

/// Adds the value at which a column goes, where a record holds it.
fn push_value(text: &mut Vec<u8>, undo: &Undo) -> Result<(), AllocError>
    ensures { OnOk result (text.new.items ≡ text.old.items ++ value_text undo.now) }
{
    match undo {
        Undo::FixedColumn(fixed) => {
            text.extend_from_slice(" at ".as_bytes())?;
            number_texts::push(text, &fixed.value.get())
        }
        _ => Ok(()),
    }
}

/// Adds how a row or a column itself stands, where a reduction does not name it and it is not told of.
fn push_own(
    text: &mut Vec<u8>,
    program: &Program,
    problem: &Problem,
    reduction: Reduction,
    undo: &Undo,
    subject: Subject,
) -> Result<(), AllocError>
    ensures { OnOk result (text.new.items ≡ text.old.items ++ own_text program.now problem.now reduction undo.now subject) }
{
    if is_among(subject, &told_by(undo)) || is_among(subject, &named_by_reduction(reduction)) {
        return Ok(());
    }
    text.extend_from_slice(", ".as_bytes())?;
    push_view(text, program, problem, subject)
}

/// Adds the line of a reduction, the problem as it left it.
fn push_event(
    text: &mut Vec<u8>,
    program: &Program,
    problem: &Problem,
    reduction: Reduction,
    undo: &Undo,
    subject: Subject,
) -> Result<(), AllocError>
    ensures { OnOk result (text.new.items ≡ text.old.items ++ event_text program.now problem.now reduction undo.now subject) }
{
    push_instance(text, program, Instance::Reduction(reduction))?;
    push_views(text, program, problem, &told_by(undo))?;
    push_value(text, undo)?;
    push_own(text, program, problem, reduction, undo, subject)?;
    text.push(b'\n')?;
    Ok(())
}

/// Whether a reduction names a row or a column, or it is told how it left it, or it stands otherwise than before.
fn concerns(
    before: &View,
    problem: &Problem,
    reduction: Reduction,
    undo: &Undo,
    subject: Subject,
) -> bool
    ensures { result ≡ concerns before.now problem.now reduction undo.now subject }
{
    is_among(subject, &named_by_reduction(reduction))
        || is_among(subject, &told_by(undo))
        || !before.is_same(&view_of(problem, subject))
}

/// Adds the line of a reduction if it concerns a row or a column, which stood so before.
fn push_told(
    text: &mut Vec<u8>,
    program: &Program,
    before: &View,
    problem: &Problem,
    reduction: Reduction,
    undo: &Undo,
    subject: Subject,
) -> Result<(), AllocError>
    ensures { OnOk result (text.new.items ≡ text.old.items ++ told_of program.now before.now problem.now reduction undo.now subject) }
{
    if concerns(before, problem, reduction, undo, subject) {
        push_event(text, program, problem, reduction, undo, subject)
    } else {
        Ok(())
    }
}

/// Applies a reduction once more. Returns whether it was applied.
fn step(alloc: Global, book: &mut Book, reduction: Reduction) -> Result<bool, AllocError>
    ensures { IfOk result (λ applied. Steps book.old reduction applied book.new) }
{
    let instance = Instance::Reduction(reduction);
    if !is_enabled(book.problem(), instance) {
        return Ok(false);
    }
    let version = book.instance_count();
    match book.apply(alloc, version, instance, &mut Vec::new(alloc)) {
        Outcome::Applied { .. } => Ok(true),
        Outcome::NoMemory => Err(AllocError),
        _ => Ok(false),
    }
}

/// Adds a line for each reduction that names a row or a column, or changes its sides or bounds, with how it left it. The reductions are
/// applied once more, in their order, to the program's problem.
///
/// # Errors
/// Memory ran out.
pub fn push_story(
    alloc: Global,
    text: &mut Vec<u8>,
    program: &Program,
    options: &Options,
    history: &[Reduction],
    records: &[Undo],
    subject: Subject,
) -> Result<(), AllocError>
    requires few_rows { length program.now.rows < 2 ^ 32 }
    requires few_columns { length program.now.columns < 2 ^ 32 }
    requires ascends { EntriesAscend program.now }
    requires writable { Writable options.now.numbers program.now }
    ensures { OnOk result ((start : Sparse) → IsProblemOf program.now start → Replays options.now.numbers start history.now → length history.now ≤ options.now.limit → text.new.items ≡ text.old.items ++ story_text program.now start history.now records.now subject) }
{
    let mut book = opened(alloc, program, options)?;
    let mut left = history;
    let mut rest = records;
    while let [reduction, later @ ..] = left {
        let [undo, after @ ..] = rest else {
            return Ok(());
        };
        let before = view_of(book.problem(), subject);
        if !step(alloc, &mut book, *reduction)? {
            return Ok(());
        }
        push_told(
            text,
            program,
            &before,
            book.problem(),
            *reduction,
            undo,
            subject,
        )?;
        left = later;
        rest = after;
    }
    Ok(())
}
