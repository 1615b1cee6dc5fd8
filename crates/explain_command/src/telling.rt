//! The text that tells of a run.

ghost use Rattle.std.specs.Prelude.{◌≡◌, ◌<◌, ◌^◌, ◌++◌, length, IfOk, OnOk};
ghost use Rattle.std.specs.List.{flat_map};
ghost use Rattle.lp_model.specs.Writable.{EntriesAscend, Writable};
ghost use Rattle.problem_model.specs.Sparse.{Sparse};
ghost use Rattle.run_report.specs.Reasons.{Adds};
ghost use Rattle.run_report.specs.Story.{IsReplayed, story_text};
ghost use Rattle.explain_command.specs.Telling.{end_line, heading, IsAskedColumn, IsAskedRow, IsColumnNamed, IsColumnStory, IsHeldText, IsReport, IsRowNamed, IsRowStory, is_used, IsWholeText, missing, more_line, most_named, named_story, or_none, round_line, rules_text, sizes_text, verdict_text};

use crate::words::Words;
use lp_model::{ColumnDef, Program, RowDef};
use presolve_model::{End, Instance, Options, Verdict};
use run_report::counts::{Account, RuleCount};
use run_report::lines::{push_held, push_instance, push_rule, push_size};
use run_report::look::Held;
use run_report::named::Subject;
use run_report::sizes::{RoundSize, Size, SizeLog, size_at_start, size_of};
use run_report::story::push_story;
use sparse_problem::Problem;
use std::alloc::{AllocError, Global};

/// How many that are refused or left are told by their names where not all are asked for.
const MOST_NAMED: usize = 20;

/// Whether something of a rule was applied, refused or left.
fn is_used(count: &RuleCount) -> bool
    ensures { result ≡ is_used count.now }
{
    count.applied > 0 || count.refused > 0 || count.left > 0
}

/// Adds the lines of the rules of which something was applied, refused or left.
fn push_rules(alloc: Global, text: &mut Vec<u8>, counts: &[RuleCount]) -> Result<(), AllocError>
    ensures { OnOk result (text.new.items ≡ text.old.items ++ rules_text counts.now) }
{
    let mut rest = counts;
    while let [count, after @ ..] = rest {
        if is_used(count) {
            push_rule(alloc, text, *count)?;
        }
        rest = after;
    }
    Ok(())
}

/// Adds the line of a size after a round.
fn push_round(alloc: Global, text: &mut Vec<u8>, one: RoundSize) -> Result<(), AllocError>
    ensures { OnOk result (text.new.items ≡ text.old.items ++ round_line one) }
{
    let round = one.round;
    let what = format!(in alloc; "round {round}")?;
    push_size(alloc, text, what.as_str(), one.size)
}

/// Adds the lines of the sizes after rounds.
fn push_rounds(alloc: Global, text: &mut Vec<u8>, sizes: &[RoundSize]) -> Result<(), AllocError>
    ensures { OnOk result (text.new.items ≡ text.old.items ++ flat_map round_line sizes.now) }
{
    let mut rest = sizes;
    while let [one, after @ ..] = rest {
        push_round(alloc, text, *one)?;
        rest = after;
    }
    Ok(())
}

/// Adds the lines of the sizes, from the start to the end.
fn push_sizes(
    alloc: Global,
    text: &mut Vec<u8>,
    start: Size,
    sizes: &[RoundSize],
    end: Size,
) -> Result<(), AllocError>
    ensures { OnOk result (text.new.items ≡ text.old.items ++ sizes_text start sizes.now end) }
{
    push_size(alloc, text, "start", start)?;
    push_rounds(alloc, text, sizes)?;
    push_size(alloc, text, "end", end)
}

/// Adds how many more there are.
fn push_more(alloc: Global, text: &mut Vec<u8>, more: usize) -> Result<(), AllocError>
    ensures { OnOk result (text.new.items ≡ text.old.items ++ more_line more) }
{
    let line = format!(in alloc; "and {more} more\n")?;
    text.extend_from_slice(line.as_bytes())
}

/// Adds what is refused or left, by names, up to so many.
fn push_some_held(
    alloc: Global,
    text: &mut Vec<u8>,
    program: &Program,
    problem: &Problem,
    held: &[Held],
    most: usize,
) -> Result<(), AllocError>
    ensures { OnOk result (Adds (IsHeldText program.now problem.now most held.now) text.old.items text.new.items) }
{
    let mut rest = held;
    let mut room = most;
    while let [one, after @ ..] = rest {
        if room == 0 {
            return push_more(alloc, text, rest.len());
        }
        push_held(alloc, text, program, problem, *one)?;
        room -= 1;
        rest = after;
    }
    Ok(())
}

/// Adds the verdict behind a space, if there is one.
fn push_verdict(
    text: &mut Vec<u8>,
    program: &Program,
    verdict: Option<Verdict>,
) -> Result<(), AllocError>
    ensures { OnOk result (text.new.items ≡ text.old.items ++ verdict_text program.now verdict) }
{
    let Some(verdict) = verdict else {
        return Ok(());
    };
    text.push(b' ')?;
    push_instance(text, program, Instance::Verdict(verdict))
}

/// Adds how the run ended.
fn push_end(
    text: &mut Vec<u8>,
    program: &Program,
    end: Option<End>,
    verdict: Option<Verdict>,
) -> Result<(), AllocError>
    ensures { OnOk result (text.new.items ≡ text.old.items ++ end_line program.now end verdict) }
{
    match end {
        Some(End::Fixpoint { .. }) => text.extend_from_slice("end fixpoint\n".as_bytes()),
        Some(End::LimitReached) => text.extend_from_slice("end limit\n".as_bytes()),
        None => {
            text.extend_from_slice("end verdict".as_bytes())?;
            push_verdict(text, program, verdict)?;
            text.push(b'\n')?;
            Ok(())
        }
    }
}

/// The column of a name, if there is one.
fn column_named(columns: &[ColumnDef], name: &str) -> Option<Subject>
    requires few { length columns.now < 2 ^ 32 }
    ensures { IsColumnNamed columns.now name.now result }
{
    for (id, column) in columns.iter().enumerate() {
        if column.name.as_bytes() == name.as_bytes() {
            return Some(Subject::Column(id as u32));
        }
    }
    None
}

/// The row of a name, if there is one.
fn row_named(rows: &[RowDef], name: &str) -> Option<Subject>
    requires few { length rows.now < 2 ^ 32 }
    ensures { IsRowNamed rows.now name.now result }
{
    for (id, row) in rows.iter().enumerate() {
        if row.name.as_bytes() == name.as_bytes() {
            return Some(Subject::Row(id as u32));
        }
    }
    None
}

/// Adds what happened to a row or a column, or that nothing did.
fn push_events(
    alloc: Global,
    text: &mut Vec<u8>,
    program: &Program,
    options: &Options,
    told: &Account,
    subject: Subject,
) -> Result<(), AllocError>
    requires few { (length program.now.rows < 2 ^ 32) × (length program.now.columns < 2 ^ 32) }
    requires ascends { EntriesAscend program.now }
    requires writable { Writable options.now.numbers program.now }
    ensures { OnOk result ((start : Sparse) → IsReplayed options.now program.now told.now.ended.history.items start → text.new.items ≡ text.old.items ++ or_none (story_text program.now start told.now.ended.history.items told.now.ended.records.items subject)) }
{
    let before = text.len();
    let history = told.ended.history.as_slice();
    let records = told.ended.records.as_slice();
    push_story(alloc, text, program, options, history, records, subject)?;
    if text.len() > before {
        return Ok(());
    }
    text.extend_from_slice("no reduction names or changes it\n".as_bytes())
}

/// Adds the line above what is told of a row or a column.
fn push_heading(alloc: Global, text: &mut Vec<u8>, what: &str, name: &str) -> Result<(), AllocError>
    ensures { OnOk result (text.new.items ≡ text.old.items ++ heading what.now name.now) }
{
    let line = format!(in alloc; "{what} {name}:\n")?;
    text.extend_from_slice(line.as_bytes())
}

/// Adds that there is no row or column of a name.
fn push_missing(alloc: Global, text: &mut Vec<u8>, what: &str, name: &str) -> Result<(), AllocError>
    ensures { OnOk result (text.new.items ≡ text.old.items ++ missing what.now name.now) }
{
    let line = format!(in alloc; "no {what} {name}\n")?;
    text.extend_from_slice(line.as_bytes())
}

/// Adds what happened to a row or a column; or that there is none of that name.
fn push_story_of(
    alloc: Global,
    text: &mut Vec<u8>,
    program: &Program,
    options: &Options,
    told: &Account,
    what: &str,
    name: &str,
    subject: Option<Subject>,
) -> Result<(), AllocError>
    requires few { (length program.now.rows < 2 ^ 32) × (length program.now.columns < 2 ^ 32) }
    requires ascends { EntriesAscend program.now }
    requires writable { Writable options.now.numbers program.now }
    ensures { OnOk result ((start : Sparse) → IsReplayed options.now program.now told.now.ended.history.items start → text.new.items ≡ text.old.items ++ named_story program.now start told.now.ended.history.items told.now.ended.records.items what.now name.now subject) }
{
    let Some(subject) = subject else {
        return push_missing(alloc, text, what, name);
    };
    push_heading(alloc, text, what, name)?;
    push_events(alloc, text, program, options, told, subject)
}

/// Adds what happened to the column of a name.
fn push_column_story(
    alloc: Global,
    text: &mut Vec<u8>,
    program: &Program,
    options: &Options,
    told: &Account,
    name: &str,
) -> Result<(), AllocError>
    requires few { (length program.now.rows < 2 ^ 32) × (length program.now.columns < 2 ^ 32) }
    requires ascends { EntriesAscend program.now }
    requires writable { Writable options.now.numbers program.now }
    ensures { OnOk result ((start : Sparse) → IsReplayed options.now program.now told.now.ended.history.items start → Adds (IsColumnStory program.now start told.now.ended.history.items told.now.ended.records.items name.now) text.old.items text.new.items) }
{
    let subject = column_named(program.columns(), name);
    push_story_of(alloc, text, program, options, told, "column", name, subject)
}

/// Adds what happened to the row of a name.
fn push_row_story(
    alloc: Global,
    text: &mut Vec<u8>,
    program: &Program,
    options: &Options,
    told: &Account,
    name: &str,
) -> Result<(), AllocError>
    requires few { (length program.now.rows < 2 ^ 32) × (length program.now.columns < 2 ^ 32) }
    requires ascends { EntriesAscend program.now }
    requires writable { Writable options.now.numbers program.now }
    ensures { OnOk result ((start : Sparse) → IsReplayed options.now program.now told.now.ended.history.items start → Adds (IsRowStory program.now start told.now.ended.history.items told.now.ended.records.items name.now) text.old.items text.new.items) }
{
    let subject = row_named(program.rows(), name);
    push_story_of(alloc, text, program, options, told, "row", name, subject)
}

/// Adds what happened to the column that is asked for, if one is.
fn push_asked_column(
    alloc: Global,
    text: &mut Vec<u8>,
    program: &Program,
    options: &Options,
    told: &Account,
    words: &Words<'_>,
) -> Result<(), AllocError>
    requires few { (length program.now.rows < 2 ^ 32) × (length program.now.columns < 2 ^ 32) }
    requires ascends { EntriesAscend program.now }
    requires writable { Writable options.now.numbers program.now }
    ensures { OnOk result ((start : Sparse) → IsReplayed options.now program.now told.now.ended.history.items start → Adds (IsAskedColumn program.now start told.now.ended.history.items told.now.ended.records.items words.now) text.old.items text.new.items) }
{
    match words.column {
        Some(name) => push_column_story(alloc, text, program, options, told, name),
        None => Ok(()),
    }
}

/// Adds what happened to the row that is asked for, if one is.
fn push_asked_row(
    alloc: Global,
    text: &mut Vec<u8>,
    program: &Program,
    options: &Options,
    told: &Account,
    words: &Words<'_>,
) -> Result<(), AllocError>
    requires few { (length program.now.rows < 2 ^ 32) × (length program.now.columns < 2 ^ 32) }
    requires ascends { EntriesAscend program.now }
    requires writable { Writable options.now.numbers program.now }
    ensures { OnOk result ((start : Sparse) → IsReplayed options.now program.now told.now.ended.history.items start → Adds (IsAskedRow program.now start told.now.ended.history.items told.now.ended.records.items words.now) text.old.items text.new.items) }
{
    match words.row {
        Some(name) => push_row_story(alloc, text, program, options, told, name),
        None => Ok(()),
    }
}

/// How many that are refused or left are told by their names.
fn most_named(all: bool, held: usize) -> usize
    ensures { result ≡ most_named all held }
{
    if all { held } else { MOST_NAMED }
}

/// The text that tells of a run, but for the row and the column that are asked for.
fn report(
    alloc: Global,
    program: &Program,
    all: bool,
    told: &Account,
    log: &SizeLog,
) -> Result<Vec<u8>, AllocError>
    ensures { IfOk result (λ text. IsReport program.now all log.now.sizes.items told.now text.items) }
{
    let mut text = Vec::new(alloc);
    let problem = &told.ended.problem;
    let start = size_at_start(program);
    let end = size_of(problem);
    let held = told.held.as_slice();
    push_rules(alloc, &mut text, told.counts.as_slice())?;
    push_sizes(alloc, &mut text, start, log.sizes(), end)?;
    push_some_held(
        alloc,
        &mut text,
        program,
        problem,
        held,
        most_named(all, held.len()),
    )?;
    push_end(&mut text, program, told.end, told.ended.verdict)?;
    Ok(text)
}

/// The text that tells of a run: of the run, then of the column and of the row that are asked for.
///
/// # Errors
/// Memory ran out.
pub fn tell(
    alloc: Global,
    program: &Program,
    options: &Options,
    words: &Words<'_>,
    told: &Account,
    log: &SizeLog,
) -> Result<Vec<u8>, AllocError>
    requires few { (length program.now.rows < 2 ^ 32) × (length program.now.columns < 2 ^ 32) }
    requires ascends { EntriesAscend program.now }
    requires writable { Writable options.now.numbers program.now }
    ensures { IfOk result (λ text. (start : Sparse) → IsReplayed options.now program.now told.now.ended.history.items start → IsWholeText program.now words.now start log.now.sizes.items told.now text.items) }
{
    let mut text = report(alloc, program, words.all, told, log)?;
    push_asked_column(alloc, &mut text, program, options, told, words)?;
    push_asked_row(alloc, &mut text, program, options, told, words)?;
    Ok(text)
}
