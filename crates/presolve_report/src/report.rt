//! The report of a presolve.

ghost use Rattle.std.specs.Prelude.{◌≡◌, ◌++◌, IfOk, OnOk};
ghost use Rattle.presolve_report.specs.Report.{change_line, count_line, report_text, end_lines, offset_line};

use fractions::frac::Frac;
use presolve_model::End;
use std::alloc::{AllocError, Global};

/// How many there were at first, and how many are left.
#[derive(Clone, Copy)]
pub struct Change {
    pub before: u64,
    pub after: u64,
}

/// What a presolve prints.
#[derive(Clone, Copy)]
pub struct Report {
    /// The rows, but for free ones.
    pub rows: Change,
    pub columns: Change,
    /// The entries of rows; costs are no entries.
    pub entries: Change,
    /// How many reductions were applied.
    pub records: u64,
    /// The cost of an original point less the cost of its reduced point, in the sense of the file.
    pub offset: Frac,
    pub end: End,
}

fn push_change(
    alloc: Global,
    text: &mut Vec<u8>,
    what: &str,
    change: Change,
) -> Result<(), AllocError>
    ensures { OnOk result (text.new.items ≡ text.old.items ++ change_line what.now change) }
{
    let before = change.before;
    let after = change.after;
    let line = format!(in alloc; "{what} {before} -> {after}\n")?;
    text.extend_from_slice(line.as_bytes())
}

fn push_count(alloc: Global, text: &mut Vec<u8>, what: &str, count: u64) -> Result<(), AllocError>
    ensures { OnOk result (text.new.items ≡ text.old.items ++ count_line what.now count) }
{
    let line = format!(in alloc; "{what} {count}\n")?;
    text.extend_from_slice(line.as_bytes())
}

fn offset_text(alloc: Global, offset: &Frac) -> Result<Vec<u8>, AllocError>
    ensures { IfOk result (λ line. line.items ≡ offset_line offset.now) }
{
    let mut line = Vec::new(alloc);
    line.extend_from_slice(b"offset ")?;
    number_texts::push(&mut line, offset)?;
    line.push(b'\n')?;
    Ok(line)
}

fn push_end(alloc: Global, text: &mut Vec<u8>, end: End) -> Result<(), AllocError>
    ensures { OnOk result (text.new.items ≡ text.old.items ++ end_lines end) }
{
    match end {
        End::Fixpoint { skipped } => {
            let lines = format!(in alloc; "end fixpoint\nskipped {skipped}\n")?;
            text.extend_from_slice(lines.as_bytes())
        }
        End::LimitReached => text.extend_from_slice(b"end limit\n"),
    }
}

/// The printed lines.
pub fn report_of(alloc: Global, report: &Report) -> Result<Vec<u8>, AllocError>
    ensures { IfOk result (λ text. text.items ≡ report_text report.now) }
{
    let mut text = Vec::new(alloc);
    push_change(alloc, &mut text, "rows", report.rows)?;
    push_change(alloc, &mut text, "columns", report.columns)?;
    push_change(alloc, &mut text, "entries", report.entries)?;
    push_count(alloc, &mut text, "records", report.records)?;
    let offset = offset_text(alloc, &report.offset)?;
    text.extend_from_slice(&offset)?;
    push_end(alloc, &mut text, report.end)?;
    Ok(text)
}
