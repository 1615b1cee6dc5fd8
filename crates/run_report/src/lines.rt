//! Lines of text.

ghost use Rattle.std.specs.Prelude.{◌≡◌, ◌++◌, IfOk, OnOk};
ghost use Rattle.run_report.specs.Naming.{instance_text};
ghost use Rattle.run_report.specs.Lines.{rule_line, size_line};
ghost use Rattle.run_report.specs.Reasons.{Adds, IsHeldLine, IsOddOf, IsReason, odd_text};
ghost use Rattle.run_report.specs.Views.{end_text, range_text};

use crate::counts::RuleCount;
use crate::look::Held;
use crate::named::{named_by, odd_number, push_names, side_text};
use crate::rules::{code_of, name_of};
use crate::sizes::Size;
use fractions::ext::Ext;
use fractions::frac::Frac;
use lp_model::Program;
use presolve_model::{Instance, Outcome};
use presolve_rounds::rule_table::rule_of;
use sparse_problem::Problem;
use std::alloc::{AllocError, Global};

/// Adds the line of a rule.
pub fn push_rule(alloc: Global, text: &mut Vec<u8>, count: RuleCount) -> Result<(), AllocError>
    ensures { OnOk result (text.new.items ≡ text.old.items ++ rule_line count) }
{
    let code = code_of(count.rule);
    let name = name_of(count.rule);
    let applied = count.applied;
    let refused = count.refused;
    let left = count.left;
    let line = format!(in alloc;
        "{code} {name}: {applied} applied, {refused} refused, {left} left\n"
    )?;
    text.extend_from_slice(line.as_bytes())
}

/// Adds the line of a size, behind what it is the size of.
pub fn push_size(
    alloc: Global,
    text: &mut Vec<u8>,
    what: &str,
    size: Size,
) -> Result<(), AllocError>
    ensures { OnOk result (text.new.items ≡ text.old.items ++ size_line what.now size) }
{
    let rows = size.rows;
    let columns = size.columns;
    let entries = size.entries;
    let line = format!(in alloc; "{what}: {rows} rows, {columns} columns, {entries} entries\n")?;
    text.extend_from_slice(line.as_bytes())
}

/// Adds the code of an instance's rule and the names of its rows and columns.
pub fn push_instance(
    text: &mut Vec<u8>,
    program: &Program,
    instance: Instance,
) -> Result<(), AllocError>
    ensures { OnOk result (text.new.items ≡ text.old.items ++ instance_text program.now instance) }
{
    let code = code_of(rule_of(instance));
    let named = named_by(instance);
    text.extend_from_slice(code.as_bytes())?;
    push_names(text, program, &named)?;
    text.extend_from_slice(side_text(instance).as_bytes())
}

/// The number for which an instance is refused, where there is one that is no decimal number.
fn odd_of(alloc: Global, problem: &Problem, instance: Instance) -> Result<Option<Frac>, AllocError>
    ensures { IfOk result (IsOddOf instance problem.now) }
{
    match instance {
        Instance::Reduction(reduction) => odd_number(alloc, problem, reduction),
        Instance::Verdict(_) => Ok(None),
    }
}

/// Adds a number in parentheses, where there is one.
fn push_odd(text: &mut Vec<u8>, found: Option<Frac>) -> Result<(), AllocError>
    ensures { OnOk result (text.new.items ≡ text.old.items ++ odd_text found) }
{
    let Some(number) = found else {
        return Ok(());
    };
    text.extend_from_slice(" (".as_bytes())?;
    number_texts::push(text, &number)?;
    text.extend_from_slice(")".as_bytes())
}

/// Adds why an instance was not applied.
fn push_reason(
    alloc: Global,
    text: &mut Vec<u8>,
    problem: &Problem,
    instance: Instance,
    answer: Outcome,
) -> Result<(), AllocError>
    ensures { OnOk result (Adds (IsReason problem.now instance answer) text.old.items text.new.items) }
{
    match answer {
        Outcome::Past => text.extend_from_slice(": past".as_bytes()),
        Outcome::NotDecimal => {
            let found = odd_of(alloc, problem, instance)?;
            text.extend_from_slice(": not decimal".as_bytes())?;
            push_odd(text, found)
        }
        _ => text.extend_from_slice(": left".as_bytes()),
    }
}

/// Adds the line of an instance that is enabled at the end of a run.
pub fn push_held(
    alloc: Global,
    text: &mut Vec<u8>,
    program: &Program,
    problem: &Problem,
    held: Held,
) -> Result<(), AllocError>
    ensures { OnOk result (Adds (IsHeldLine program.now problem.now held) text.old.items text.new.items) }
{
    push_instance(text, program, held.instance)?;
    push_reason(alloc, text, problem, held.instance, held.answer)?;
    text.push(b'\n')?;
    Ok(())
}

/// Adds an end, or what stands for an infinite one.
fn push_end(text: &mut Vec<u8>, infinite: &str, end: &Ext) -> Result<(), AllocError>
    ensures { OnOk result (text.new.items ≡ text.old.items ++ end_text infinite.now end.now) }
{
    match end.number() {
        Some(number) => number_texts::push(text, &number),
        None => text.extend_from_slice(infinite.as_bytes()),
    }
}

/// Adds a lower and an upper end.
pub fn push_range(text: &mut Vec<u8>, lower: &Ext, upper: &Ext) -> Result<(), AllocError>
    ensures { OnOk result (text.new.items ≡ text.old.items ++ range_text lower.now upper.now) }
{
    text.extend_from_slice("[".as_bytes())?;
    push_end(text, "-inf", lower)?;
    text.extend_from_slice(", ".as_bytes())?;
    push_end(text, "inf", upper)?;
    text.extend_from_slice("]".as_bytes())
}
