//! One reduction of a program, by itself.

use anyhow::{Context, Result, anyhow, ensure};
use applying::after;
use fractions::Numbers;
use fractions::ext::Ext;
use fractions::frac::Frac;
use mps_profile::dialect::{Dialect, Format};
use mps_reader::{MpsError, read_mps};
use presolve_model::{Instance, Reduction};
use problem_model::Refusal;
use rule_table::is_enabled;
use sparse_problem::Problem;
use std::alloc::Global;
use std::str;

/// A reduction by its words: its code, and its ids in the order of its record.
pub fn reduction(words: &str) -> Result<Reduction> {
    let (code, ids) = words.split_once(' ').context("a code and ids")?;
    let (first, rest) = ids.split_once(' ').context("two ids")?;
    let (second, third) = rest.split_once(' ').unwrap_or((rest, "0"));
    let first = first.parse::<u32>()?;
    let second = second.parse::<u32>()?;
    let third = third.parse::<u32>()?;
    match code {
        "K12" => Ok(Reduction::DoubletonEquation {
            row: first,
            column: second,
            other: third,
        }),
        "K13" => Ok(Reduction::FreeColumnSingleton {
            column: first,
            row: second,
        }),
        "K14" => Ok(Reduction::SlackColumnSingleton {
            column: first,
            row: second,
        }),
        "K15" => Ok(Reduction::ParallelRows {
            row: first,
            other: second,
        }),
        "K16" => Ok(Reduction::ParallelColumns {
            column: first,
            other: second,
        }),
        _ => Err(anyhow!("an unknown rule {code}")),
    }
}

/// The problem of a text.
pub fn problem_of(alloc: Global, bytes: &[u8]) -> Result<Problem> {
    ensure!(bytes.len() < 1 << 32, "a text that is too long");
    let dialect = Dialect {
        format: Format::Free,
        numbers: Numbers::Fractions,
    };
    match read_mps(alloc, bytes, dialect) {
        Ok(program) => Ok(Problem::from_program(alloc, &program)?),
        Err(MpsError::Fault(_)) => Err(anyhow!("a text with a fault")),
        Err(MpsError::NoMemory) => Err(anyhow!("no memory")),
    }
}

/// Prints a number.
pub fn number(rt: &HostRuntime, value: &Frac) -> Result<()> {
    let text = number_texts::write(rt.alloc(), value)?;
    let text = str::from_utf8(&text)?;
    print!(rt; " {text}")?;
    Ok(())
}

/// Prints an end of a range.
pub fn end(rt: &HostRuntime, end: &Ext) -> Result<()> {
    match end.number() {
        Some(value) => number(rt, &value),
        None => {
            print!(rt; " none")?;
            Ok(())
        }
    }
}

/// Prints the entries of a row.
fn entries(rt: &HostRuntime, problem: &Problem, row: u32) -> Result<()> {
    let terms = problem.row_terms(rt.alloc(), row)?;
    for term in terms.as_slice() {
        let id = term.id;
        print!(rt; " {id}:")?;
        number(rt, &term.value)?;
    }
    println!(rt; "")?;
    Ok(())
}

/// Prints the rows that are there: sides and entries.
fn rows(rt: &HostRuntime, problem: &Problem) -> Result<()> {
    for row in 0..problem.row_count() as u32 {
        if problem.is_row_live(row) {
            let sides = problem.sides(row);
            print!(rt; "row {row}")?;
            end(rt, &sides.lower)?;
            end(rt, &sides.upper)?;
            entries(rt, problem, row)?;
        }
    }
    Ok(())
}

/// Prints the columns that are there: costs, in the minimizing sense, and bounds.
fn columns(rt: &HostRuntime, problem: &Problem) -> Result<()> {
    for column in 0..problem.column_count() as u32 {
        if problem.is_column_live(column) {
            let bounds = problem.bounds(column);
            print!(rt; "column {column}")?;
            number(rt, &problem.cost(column))?;
            end(rt, &bounds.lower)?;
            end(rt, &bounds.upper)?;
            println!(rt; "")?;
        }
    }
    Ok(())
}

/// Prints a problem: what was added to the cost, rows and columns.
fn shown(rt: &HostRuntime, problem: &Problem) -> Result<()> {
    print!(rt; "offset")?;
    number(rt, &problem.offset())?;
    println!(rt; "")?;
    rows(rt, problem)?;
    columns(rt, problem)
}

/// Applies a reduction to the problem of a text, by itself, and prints what is left, or why it is not applied.
pub fn applied(rt: &HostRuntime, bytes: &[u8], reduction: Reduction) -> Result<()> {
    let alloc = rt.alloc();
    let mut problem = problem_of(alloc, bytes)?;
    if !is_enabled(&problem, Instance::Reduction(reduction)) {
        println!(rt; "not enabled")?;
        return Ok(());
    }
    let mut changed = Vec::new(alloc);
    match after(
        &mut problem,
        alloc,
        reduction,
        Numbers::Fractions,
        &mut changed,
    ) {
        Ok(_) => shown(rt, &problem),
        Err(Refusal::Past) => {
            println!(rt; "past")?;
            Ok(())
        }
        Err(Refusal::NotDecimal) => {
            println!(rt; "not decimal")?;
            Ok(())
        }
        Err(Refusal::NoMemory) => Err(anyhow!("no memory")),
    }
}
