//! Sums of rows, after edits one by one.

ghost use Rattle.std.specs.Prelude.{◌≡◌, true};
ghost use Rattle.problem_model.specs.Problems.{row_at};

use crate::rule::{end, number, problem_of};
use activities::{greatest, least};
use anyhow::{Context, Result, anyhow, ensure};
use fractions::ext::Ext;
use fractions::frac::Frac;
use fractions::{Numbers, Past};
use lp_model::Term;
use sparse_problem::Problem;
use std::alloc::Global;

/// A number by its word.
fn read(word: &str) -> Result<Frac> {
    match number_texts::read(word.as_bytes(), Numbers::Fractions) {
        Ok(number) => Ok(number),
        Err(_) => Err(anyhow!("no number {word}")),
    }
}

/// An end by its word, `-` where there is none.
fn read_end(word: &str) -> Result<Ext> {
    match word {
        "-" => Ok(Ext::none()),
        _ => Ok(Ext::at(read(word)?)),
    }
}

/// An id, and two ends.
fn id_and_ends(words: &str) -> Result<(u32, Ext, Ext)> {
    let (id, ends) = words.split_once(' ').context("an id and two ends")?;
    let (lower, upper) = ends.split_once(' ').context("two ends")?;
    Ok((id.parse::<u32>()?, read_end(lower)?, read_end(upper)?))
}

/// A column gets other bounds.
fn set_bounds(problem: &mut Problem, words: &str) -> Result<()> {
    let (column, lower, upper) = id_and_ends(words)?;
    ensure!(problem.is_column_live(column), "a column that is gone");
    problem.set_bounds(column, lower, upper);
    Ok(())
}

/// A row gets other sides.
fn set_sides(problem: &mut Problem, words: &str) -> Result<()> {
    let (row, lower, upper) = id_and_ends(words)?;
    ensure!(problem.is_row_live(row), "a row that is gone");
    problem.set_sides(row, lower, upper);
    Ok(())
}

/// An entry changes.
fn set_entry(problem: &mut Problem, alloc: Global, words: &str) -> Result<()> {
    let (row, rest) = words.split_once(' ').context("a row and an entry")?;
    let (column, value) = rest.split_once(' ').context("a column and a number")?;
    let row = row.parse::<u32>()?;
    let column = column.parse::<u32>()?;
    let term = Term {
        id: row,
        value: read(value)?,
    };
    ensure!(problem.is_row_live(row), "a row that is gone");
    ensure!(problem.is_column_live(column), "a column that is gone");
    problem.set_entries(alloc, column, &[term])?;
    Ok(())
}

/// A row or a column is deleted.
fn delete(problem: &mut Problem, what: &str, id: u32) -> Result<()> {
    match what {
        "row" if problem.is_row_live(id) => problem.delete_row(id),
        "column" if problem.is_column_live(id) => problem.delete_column(id),
        _ => return Err(anyhow!("nothing to delete")),
    }
    Ok(())
}

/// One edit: `bounds J L U`, `sides I L U`, `entry I J A`, `row I` or `column J`, by ids.
fn edit(problem: &mut Problem, alloc: Global, words: &str) -> Result<()> {
    let (what, rest) = words.split_once(' ').context("an edit")?;
    match what {
        "bounds" => set_bounds(problem, rest),
        "sides" => set_sides(problem, rest),
        "entry" => set_entry(problem, alloc, rest),
        _ => delete(problem, what, rest.parse::<u32>()?),
    }
}

/// Prints an activity.
fn activity(rt: &HostRuntime, value: Result<Ext, Past>) -> Result<()> {
    match value {
        Ok(value) => end(rt, &value),
        Err(_) => {
            print!(rt; " past")?;
            Ok(())
        }
    }
}

/// Prints both activities of a row, what its sums come to over their least denominator, and whether sums are kept of it.
fn row(rt: &HostRuntime, problem: &Problem, row: u32) -> Result<()>
    requires { (row_at problem.now row).live ≡ true }
{
    print!(rt; "row {row}:")?;
    activity(rt, least(problem, row, None))?;
    activity(rt, greatest(problem, row, None))?;
    match problem.row_sums(row) {
        Some(sums) => {
            print!(rt;
                ", over {} {} and {}",
                sums.denominator, sums.least, sums.greatest
            )?;
            print!(rt;
                ", infinite {} and {}",
                sums.least_infinite, sums.greatest_infinite
            )?;
        }
        None => print!(rt; ", not tame")?,
    }
    let kept = if problem.kept_sums(row).is_some() {
        "kept"
    } else {
        "not kept"
    };
    println!(rt; ", {kept}")?;
    Ok(())
}

/// Prints the rows that are there.
fn rows(rt: &HostRuntime, problem: &Problem) -> Result<()> {
    for id in 0..problem.row_count() as u32 {
        if problem.is_row_live(id) {
            row(rt, problem, id)?;
        }
    }
    Ok(())
}

/// Makes the sums of all rows.
fn keep_all(alloc: Global, problem: &mut Problem) -> Result<()> {
    let mut ids = Vec::new(alloc);
    for id in 0..problem.row_count() as u32 {
        ids.push(id)?;
    }
    problem.keep_sums(ids.as_slice());
    Ok(())
}

/// Prints the sums of the rows of a text's problem, and again after each edit. They are made once, before the first edit.
pub fn mended(rt: &HostRuntime, bytes: &[u8], edits: &str) -> Result<()> {
    let alloc = rt.alloc();
    let mut problem = problem_of(alloc, bytes)?;
    keep_all(alloc, &mut problem)?;
    rows(rt, &problem)?;
    for words in edits.split("; ") {
        println!(rt; "{words}")?;
        edit(&mut problem, alloc, words)?;
        rows(rt, &problem)?;
    }
    Ok(())
}
