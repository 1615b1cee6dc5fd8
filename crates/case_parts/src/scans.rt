//! What a scan of a problem finds.

use crate::rule::problem_of;
use anyhow::{Context, Result, ensure};
use instances::{Chunk, Proposal, Tally, Version, reading_for, scan, scan_at};
use line_groups::Parallels;
use presolve_model::Rule;
use rule_table::{is_enabled, reduction_rules, verdict_rules};
use sparse_problem::Problem;
use std::alloc::Global;
use undo_records::Side;

/// A tally in which one bound was tightened so often, by words as `0 upper 10`; or none was, by no words.
fn tally_of(alloc: Global, columns: u32, words: &str) -> Result<Tally> {
    let mut tally = Tally::new(alloc, columns)?;
    if words.is_empty() {
        return Ok(tally);
    }
    let (column, rest) = words.split_once(' ').context("a column and how often")?;
    let (side, count) = rest.split_once(' ').context("a side and how often")?;
    let column = column.parse::<u32>()?;
    let side = match side {
        "lower" => Side::Lower,
        _ => Side::Upper,
    };
    for _ in 0..count.parse::<u32>()? {
        tally.add(column, side);
    }
    Ok(tally)
}

/// Prints the instances of proposals, whose readings have to agree with the problem.
fn shown(rt: &HostRuntime, problem: &Problem, found: &[Proposal]) -> Result<()> {
    for proposal in found {
        let instance = proposal.instance();
        ensure!(is_enabled(problem, instance), "what is not enabled");
        ensure!(
            proposal.reading().agrees(problem).is_ok(),
            "another reading"
        );
        let again = reading_for(rt.alloc(), problem, instance)?;
        ensure!(again.agrees(problem).is_ok(), "another reading now");
        println!(rt; "{instance:?}")?;
    }
    Ok(())
}

/// Prints what a scan of a rule finds, by all ids at once and past the last id.
fn scanned_rule(rt: &HostRuntime, version: &Version, rule: Rule) -> Result<()> {
    let alloc = rt.alloc();
    let found = scan(alloc, version, rule, Chunk::new(0))?;
    let past = scan(alloc, version, rule, Chunk::new(1))?;
    let first = scan_at(alloc, version, rule, &[0])?;
    ensure!(past.is_empty(), "something past the last id");
    ensure!(
        first.len() <= found.len(),
        "more at the first id than in all"
    );
    shown(rt, version.problem(), &found)
}

/// Prints what is enabled on the problem of a text and open by a tally, rule by rule.
pub fn scanned(rt: &HostRuntime, bytes: &[u8], words: &str) -> Result<()> {
    let alloc = rt.alloc();
    let problem = problem_of(alloc, bytes)?;
    let tally = tally_of(alloc, problem.column_count() as u32, words)?;
    let groups = Parallels::of(alloc, &problem)?;
    let version = Version::new(problem, groups, tally, 0);
    for rule in verdict_rules() {
        scanned_rule(rt, &version, rule)?;
    }
    for rule in reduction_rules() {
        scanned_rule(rt, &version, rule)?;
    }
    Ok(())
}
