//! How often each rule was applied, refused and left over.

ghost use Rattle.std.specs.Prelude.{◌≡◌, ◌++◌, ◌∷◌, [], length, map, not, IfOk};
ghost use Rattle.std.specs.List.{filter};
ghost use Rattle.presolve_model.specs.declared.instance.Instance.TheVariants as at;
ghost use Rattle.presolve_model.specs.Instances.{rule_at};
ghost use Rattle.presolve_model.specs.Ledger.{Ledger};
ghost use Rattle.place_laws.specs.Marks.{is_refusal};
ghost use Rattle.run_report.specs.Holding.{AreHeld};
ghost use Rattle.presolve_rounds.specs.Running.{EndsWith};
ghost use Rattle.run_report.specs.Counts.{AddsUp, applied_in, closing, count_of, counts_of, left_in, refused_in, rule_count};
ghost use Rattle.run_report.specs.Rules.{all_rules, is_same};

use crate::look::{Held, Run};
use crate::rules::{all_rules, place_of};
use presolve_model::{End, Instance, Outcome, Reduction, Rule, Verdict};
use presolve_rounds::rule_table::rule_of;
use presolve_rounds::txn_book::Ended;
use std::alloc::{AllocError, Global};

/// How often a rule was applied, how many instances of it are refused at the end of the run, and how many are left that were not looked at.
#[derive(Clone, Copy)]
pub struct RuleCount {
    pub rule: Rule,
    pub applied: u64,
    pub refused: u64,
    pub left: u64,
}

/// A run that has ended, and how often each rule was applied, refused and left over in it.
#[derive(Drop)]
pub struct Account {
    /// What the run's book left.
    pub ended: Ended,
    /// How the run ended. None where a verdict was applied.
    pub end: Option<End>,
    /// The open reductions that are enabled at the end, in instance order, each with why it was not applied.
    pub held: Vec<Held>,
    /// Of each rule.
    pub counts: Vec<RuleCount>,
}

/// Whether an instance is one of a rule.
fn is_of(rule: Rule, instance: Instance) -> bool
    ensures { result ≡ is_same rule (rule_at instance) }
{
    place_of(rule) == place_of(rule_of(instance))
}

/// How many of these are instances of a rule.
fn count_of(rule: Rule, instances: &[Instance]) -> u64
    ensures { result ≡ count_of rule instances.now }
{
    instances.iter().filter(|e| is_of(rule, **e)).count() as u64
}

/// Whether an answer refuses for a number.
pub fn is_refusal(answer: Outcome) -> bool
    ensures { result ≡ is_refusal answer }
{
    match answer {
        Outcome::Past | Outcome::NotDecimal => true,
        Outcome::Closed { .. }
        | Outcome::Full
        | Outcome::Stale { .. }
        | Outcome::Applied { .. }
        | Outcome::NoMemory => false,
    }
}

/// The instances that were applied.
fn applied_in(
    alloc: Global,
    history: &[Reduction],
    verdict: Option<Verdict>,
) -> Result<Vec<Instance>, AllocError>
    ensures { IfOk result (λ found. found.items ≡ map at.Reduction history.now ++ closing verdict) }
{
    let mut found = Vec::new(alloc);
    let mut rest = history;
    while let [reduction, after @ ..] = rest {
        found.push(Instance::Reduction(*reduction))?;
        rest = after;
    }
    if let Some(verdict) = verdict {
        found.push(Instance::Verdict(verdict))?;
    }
    Ok(found)
}

/// Those that were refused for a number.
fn refused_in(alloc: Global, held: &[Held]) -> Result<Vec<Instance>, AllocError>
    ensures { IfOk result (λ found. found.items ≡ refused_in held.now) }
{
    let mut found = Vec::new(alloc);
    let mut rest = held;
    while let [one, after @ ..] = rest {
        if is_refusal(one.answer) {
            found.push(one.instance)?;
        }
        rest = after;
    }
    Ok(found)
}

/// Those that were left over.
fn left_in(alloc: Global, held: &[Held]) -> Result<Vec<Instance>, AllocError>
    ensures { IfOk result (λ found. found.items ≡ left_in held.now) }
{
    let mut found = Vec::new(alloc);
    let mut rest = held;
    while let [one, after @ ..] = rest {
        if !is_refusal(one.answer) {
            found.push(one.instance)?;
        }
        rest = after;
    }
    Ok(found)
}

/// What is counted of each of these rules.
fn each_count(
    alloc: Global,
    applied: &[Instance],
    refused: &[Instance],
    left: &[Instance],
    rules: &[Rule],
) -> Result<Vec<RuleCount>, AllocError>
    ensures { IfOk result (λ counts. counts.items ≡ map (rule_count applied.now refused.now left.now) rules.now) }
{
    let mut counts = Vec::new(alloc);
    let mut rest = rules;
    while let [rule, after @ ..] = rest {
        counts.push(RuleCount {
            rule: *rule,
            applied: count_of(*rule, applied),
            refused: count_of(*rule, refused),
            left: count_of(*rule, left),
        })?;
        rest = after;
    }
    Ok(counts)
}

/// Counts what a run applied, refused and left over, by rule, and closes its book.
///
/// # Errors
/// Memory ran out.
pub fn count_up(alloc: Global, run: Run) -> Result<Account, AllocError>
    requires end { EndsWith run.end run.book }
    requires held { AreHeld run.book run.held.items }
    ensures problem { IfOk result (λ told. told.ended.problem ≡ run.book.problem) }
    ensures history { IfOk result (λ told. told.ended.history.items ≡ run.book.history) }
    ensures verdict { IfOk result (λ told. told.ended.verdict ≡ run.book.verdict) }
    ensures records { IfOk result (λ told. told.ended.records.items ≡ run.book.records) }
    ensures end { IfOk result (λ told. told.end ≡ run.end) }
    ensures held { IfOk result (λ told. told.held.items ≡ run.held.items) }
    ensures counts { IfOk result (λ told. told.counts.items ≡ counts_of run.book run.held.items) }
    ensures adds_up { IfOk result (λ told. AddsUp run.book run.end told.counts.items) }
{
    run.book.stands();
    let ended = run.book.close();
    let applied = applied_in(alloc, ended.history.as_slice(), ended.verdict)?;
    let refused = refused_in(alloc, run.held.as_slice())?;
    let left = left_in(alloc, run.held.as_slice())?;
    let rules = all_rules(alloc)?;
    let counts = each_count(
        alloc,
        applied.as_slice(),
        refused.as_slice(),
        left.as_slice(),
        rules.as_slice(),
    )?;
    Ok(Account {
        ended,
        end: run.end,
        held: run.held,
        counts,
    })
}
