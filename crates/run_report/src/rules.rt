//! Rules in words.

ghost use Rattle.std.specs.Prelude.{◌≡◌, IfOk};
ghost use Rattle.run_report.specs.Rules.{all_rules, code_of, name_of, place_of};

use presolve_model::Rule;
use presolve_rounds::rule_table::{reduction_rules, verdict_rules};
use std::alloc::{AllocError, Global};

/// All rules: those of the verdicts, then those of the reductions, in instance order.
///
/// # Errors
/// Memory ran out.
pub fn all_rules(alloc: Global) -> Result<Vec<Rule>, AllocError>
    ensures { IfOk result (λ rules. rules.items ≡ all_rules) }
{
    let mut rules = Vec::from_slice(alloc, &verdict_rules())?;
    rules.extend_from_slice(&reduction_rules())?;
    Ok(rules)
}

/// The place of a rule among all rules, from 0 on.
pub fn place_of(rule: Rule) -> u8
    ensures { result ≡ place_of rule }
{
    match rule {
        Rule::CrossedBounds => 0,
        Rule::CrossedSides => 1,
        Rule::InfeasibleRow => 2,
        Rule::UnboundedColumn => 3,
        Rule::EmptyRow => 4,
        Rule::SingletonRow => 5,
        Rule::FixedColumn => 6,
        Rule::RoundedBounds => 7,
        Rule::RedundantRow => 8,
        Rule::RedundantSide => 9,
        Rule::ForcingRow => 10,
        Rule::BoundTightening => 11,
        Rule::CoefficientTightening => 12,
        Rule::DualFixing => 13,
        Rule::DominatedColumn => 14,
        Rule::DoubletonEquation => 15,
        Rule::FreeColumnSingleton => 16,
        Rule::SlackColumnSingleton => 17,
        Rule::ParallelRows => 18,
        Rule::ParallelColumns => 19,
        Rule::EmptyColumn => 20,
    }
}

/// The code of a rule.
pub fn code_of(rule: Rule) -> &'static str
    ensures { result.now ≡ code_of rule }
{
    match rule {
        Rule::CrossedBounds | Rule::CrossedSides => "V1",
        Rule::InfeasibleRow => "V2",
        Rule::UnboundedColumn => "V3",
        Rule::EmptyRow => "K1",
        Rule::SingletonRow => "K2",
        Rule::FixedColumn => "K3",
        Rule::RoundedBounds => "K4",
        Rule::RedundantRow => "K5",
        Rule::RedundantSide => "K6",
        Rule::ForcingRow => "K7",
        Rule::BoundTightening => "K8",
        Rule::CoefficientTightening => "K9",
        Rule::DualFixing => "K10",
        Rule::DominatedColumn => "K11",
        Rule::DoubletonEquation => "K12",
        Rule::FreeColumnSingleton => "K13",
        Rule::SlackColumnSingleton => "K14",
        Rule::ParallelRows => "K15",
        Rule::ParallelColumns => "K16",
        Rule::EmptyColumn => "K17",
    }
}

/// The name of a rule in words.
pub fn name_of(rule: Rule) -> &'static str
    ensures { result.now ≡ name_of rule }
{
    match rule {
        Rule::CrossedBounds => "crossed bounds",
        Rule::CrossedSides => "crossed sides",
        Rule::InfeasibleRow => "infeasible row",
        Rule::UnboundedColumn => "unbounded column",
        Rule::EmptyRow => "empty row",
        Rule::SingletonRow => "singleton row",
        Rule::FixedColumn => "fixed column",
        Rule::RoundedBounds => "rounded bounds",
        Rule::RedundantRow => "redundant row",
        Rule::RedundantSide => "redundant side",
        Rule::ForcingRow => "forcing row",
        Rule::BoundTightening => "bound tightening",
        Rule::CoefficientTightening => "coefficient tightening",
        Rule::DualFixing => "dual fixing",
        Rule::DominatedColumn => "dominated column",
        Rule::DoubletonEquation => "doubleton equation",
        Rule::FreeColumnSingleton => "free column singleton",
        Rule::SlackColumnSingleton => "slack column singleton",
        Rule::ParallelRows => "parallel rows",
        Rule::ParallelColumns => "parallel columns",
        Rule::EmptyColumn => "empty column",
    }
}
