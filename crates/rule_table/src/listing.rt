//! The rules: their order, which first ids they have and how far these are from what is read, whether their refusals rest on that, which
//! share their reading, and what verdicts say. A line a rule.

ghost use Rattle.std.specs.Prelude.{◌≡◌};
ghost use Rattle.presolve_model.specs.declared.instance.Instance.TheVariants as at;
ghost use Rattle.presolve_model.specs.Instances.{goes_by_groups as by_groups, is_of_rows as of_rows, reach_of as reach, rests_on_reading as rests, rule_at, rule_of, shares_reading as shares};
ghost use Rattle.presolve_model.specs.Meanings.{says_no_point as no_point};
ghost use Rattle.presolve_model.specs.Order.{reduction_order, verdict_order};

use presolve_model::{Instance, Reach, Reduction, Rule, Verdict};

/// The rules of verdicts in order.
pub fn verdict_rules() -> [Rule; 4]
    ensures { result ≡ verdict_order }
{
    [
        Rule::CrossedBounds,
        Rule::CrossedSides,
        Rule::InfeasibleRow,
        Rule::UnboundedColumn,
    ]
}

/// The rules of reductions in order.
pub fn reduction_rules() -> [Rule; 17]
    ensures { result ≡ reduction_order }
{
    [
        Rule::EmptyRow,
        Rule::SingletonRow,
        Rule::FixedColumn,
        Rule::RoundedBounds,
        Rule::RedundantRow,
        Rule::RedundantSide,
        Rule::ForcingRow,
        Rule::BoundTightening,
        Rule::CoefficientTightening,
        Rule::DualFixing,
        Rule::DominatedColumn,
        Rule::DoubletonEquation,
        Rule::FreeColumnSingleton,
        Rule::SlackColumnSingleton,
        Rule::ParallelRows,
        Rule::ParallelColumns,
        Rule::EmptyColumn,
    ]
}

/// Where the first id of an enabled instance of a rule is, seen from a part that it reads.
pub fn reach_of(rule: Rule) -> Reach
    ensures { result ≡ reach rule }
{
    match rule {
        Rule::CrossedSides | Rule::EmptyRow => Reach::OwnRow,
        Rule::CrossedBounds | Rule::FixedColumn | Rule::RoundedBounds | Rule::EmptyColumn => {
            Reach::OwnColumn
        }
        Rule::InfeasibleRow
        | Rule::SingletonRow
        | Rule::RedundantRow
        | Rule::RedundantSide
        | Rule::ForcingRow
        | Rule::BoundTightening
        | Rule::CoefficientTightening
        | Rule::DoubletonEquation => Reach::RowsOfBounds,
        Rule::UnboundedColumn | Rule::DualFixing => Reach::ColumnsOfSides,
        Rule::DominatedColumn => Reach::RowsOfBoth,
        Rule::FreeColumnSingleton | Rule::SlackColumnSingleton => Reach::SoleColumns,
        Rule::ParallelRows => Reach::RowsBeside,
        Rule::ParallelColumns => Reach::ColumnsBeside,
    }
}

/// Whether the first ids of a rule are those of rows; else they are those of columns.
pub fn is_of_rows(rule: Rule) -> bool
    ensures { result ≡ of_rows rule }
{
    match reach_of(rule) {
        Reach::OwnRow | Reach::RowsOfBounds | Reach::RowsOfBoth | Reach::RowsBeside => true,
        Reach::OwnColumn | Reach::ColumnsOfSides | Reach::SoleColumns | Reach::ColumnsBeside => {
            false
        }
    }
}

fn rule_of_reduction(reduction: Reduction) -> Rule
    ensures { result ≡ rule_of reduction }
{
    match reduction {
        Reduction::EmptyRow { .. } => Rule::EmptyRow,
        Reduction::SingletonRow { .. } => Rule::SingletonRow,
        Reduction::FixedColumn { .. } => Rule::FixedColumn,
        Reduction::RoundedBounds { .. } => Rule::RoundedBounds,
        Reduction::RedundantRow { .. } => Rule::RedundantRow,
        Reduction::RedundantSide { .. } => Rule::RedundantSide,
        Reduction::ForcingRow { .. } => Rule::ForcingRow,
        Reduction::BoundTightening { .. } => Rule::BoundTightening,
        Reduction::CoefficientTightening { .. } => Rule::CoefficientTightening,
        Reduction::DualFixing { .. } => Rule::DualFixing,
        Reduction::DominatedColumn { .. } => Rule::DominatedColumn,
        Reduction::DoubletonEquation { .. } => Rule::DoubletonEquation,
        Reduction::FreeColumnSingleton { .. } => Rule::FreeColumnSingleton,
        Reduction::SlackColumnSingleton { .. } => Rule::SlackColumnSingleton,
        Reduction::ParallelRows { .. } => Rule::ParallelRows,
        Reduction::ParallelColumns { .. } => Rule::ParallelColumns,
        Reduction::EmptyColumn { .. } => Rule::EmptyColumn,
    }
}

fn rule_of_verdict(verdict: Verdict) -> Rule
    ensures { result ≡ rule_at (at.Verdict verdict) }
{
    match verdict {
        Verdict::CrossedBounds { .. } => Rule::CrossedBounds,
        Verdict::CrossedSides { .. } => Rule::CrossedSides,
        Verdict::InfeasibleRow { .. } => Rule::InfeasibleRow,
        Verdict::UnboundedColumn { .. } => Rule::UnboundedColumn,
    }
}

/// The rule of an instance.
pub fn rule_of(instance: Instance) -> Rule
    ensures { result ≡ rule_at instance }
{
    match instance {
        Instance::Reduction(reduction) => rule_of_reduction(reduction),
        Instance::Verdict(verdict) => rule_of_verdict(verdict),
    }
}

fn reduction_rests(reduction: Reduction) -> bool
    ensures { result ≡ rests (rule_of reduction) }
{
    match reduction {
        Reduction::RoundedBounds { .. }
        | Reduction::BoundTightening { .. }
        | Reduction::CoefficientTightening { .. } => true,
        Reduction::EmptyRow { .. }
        | Reduction::SingletonRow { .. }
        | Reduction::FixedColumn { .. }
        | Reduction::RedundantRow { .. }
        | Reduction::RedundantSide { .. }
        | Reduction::ForcingRow { .. }
        | Reduction::DualFixing { .. }
        | Reduction::DominatedColumn { .. }
        | Reduction::DoubletonEquation { .. }
        | Reduction::FreeColumnSingleton { .. }
        | Reduction::SlackColumnSingleton { .. }
        | Reduction::ParallelRows { .. }
        | Reduction::ParallelColumns { .. }
        | Reduction::EmptyColumn { .. } => false,
    }
}

fn verdict_rests(verdict: Verdict) -> bool
    ensures { result ≡ rests (rule_at (at.Verdict verdict)) }
{
    match verdict {
        Verdict::CrossedBounds { .. }
        | Verdict::CrossedSides { .. }
        | Verdict::InfeasibleRow { .. }
        | Verdict::UnboundedColumn { .. } => false,
    }
}

/// Whether a refusal of an instance, for a number that is past or can't be written, rests on what it reads alone.
pub fn rests_on_reading(instance: Instance) -> bool
    ensures { result ≡ rests (rule_at instance) }
{
    match instance {
        Instance::Reduction(reduction) => reduction_rests(reduction),
        Instance::Verdict(verdict) => verdict_rests(verdict),
    }
}

/// Whether all instances of a rule with a first id read the same parts, so that the first one that is applied leaves the others stale.
pub fn shares_reading(rule: Rule) -> bool
    ensures { result ≡ shares rule }
{
    match rule {
        Rule::BoundTightening | Rule::CoefficientTightening => true,
        Rule::CrossedBounds
        | Rule::CrossedSides
        | Rule::InfeasibleRow
        | Rule::UnboundedColumn
        | Rule::EmptyRow
        | Rule::SingletonRow
        | Rule::FixedColumn
        | Rule::RoundedBounds
        | Rule::RedundantRow
        | Rule::RedundantSide
        | Rule::ForcingRow
        | Rule::DualFixing
        | Rule::DominatedColumn
        | Rule::DoubletonEquation
        | Rule::FreeColumnSingleton
        | Rule::SlackColumnSingleton
        | Rule::ParallelRows
        | Rule::ParallelColumns
        | Rule::EmptyColumn => false,
    }
}

/// Whether the instances of a rule are lines that are multiples of one another.
pub fn goes_by_groups(rule: Rule) -> bool
    ensures { result ≡ by_groups rule }
{
    match rule {
        Rule::ParallelRows | Rule::ParallelColumns => true,
        Rule::CrossedBounds
        | Rule::CrossedSides
        | Rule::InfeasibleRow
        | Rule::UnboundedColumn
        | Rule::EmptyRow
        | Rule::SingletonRow
        | Rule::FixedColumn
        | Rule::RoundedBounds
        | Rule::RedundantRow
        | Rule::RedundantSide
        | Rule::ForcingRow
        | Rule::BoundTightening
        | Rule::CoefficientTightening
        | Rule::DualFixing
        | Rule::DominatedColumn
        | Rule::DoubletonEquation
        | Rule::FreeColumnSingleton
        | Rule::SlackColumnSingleton
        | Rule::EmptyColumn => false,
    }
}

/// Whether a verdict says that no point is feasible. Else it says that none is, or that no cost is the least.
pub fn says_no_point(verdict: Verdict) -> bool
    ensures { result ≡ no_point verdict }
{
    match verdict {
        Verdict::CrossedBounds { .. }
        | Verdict::CrossedSides { .. }
        | Verdict::InfeasibleRow { .. } => true,
        Verdict::UnboundedColumn { .. } => false,
    }
}
