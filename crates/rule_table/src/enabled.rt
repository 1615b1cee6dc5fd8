//! Which instances are enabled, and what reductions change: a line a rule.

ghost use Rattle.std.specs.Prelude.{◌≡◌, true};
ghost use Rattle.problem_model.specs.Problems.{bounds_at};
ghost use Rattle.rule_words.specs.Answers.{Changes};
ghost use Rattle.activity_laws.specs.BoundTightening.{bound_set, new_bound};
ghost use Rattle.presolve_model.specs.Enabled.{enabled_on};
ghost use Rattle.presolve_model.specs.Tables.{edits, record_of, Computes};
ghost use Rattle.presolve_model.specs.declared.instance.Instance.TheVariants as at;
ghost use Rattle.presolve_model.specs.declared.instance.Reduction.TheVariants.{BoundTightening};

use activity_rules::{
    bound_tightening, forcing_row, infeasible_row, redundant_row, redundant_side,
};
use aggregation_rules::doubleton_equation;
use aggregation_rules::singleton_rules::{
    crossed_bounds, crossed_sides, empty_column, empty_row, fixed_column, rounded_bounds,
    singleton_row,
};
use coef_rules::coefficient_tightening;
use column_rules::{free_column_singleton, slack_column_singleton};
use dual_rules::{dominated_column, dual_fixing, unbounded_column};
use parallel_row_rules::parallel_column_rules::parallel_columns;
use parallel_row_rules::parallel_rows;
use presolve_model::{Instance, Reduction, Side, Verdict};
use problem_model::{Edit, Refusal};
use rule_words::Change;
use sparse_problem::Problem;
use std::alloc::Global;

fn is_reduction_enabled(problem: &Problem, reduction: Reduction) -> bool
    ensures { result ≡ enabled_on problem.now (at.Reduction reduction) }
{
    match reduction {
        Reduction::EmptyRow { row } => empty_row::is_enabled(problem, row),
        Reduction::SingletonRow { row } => singleton_row::is_enabled(problem, row),
        Reduction::FixedColumn { column } => fixed_column::is_enabled(problem, column),
        Reduction::RoundedBounds { column } => rounded_bounds::is_enabled(problem, column),
        Reduction::RedundantRow { row } => redundant_row::is_enabled(problem, row),
        Reduction::RedundantSide { row } => redundant_side::is_enabled(problem, row),
        Reduction::ForcingRow { row } => forcing_row::is_enabled(problem, row),
        Reduction::BoundTightening { row, column, side } => {
            bound_tightening::is_enabled(problem, row, column, side)
        }
        Reduction::CoefficientTightening { row, column } => {
            coefficient_tightening::is_enabled(problem, row, column)
        }
        Reduction::DualFixing { column } => dual_fixing::is_enabled(problem, column),
        Reduction::DominatedColumn {
            row,
            better,
            column,
        } => dominated_column::is_enabled(problem, row, better, column),
        Reduction::DoubletonEquation { row, column, other } => {
            doubleton_equation::is_enabled(problem, row, column, other)
        }
        Reduction::FreeColumnSingleton { column, row } => free_column_singleton::is_enabled(
            problem, column, row,
        ),
        Reduction::SlackColumnSingleton { column, row } => slack_column_singleton::is_enabled(
            problem, column, row,
        ),
        Reduction::ParallelRows { row, other } => parallel_rows::is_enabled(problem, row, other),
        Reduction::ParallelColumns { column, other } => {
            parallel_columns::is_enabled(problem, column, other)
        }
        Reduction::EmptyColumn { column } => empty_column::is_enabled(problem, column),
    }
}

fn is_verdict_enabled(problem: &Problem, verdict: Verdict) -> bool
    ensures { result ≡ enabled_on problem.now (at.Verdict verdict) }
{
    match verdict {
        Verdict::CrossedBounds { column } => crossed_bounds::is_enabled(problem, column),
        Verdict::CrossedSides { row } => crossed_sides::is_enabled(problem, row),
        Verdict::InfeasibleRow { row } => infeasible_row::is_enabled(problem, row),
        Verdict::UnboundedColumn { column } => unbounded_column::is_enabled(problem, column),
    }
}

/// Whether an instance is enabled. Takes no memory.
pub fn is_enabled(problem: &Problem, instance: Instance) -> bool
    ensures { result ≡ enabled_on problem.now instance }
{
    match instance {
        Instance::Reduction(reduction) => is_reduction_enabled(problem, reduction),
        Instance::Verdict(verdict) => is_verdict_enabled(problem, verdict),
    }
}

/// The change of an enabled reduction.
///
/// # Errors
/// Past where a number that it computes is.
#[tactic(auto, unfolding(presolve_model::specs::Tables::edits, presolve_model::specs::Tables::record_of, presolve_model::specs::Tables::Computes))]
pub fn change(alloc: Global, problem: &Problem, reduction: Reduction) -> Result<Change, Refusal>
    requires { enabled_on problem.now (at.Reduction reduction) ≡ true }
    ensures { Changes (Computes reduction problem.now) (edits reduction problem.now) (record_of reduction problem.now) result }
{
    match reduction {
        Reduction::EmptyRow { row } => empty_row::change(alloc, problem, row),
        Reduction::SingletonRow { row } => singleton_row::change(alloc, problem, row),
        Reduction::FixedColumn { column } => fixed_column::change(alloc, problem, column),
        Reduction::RoundedBounds { column } => rounded_bounds::change(alloc, problem, column),
        Reduction::RedundantRow { row } => redundant_row::change(alloc, problem, row),
        Reduction::RedundantSide { row } => redundant_side::change(alloc, problem, row),
        Reduction::ForcingRow { row } => forcing_row::change(alloc, problem, row),
        Reduction::BoundTightening { row, column, side } => {
            bound_tightening::change(alloc, problem, row, column, side)
        }
        Reduction::CoefficientTightening { row, column } => {
            coefficient_tightening::change(alloc, problem, row, column)
        }
        Reduction::DualFixing { column } => dual_fixing::change(alloc, problem, column),
        Reduction::DominatedColumn {
            row,
            better,
            column,
        } => dominated_column::change(alloc, problem, row, better, column),
        Reduction::DoubletonEquation { row, column, other } => {
            doubleton_equation::change(alloc, problem, row, column, other)
        }
        Reduction::FreeColumnSingleton { column, row } => free_column_singleton::change(
            alloc, problem, column, row,
        ),
        Reduction::SlackColumnSingleton { column, row } => slack_column_singleton::change(
            alloc, problem, column, row,
        ),
        Reduction::ParallelRows { row, other } => {
            parallel_rows::change(alloc, problem, row, other)
        }
        Reduction::ParallelColumns { column, other } => {
            parallel_columns::change(alloc, problem, column, other)
        }
        Reduction::EmptyColumn { column } => empty_column::change(alloc, problem, column),
    }
}

/// The change of a tightened bound by its edit, which [`bound_tightening::moved_bound`] tells.
///
/// # Errors
/// Memory ran out.
#[tactic(auto, unfolding(presolve_model::specs::Tables::edits, presolve_model::specs::Tables::record_of, presolve_model::specs::Tables::Computes))]
pub fn tightening_by(
    alloc: Global,
    problem: &Problem,
    row: u32,
    column: u32,
    side: Side,
    edit: Edit,
) -> Result<Change, Refusal>
    requires enabled { enabled_on problem.now (at.Reduction (BoundTightening row column side)) ≡ true }
    requires edit { edit ≡ bound_set side column (bounds_at problem.now column) (new_bound problem.now row column side) }
    ensures { Changes (Computes (BoundTightening row column side) problem.now) (edits (BoundTightening row column side) problem.now) (record_of (BoundTightening row column side) problem.now) result }
{
    bound_tightening::change_by(alloc, problem, row, column, side, edit)
}
