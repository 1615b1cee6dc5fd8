//! The parts that instances read: a line a rule.

ghost use Rattle.std.specs.Prelude.{◌≡◌, ◌∷◌, ◌++◌, [], IfOk, OnOk};
ghost use Rattle.std.specs.List.{Contains};
ghost use Rattle.problem_model.specs.declared.part.Part.TheVariants as part;
ghost use Rattle.rule_words.specs.Reading.{bounds_named, parts_on, sides_named};
ghost use Rattle.aggregation_laws.specs.DoubletonEquation as doubleton_equation;
ghost use Rattle.column_rules.specs.FreeColumnSingleton as free_column_singleton;
ghost use Rattle.column_rules.specs.SlackColumnSingleton as slack_column_singleton;
ghost use Rattle.dual_laws.specs.DominatedColumn as dominated_column;
ghost use Rattle.parallel_laws.specs.ParallelRows as parallel_rows;
ghost use Rattle.parallel_laws.specs.ParallelColumns as parallel_columns;
ghost use Rattle.presolve_model.specs.declared.instance.Instance.TheVariants as at;
ghost use Rattle.presolve_model.specs.Enabled.{reads};
ghost use Rattle.presolve_model.specs.Tables.{heads};

use crate::bounds::add_bounds_of_row;
use dual_rules::dominated_column::add_sides;
use dual_rules::sides::add_sides_of_column;
use presolve_model::{Instance, Reduction, Verdict};
use problem_model::Part;
use sparse_problem::Problem;
use std::alloc::{AllocError, Global};

/// A row and its sides.
fn add_row(parts: &mut Vec<Part>, row: u32) -> Result<(), AllocError>
    ensures { OnOk result (parts.new.items ≡ parts.old.items ++ part.Row row ∷ part.Sides row ∷ []) }
{
    parts.push(Part::Row(row))?;
    parts.push(Part::Sides(row))?;
    Ok(())
}

/// A column and its bounds.
fn add_column(parts: &mut Vec<Part>, column: u32) -> Result<(), AllocError>
    ensures { OnOk result (parts.new.items ≡ parts.old.items ++ part.Col column ∷ part.Bounds column ∷ []) }
{
    parts.push(Part::Col(column))?;
    parts.push(Part::Bounds(column))?;
    Ok(())
}

/// A column, its bounds, and the sides of its rows.
fn add_column_and_sides(
    problem: &Problem,
    parts: &mut Vec<Part>,
    column: u32,
) -> Result<(), AllocError>
    ensures { OnOk result (parts.new.items ≡ parts.old.items ++ parts_on (part.Col column ∷ part.Bounds column ∷ []) sides_named problem.now) }
{
    add_column(parts, column)?;
    add_sides_of_column(problem, column, parts)?;
    Ok(())
}

/// A row, its sides, and the bounds of its columns.
fn add_row_and_bounds(problem: &Problem, parts: &mut Vec<Part>, row: u32) -> Result<(), AllocError>
    ensures { OnOk result (parts.new.items ≡ parts.old.items ++ parts_on (part.Row row ∷ part.Sides row ∷ []) bounds_named problem.now) }
{
    add_row(parts, row)?;
    add_bounds_of_row(problem, row, parts)?;
    Ok(())
}

/// A row, two columns, their bounds, and the sides of the rows of both.
fn add_pair(
    problem: &Problem,
    parts: &mut Vec<Part>,
    row: u32,
    better: u32,
    column: u32,
) -> Result<(), AllocError>
    ensures { OnOk result (parts.new.items ≡ parts.old.items ++ parts_on (dominated_column.heads row better column) dominated_column.more problem.now) }
{
    parts.push(Part::Row(row))?;
    parts.push(Part::Col(better))?;
    parts.push(Part::Col(column))?;
    parts.push(Part::Bounds(better))?;
    parts.push(Part::Bounds(column))?;
    add_sides(problem, better, column, parts)?;
    Ok(())
}

/// A row, its sides, and the bounds of two columns.
fn add_equation(parts: &mut Vec<Part>, row: u32, column: u32, other: u32) -> Result<(), AllocError>
    ensures { OnOk result (parts.new.items ≡ parts.old.items ++ doubleton_equation.heads row column other) }
{
    add_row(parts, row)?;
    parts.push(Part::Bounds(column))?;
    parts.push(Part::Bounds(other))?;
    Ok(())
}

/// A row, its sides, a column, and the bounds of the row's columns.
fn add_free(
    problem: &Problem,
    parts: &mut Vec<Part>,
    column: u32,
    row: u32,
) -> Result<(), AllocError>
    ensures { OnOk result (parts.new.items ≡ parts.old.items ++ parts_on (free_column_singleton.heads column row) bounds_named problem.now) }
{
    add_row(parts, row)?;
    parts.push(Part::Col(column))?;
    add_bounds_of_row(problem, row, parts)?;
    Ok(())
}

/// A row, its sides, a column and its bounds.
fn add_slack(parts: &mut Vec<Part>, column: u32, row: u32) -> Result<(), AllocError>
    ensures { OnOk result (parts.new.items ≡ parts.old.items ++ slack_column_singleton.heads column row) }
{
    add_row(parts, row)?;
    add_column(parts, column)
}

/// Two rows.
fn add_rows(parts: &mut Vec<Part>, row: u32, other: u32) -> Result<(), AllocError>
    ensures { OnOk result (parts.new.items ≡ parts.old.items ++ parallel_rows.heads row other) }
{
    parts.push(Part::Row(row))?;
    parts.push(Part::Row(other))?;
    Ok(())
}

/// Two columns and their bounds.
fn add_columns(parts: &mut Vec<Part>, column: u32, other: u32) -> Result<(), AllocError>
    ensures { OnOk result (parts.new.items ≡ parts.old.items ++ parallel_columns.heads column other) }
{
    parts.push(Part::Col(column))?;
    parts.push(Part::Col(other))?;
    parts.push(Part::Bounds(column))?;
    parts.push(Part::Bounds(other))?;
    Ok(())
}

/// A part alone.
fn add_one(parts: &mut Vec<Part>, part: Part) -> Result<(), AllocError>
    ensures { OnOk result (parts.new.items ≡ parts.old.items ++ part ∷ []) }
{
    parts.push(part)?;
    Ok(())
}

fn add_of_reduction(
    problem: &Problem,
    parts: &mut Vec<Part>,
    reduction: Reduction,
) -> Result<(), AllocError>
    ensures { OnOk result (parts.new.items ≡ parts.old.items ++ reads problem.now (at.Reduction reduction)) }
{
    match reduction {
        Reduction::EmptyRow { row } => add_row(parts, row),
        Reduction::FixedColumn { column } | Reduction::EmptyColumn { column } => {
            add_column(parts, column)
        }
        Reduction::RoundedBounds { column } => add_one(parts, Part::Bounds(column)),
        Reduction::SingletonRow { row }
        | Reduction::RedundantRow { row }
        | Reduction::RedundantSide { row }
        | Reduction::ForcingRow { row }
        | Reduction::BoundTightening { row, .. }
        | Reduction::CoefficientTightening { row, .. } => add_row_and_bounds(problem, parts, row),
        Reduction::DualFixing { column } => add_column_and_sides(problem, parts, column),
        Reduction::DominatedColumn {
            row,
            better,
            column,
        } => add_pair(problem, parts, row, better, column),
        Reduction::DoubletonEquation { row, column, other } => {
            add_equation(parts, row, column, other)
        }
        Reduction::FreeColumnSingleton { column, row } => add_free(problem, parts, column, row),
        Reduction::SlackColumnSingleton { column, row } => add_slack(parts, column, row),
        Reduction::ParallelRows { row, other } => add_rows(parts, row, other),
        Reduction::ParallelColumns { column, other } => add_columns(parts, column, other),
    }
}

fn add_of_verdict(
    problem: &Problem,
    parts: &mut Vec<Part>,
    verdict: Verdict,
) -> Result<(), AllocError>
    ensures { OnOk result (parts.new.items ≡ parts.old.items ++ reads problem.now (at.Verdict verdict)) }
{
    match verdict {
        Verdict::CrossedBounds { column } => add_one(parts, Part::Bounds(column)),
        Verdict::CrossedSides { row } => add_one(parts, Part::Sides(row)),
        Verdict::InfeasibleRow { row } => add_row_and_bounds(problem, parts, row),
        Verdict::UnboundedColumn { column } => add_column_and_sides(problem, parts, column),
    }
}

/// The parts that an instance reads, in their order.
pub fn parts_read(
    alloc: Global,
    problem: &Problem,
    instance: Instance,
) -> Result<Vec<Part>, AllocError>
    ensures { IfOk result (λ parts. parts.items ≡ reads problem.now instance) }
{
    let mut parts = Vec::new(alloc);
    match instance {
        Instance::Reduction(reduction) => add_of_reduction(problem, &mut parts, reduction)?,
        Instance::Verdict(verdict) => add_of_verdict(problem, &mut parts, verdict)?,
    }
    Ok(parts)
}

fn head_of_reduction(reduction: Reduction) -> Part
    ensures { Contains (heads (at.Reduction reduction)) result }
{
    match reduction {
        Reduction::EmptyRow { row }
        | Reduction::SingletonRow { row }
        | Reduction::RedundantRow { row }
        | Reduction::RedundantSide { row }
        | Reduction::ForcingRow { row }
        | Reduction::BoundTightening { row, .. }
        | Reduction::CoefficientTightening { row, .. }
        | Reduction::DominatedColumn { row, .. }
        | Reduction::DoubletonEquation { row, .. }
        | Reduction::FreeColumnSingleton { row, .. }
        | Reduction::SlackColumnSingleton { row, .. }
        | Reduction::ParallelRows { row, .. } => Part::Row(row),
        Reduction::FixedColumn { column }
        | Reduction::EmptyColumn { column }
        | Reduction::DualFixing { column }
        | Reduction::ParallelColumns { column, .. } => Part::Col(column),
        Reduction::RoundedBounds { column } => Part::Bounds(column),
    }
}

fn head_of_verdict(verdict: Verdict) -> Part
    ensures { Contains (heads (at.Verdict verdict)) result }
{
    match verdict {
        Verdict::CrossedBounds { column } => Part::Bounds(column),
        Verdict::CrossedSides { row } => Part::Sides(row),
        Verdict::InfeasibleRow { row } => Part::Row(row),
        Verdict::UnboundedColumn { column } => Part::Col(column),
    }
}

/// The first of the parts that an instance reads.
pub fn head(instance: Instance) -> Part
    ensures { Contains (heads instance) result }
{
    match instance {
        Instance::Reduction(reduction) => head_of_reduction(reduction),
        Instance::Verdict(verdict) => head_of_verdict(verdict),
    }
}
