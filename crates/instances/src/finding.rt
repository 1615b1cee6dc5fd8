//! The enabled instances of a rule with a first id: a line a rule.

ghost use Rattle.std.specs.Prelude.{◌≡◌, ◌∷◌, ◌++◌, [], map, IfNone, IfOk, IfSome, OnOk, true};
ghost use Rattle.std.specs.List.{filter};
ghost use Rattle.problem_model.specs.Problems.{column_entries, row_entries};
ghost use Rattle.problem_model.specs.Sparse.{Sparse};
ghost use Rattle.dual_laws.specs.DominatedColumn.{pairs_of};
ghost use Rattle.dual_rules.specs.Footprints.{AreFootprints};
ghost use Rattle.presolve_model.specs.declared.instance.Instance.TheVariants as at;
ghost use Rattle.presolve_model.specs.declared.instance.Reduction.TheVariants as reduction;
ghost use Rattle.presolve_model.specs.declared.instance.Rule.TheVariants as rule;
ghost use Rattle.presolve_model.specs.Enabled.{enabled_on};
ghost use Rattle.instances.specs.Beside.{ids_beside};
ghost use Rattle.presolve_model.specs.Instances.{beside_at, both_orders, goes_by_groups, instances_from, sole_row as sole_row_of};
ghost use Rattle.line_groups.specs.Groups.{AreGroupsOf};
ghost use Rattle.presolve_model.specs.Tallies.{Open, open_on};

use crate::tally::Tally;
use line_groups::Parallels;
use lp_model::Term;
use presolve_model::{Instance, Reduction, Rule, Verdict};
use rule_table::activity_rules::tightened_bounds::add_tightened;
use rule_table::dual_rules::dominated_column::pairs_at;
use rule_table::dual_rules::footprints::Footprints;
use rule_table::is_enabled;
use sparse_problem::Problem;
use std::alloc::{AllocError, Global};
use undo_records::Side;

/// Adds an instance, if it is enabled.
fn add_one(
    problem: &Problem,
    instance: Instance,
    found: &mut Vec<Instance>,
) -> Result<(), AllocError>
    ensures { OnOk result (found.new.items ≡ found.old.items ++ filter (enabled_on problem.now) (instance ∷ [])) }
{
    if is_enabled(problem, instance) {
        found.push(instance)?;
    }
    Ok(())
}

/// Adds dominated columns of a row.
fn add_pairs(row: u32, pairs: &[(u32, u32)], found: &mut Vec<Instance>) -> Result<(), AllocError>
    ensures { OnOk result (found.new.items ≡ found.old.items ++ map (λ x. at.Reduction (reduction.DominatedColumn row x.0 x.1)) pairs.now) }
{
    let mut rest = pairs;
    while let [(better, column), after @ ..] = rest {
        found.push(Instance::Reduction(Reduction::DominatedColumn {
            row,
            better: *better,
            column: *column,
        }))?;
        rest = after;
    }
    Ok(())
}

/// Adds the enabled dominated columns of a row. Footprints of columns that are kept are not made again.
///
/// # Errors
/// Memory ran out.
pub fn add_dominated(
    alloc: Global,
    problem: &Problem,
    row: u32,
    footprints: &mut Footprints,
    found: &mut Vec<Instance>,
) -> Result<(), AllocError>
    requires { AreFootprints problem.now footprints.old }
    ensures found { OnOk result (found.new.items ≡ found.old.items ++ filter (enabled_on problem.now) (map (λ x. at.Reduction (reduction.DominatedColumn row x.0 x.1)) (pairs_of (row_entries problem.now row)))) }
    ensures kept { AreFootprints problem.now footprints.new }
{
    let pairs = pairs_at(alloc, problem, row, footprints)?;
    add_pairs(row, pairs.as_slice(), found)?;
    Ok(())
}

/// The same where no footprints are kept.
fn add_dominated_once(
    alloc: Global,
    problem: &Problem,
    row: u32,
    found: &mut Vec<Instance>,
) -> Result<(), AllocError>
    ensures { OnOk result (found.new.items ≡ found.old.items ++ filter (enabled_on problem.now) (map (λ x. at.Reduction (reduction.DominatedColumn row x.0 x.1)) (pairs_of (row_entries problem.now row)))) }
{
    let mut footprints = Footprints::new(alloc, 0)?;
    add_dominated(alloc, problem, row, &mut footprints, found)
}

/// Adds those of some bounds that may be tightened.
fn add_bounds(
    tally: &Tally,
    row: u32,
    bounds: &[(u32, Side)],
    found: &mut Vec<Instance>,
) -> Result<(), AllocError>
    ensures { OnOk result (found.new.items ≡ found.old.items ++ map (λ x. at.Reduction (reduction.BoundTightening row x.0 x.1)) (filter (λ x. open_on tally.now x.0 x.1) bounds.now)) }
{
    let mut rest = bounds;
    while let [(column, side), after @ ..] = rest {
        if tally.is_open(*column, *side) {
            found.push(Instance::Reduction(Reduction::BoundTightening {
                row,
                column: *column,
                side: *side,
            }))?;
        }
        rest = after;
    }
    Ok(())
}

/// Adds the bounds that a row tightens, and that may be.
fn add_open(
    alloc: Global,
    problem: &Problem,
    tally: &Tally,
    row: u32,
    found: &mut Vec<Instance>,
) -> Result<(), AllocError>
    ensures { OnOk result (found.new.items ≡ found.old.items ++ filter (enabled_on problem.now) (instances_from (open_on tally.now) problem.now rule.BoundTightening row)) }
{
    let mut bounds = Vec::new(alloc);
    add_tightened(alloc, problem, row, &mut bounds)?;
    add_bounds(tally, row, bounds.as_slice(), found)
}

/// Adds the coefficients of a row in some columns.
fn add_coefficients(row: u32, columns: &[u32], found: &mut Vec<Instance>) -> Result<(), AllocError>
    ensures { OnOk result (found.new.items ≡ found.old.items ++ map (λ j. at.Reduction (reduction.CoefficientTightening row j)) columns.now) }
{
    let mut rest = columns;
    while let [column, after @ ..] = rest {
        found.push(Instance::Reduction(Reduction::CoefficientTightening {
            row,
            column: *column,
        }))?;
        rest = after;
    }
    Ok(())
}

/// Adds the coefficients of a row that can be tightened.
fn add_shrinking(
    alloc: Global,
    problem: &Problem,
    row: u32,
    found: &mut Vec<Instance>,
) -> Result<(), AllocError>
    ensures { OnOk result (found.new.items ≡ found.old.items ++ filter (enabled_on problem.now) (map (λ j. at.Reduction (reduction.CoefficientTightening row j)) (map (λ t. t.id) (row_entries problem.now row)))) }
{
    let mut columns = Vec::new(alloc);
    rule_table::coef_rules::add_tightened(alloc, problem, row, &mut columns)?;
    add_coefficients(row, columns.as_slice(), found)
}

/// The substitution of a column by an equation of it and another one.
fn equation_of(row: u32, column: u32, other: u32) -> Instance
    ensures { result ≡ at.Reduction (reduction.DoubletonEquation row column other) }
{
    Instance::Reduction(Reduction::DoubletonEquation { row, column, other })
}

/// Adds those of the two columns of a row that can be substituted, in either order.
fn add_orders(
    problem: &Problem,
    row: u32,
    terms: &[Term],
    found: &mut Vec<Instance>,
) -> Result<(), AllocError>
    ensures { OnOk result (found.new.items ≡ found.old.items ++ filter (enabled_on problem.now) (map (λ x. at.Reduction (reduction.DoubletonEquation row x.0 x.1)) (both_orders terms.now))) }
{
    if let [first, second] = terms {
        add_one(problem, equation_of(row, first.id, second.id), found)?;
        add_one(problem, equation_of(row, second.id, first.id), found)?;
    }
    Ok(())
}

/// Adds the columns that a row of two entries can substitute.
#[tactic(auto, using(crate::proofs::Scanning::no_orders))]
fn add_substituted(
    alloc: Global,
    problem: &Problem,
    row: u32,
    found: &mut Vec<Instance>,
) -> Result<(), AllocError>
    ensures { OnOk result (found.new.items ≡ found.old.items ++ filter (enabled_on problem.now) (map (λ x. at.Reduction (reduction.DoubletonEquation row x.0 x.1)) (both_orders (row_entries problem.now row)))) }
{
    if problem.live_row_entries(row) == 2 {
        let terms = problem.row_terms(alloc, row)?;
        add_orders(problem, row, terms.as_slice(), found)?;
    }
    Ok(())
}

/// The row of the only one of some terms; none where there are more, or none.
fn only_row(terms: &[Term]) -> Option<u32>
    ensures some { IfSome result (λ row. sole_row_of terms.now ≡ row ∷ []) }
    ensures none { IfNone result (sole_row_of terms.now ≡ []) }
{
    match terms {
        [term] => Some(term.id),
        _ => None,
    }
}

/// The row of a column that has one entry.
#[tactic(auto, using(crate::proofs::Scanning::no_sole))]
fn sole_row(alloc: Global, problem: &Problem, column: u32) -> Result<Option<u32>, AllocError>
    ensures some { IfOk result (λ r. IfSome r (λ row. sole_row_of (column_entries problem.now column) ≡ row ∷ [])) }
    ensures none { IfOk result (λ r. IfNone r (sole_row_of (column_entries problem.now column) ≡ [])) }
{
    if problem.live_column_entries(column) != 1 {
        return Ok(None);
    }
    if let Some(terms) = problem.whole_column(column) {
        return Ok(only_row(terms));
    }
    let terms = problem.column_terms(alloc, column)?;
    Ok(only_row(terms.as_slice()))
}

/// Adds a column with one entry, if it can leave with its row.
fn add_free(
    alloc: Global,
    problem: &Problem,
    column: u32,
    found: &mut Vec<Instance>,
) -> Result<(), AllocError>
    ensures { OnOk result (found.new.items ≡ found.old.items ++ filter (enabled_on problem.now) (map (λ i. at.Reduction (reduction.FreeColumnSingleton column i)) (sole_row_of (column_entries problem.now column)))) }
{
    match sole_row(alloc, problem, column)? {
        Some(row) => add_one(
            problem,
            Instance::Reduction(Reduction::FreeColumnSingleton { column, row }),
            found,
        ),
        None => Ok(()),
    }
}

/// Adds a column with one entry, if it can leave as a slack of its row.
fn add_slack(
    alloc: Global,
    problem: &Problem,
    column: u32,
    found: &mut Vec<Instance>,
) -> Result<(), AllocError>
    ensures { OnOk result (found.new.items ≡ found.old.items ++ filter (enabled_on problem.now) (map (λ i. at.Reduction (reduction.SlackColumnSingleton column i)) (sole_row_of (column_entries problem.now column)))) }
{
    match sole_row(alloc, problem, column)? {
        Some(row) => add_one(
            problem,
            Instance::Reduction(Reduction::SlackColumnSingleton { column, row }),
            found,
        ),
        None => Ok(()),
    }
}

/// The instance of a rule of lines that are multiples of one another, at two lines.
pub fn instance_beside(rule: Rule, id: u32, other: u32) -> Instance
    ensures { result ≡ beside_at rule id other }
{
    match rule {
        Rule::ParallelRows => Instance::Reduction(Reduction::ParallelRows { row: id, other }),
        _ => Instance::Reduction(Reduction::ParallelColumns { column: id, other }),
    }
}

/// The lines of the group of a line, by the rule: rows, or columns.
pub fn lines_beside<'a>(groups: &'a Parallels, rule: Rule, id: u32) -> &'a [u32]
    ensures { result.now ≡ ids_beside groups.now rule id }
{
    match rule {
        Rule::ParallelRows => groups.beside_row(id),
        _ => groups.beside_column(id),
    }
}

/// Adds the enabled instances of such a rule at a line and others.
fn add_beside(
    problem: &Problem,
    rule: Rule,
    id: u32,
    others: &[u32],
    found: &mut Vec<Instance>,
) -> Result<(), AllocError>
    ensures { OnOk result (found.new.items ≡ found.old.items ++ filter (enabled_on problem.now) (map (beside_at rule id) others.now)) }
{
    let mut rest = others;
    while let [other, after @ ..] = rest {
        add_one(problem, instance_beside(rule, id, *other), found)?;
        rest = after;
    }
    Ok(())
}

/// The instance of a rule that has just one at each id.
pub fn only_instance(rule: Rule, id: u32) -> Option<Instance>
    ensures { IfSome result (λ instance. (opens : Open) (p : Sparse) → instances_from opens p rule id ≡ instance ∷ []) }
{
    match rule {
        Rule::CrossedBounds => Some(Instance::Verdict(Verdict::CrossedBounds { column: id })),
        Rule::CrossedSides => Some(Instance::Verdict(Verdict::CrossedSides { row: id })),
        Rule::InfeasibleRow => Some(Instance::Verdict(Verdict::InfeasibleRow { row: id })),
        Rule::UnboundedColumn => Some(Instance::Verdict(Verdict::UnboundedColumn { column: id })),
        Rule::EmptyRow => Some(Instance::Reduction(Reduction::EmptyRow { row: id })),
        Rule::SingletonRow => Some(Instance::Reduction(Reduction::SingletonRow { row: id })),
        Rule::FixedColumn => Some(Instance::Reduction(Reduction::FixedColumn { column: id })),
        Rule::RoundedBounds => Some(Instance::Reduction(Reduction::RoundedBounds { column: id })),
        Rule::RedundantRow => Some(Instance::Reduction(Reduction::RedundantRow { row: id })),
        Rule::RedundantSide => Some(Instance::Reduction(Reduction::RedundantSide { row: id })),
        Rule::ForcingRow => Some(Instance::Reduction(Reduction::ForcingRow { row: id })),
        Rule::DualFixing => Some(Instance::Reduction(Reduction::DualFixing { column: id })),
        Rule::EmptyColumn => Some(Instance::Reduction(Reduction::EmptyColumn { column: id })),
        Rule::BoundTightening
        | Rule::CoefficientTightening
        | Rule::DominatedColumn
        | Rule::DoubletonEquation
        | Rule::FreeColumnSingleton
        | Rule::SlackColumnSingleton
        | Rule::ParallelRows
        | Rule::ParallelColumns => None,
    }
}

/// Adds the enabled instances of a rule with a first id that are open, in their order. Of a rule of lines that are multiples of one another they
/// are found by groups, which are those of the problem.
pub fn add_enabled(
    alloc: Global,
    problem: &Problem,
    groups: &Parallels,
    tally: &Tally,
    rule: Rule,
    id: u32,
    found: &mut Vec<Instance>,
) -> Result<(), AllocError>
    requires { goes_by_groups rule ≡ true → AreGroupsOf groups.now problem.now }
    ensures { OnOk result (found.new.items ≡ found.old.items ++ filter (enabled_on problem.now) (instances_from (open_on tally.now) problem.now rule id)) }
{
    let instance = match rule {
        Rule::CrossedBounds => Instance::Verdict(Verdict::CrossedBounds { column: id }),
        Rule::CrossedSides => Instance::Verdict(Verdict::CrossedSides { row: id }),
        Rule::InfeasibleRow => Instance::Verdict(Verdict::InfeasibleRow { row: id }),
        Rule::UnboundedColumn => Instance::Verdict(Verdict::UnboundedColumn { column: id }),
        Rule::EmptyRow => Instance::Reduction(Reduction::EmptyRow { row: id }),
        Rule::SingletonRow => Instance::Reduction(Reduction::SingletonRow { row: id }),
        Rule::FixedColumn => Instance::Reduction(Reduction::FixedColumn { column: id }),
        Rule::RoundedBounds => Instance::Reduction(Reduction::RoundedBounds { column: id }),
        Rule::RedundantRow => Instance::Reduction(Reduction::RedundantRow { row: id }),
        Rule::RedundantSide => Instance::Reduction(Reduction::RedundantSide { row: id }),
        Rule::ForcingRow => Instance::Reduction(Reduction::ForcingRow { row: id }),
        Rule::BoundTightening => return add_open(alloc, problem, tally, id, found),
        Rule::CoefficientTightening => return add_shrinking(alloc, problem, id, found),
        Rule::DualFixing => Instance::Reduction(Reduction::DualFixing { column: id }),
        Rule::DominatedColumn => return add_dominated_once(alloc, problem, id, found),
        Rule::DoubletonEquation => return add_substituted(alloc, problem, id, found),
        Rule::FreeColumnSingleton => return add_free(alloc, problem, id, found),
        Rule::SlackColumnSingleton => return add_slack(alloc, problem, id, found),
        Rule::ParallelRows | Rule::ParallelColumns => {
            problem.is_sparse();
            return add_beside(problem, rule, id, lines_beside(groups, rule, id), found);
        }
        Rule::EmptyColumn => Instance::Reduction(Reduction::EmptyColumn { column: id }),
    };
    add_one(problem, instance, found)
}
