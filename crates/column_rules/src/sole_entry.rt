//! The one entry of a column: its cost over it is put into the other columns of the row that holds it.

ghost use Rattle.std.specs.Prelude.{◌≡◌, ◌≢◌, ◌↔◌, ◌++◌, ◌∷◌, [], ⊤, if◌then◌else◌, map, not, nat_eq, true, All, IfOk, IsOk, OnOk, IsErrOf};
ghost use Rattle.fractions.specs.Number.{zero_ℚ};
ghost use Rattle.fractions.specs.Lowest.{Fits};
ghost use Rattle.lp_model.specs.Sparse.{has, without};
ghost use Rattle.problem_model.specs.Problems.{column_at, column_entries, row_at};
ghost use Rattle.problem_model.specs.declared.refusal.Refusal.TheVariants as Refusal;
ghost use Rattle.rule_words.specs.Answers.{Answers};
ghost use Rattle.column_laws.specs.SoleEntry.{cost_less as less_cost, costs_less as costs_by, entry_of as value_of, is_sole_at as is_sole_there, others_of as others_by, price_of as price_by, CostComputes};
ghost use Rattle.column_rules.specs.SoleEntries.{IsSoleEntry};

use fractions::Past;
use fractions::frac::Frac;
use lp_model::{Term, Terms, has_id, number_at};
use problem_model::{Edit, Refusal};
use sparse_problem::Problem;
use std::alloc::{AllocError, Global};

/// The one entry of a column, the column's cost over it, and the other entries of its row.
#[derive(Drop)]
pub struct SoleEntry {
    pub value: Frac,
    pub price: Frac,
    pub others: Terms,
}

/// The entries of a column, those in deleted rows among them.
fn entries_of_column(problem: &Problem, column: u32) -> &[Term]
    requires { (column_at problem.now column).live ≡ true }
    ensures { result.now ≡ (column_at problem.now column).entries }
{
    problem.column_line(column).entries.as_slice()
}

/// Whether a column has an entry in a row.
fn is_in_column(problem: &Problem, column: u32, row: u32) -> bool
    requires row { (row_at problem.now row).live ≡ true }
    requires column { (column_at problem.now column).live ≡ true }
    ensures { result ≡ has row (column_entries problem.now column) }
{
    has_id(entries_of_column(problem, column), row)
}

/// Whether a column has one entry, and that is in this row.
#[tactic(auto, using(crate::proofs::SoleEntries::sole_is))]
pub fn is_sole_at(problem: &Problem, column: u32, row: u32) -> bool
    requires row { (row_at problem.now row).live ≡ true }
    requires column { (column_at problem.now column).live ≡ true }
    ensures { result ≡ is_sole_there row (column_entries problem.now column) }
{
    problem.live_column_entries(column) == 1 && is_in_column(problem, column, row)
}

/// Adds a term if it is in another column.
fn keep_other(items: &mut Vec<Term>, column: u32, term: Term) -> Result<(), AllocError>
    ensures { OnOk result (items.new.items ≡ items.old.items ++ (if not (nat_eq term.id column) then term ∷ [] else [])) }
{
    if term.id != column {
        items.push(term)?;
    }
    Ok(())
}

/// The terms in other columns.
fn terms_without(alloc: Global, terms: &[Term], column: u32) -> Result<Terms, AllocError>
    ensures { IfOk result (λ ts. ts ≡ without column terms.now) }
{
    let mut items = Vec::new(alloc);
    for term in terms {
        keep_other(&mut items, column, *term)?;
    }
    Ok(Terms::new(items))
}

/// The other entries of a row.
fn others_of(alloc: Global, problem: &Problem, column: u32, row: u32) -> Result<Terms, AllocError>
    ensures { IfOk result (λ ts. ts ≡ others_by problem.now column row) }
{
    let terms = problem.row_terms(alloc, row)?;
    terms_without(alloc, terms.as_slice(), column)
}

/// The entry of a column in the row that alone has one. It is read of the column, which is short.
pub fn value_at(problem: &Problem, column: u32, row: u32) -> Frac
    requires row { (row_at problem.now row).live ≡ true }
    requires column { (column_at problem.now column).live ≡ true }
    requires sole { is_sole_there row (column_entries problem.now column) ≡ true }
    ensures value { result ≡ value_of problem.now column row }
    ensures some { result ≢ zero_ℚ }
{
    problem.is_sparse();
    number_at(entries_of_column(problem, column), row as usize)
}

/// The one entry of a column, which is in this row.
///
/// # Errors
/// Past where the column's cost over it is.
pub fn sole_entry(
    alloc: Global,
    problem: &Problem,
    column: u32,
    row: u32,
) -> Result<SoleEntry, Refusal>
    requires row { (row_at problem.now row).live ≡ true }
    requires column { (column_at problem.now column).live ≡ true }
    requires sole { is_sole_there row (column_entries problem.now column) ≡ true }
    ensures { Answers (Fits (price_by problem.now column row)) ⊤ (IsSoleEntry problem.now column row) result }
{
    let value = value_at(problem, column, row);
    let price = problem.cost(column).div(&value)?;
    Ok(SoleEntry {
        value,
        price,
        others: others_of(alloc, problem, column, row)?,
    })
}

/// The cost of a term's column, less the term at a price.
fn cost_less(problem: &Problem, term: &Term, price: &Frac) -> Result<Edit, Past>
    requires { (column_at problem.now term.now.id).live ≡ true }
    ensures value { IfOk result (λ e. e ≡ less_cost problem.now price.now term.now) }
    ensures fits { IsOk result ↔ CostComputes problem.now price.now term.now }
{
    let cost = problem.cost(term.id);
    let product = price.mul(&term.value)?;
    Ok(Edit::SetCost {
        column: term.id,
        cost: cost.sub(&product)?,
    })
}

/// Adds the new cost of a term's column at the end.
fn add(all: &mut Vec<Edit>, problem: &Problem, term: &Term, price: &Frac) -> Result<(), Refusal>
    requires { (column_at problem.now term.now.id).live ≡ true }
    ensures made { OnOk result (all.new.items ≡ all.old.items ++ less_cost problem.now price.now term.now ∷ []) }
    ensures fits { OnOk result (CostComputes problem.now price.now term.now) }
    ensures past { IsErrOf result Refusal.Past → CostComputes problem.now price.now term.now → ⊥ }
    ensures written { IsErrOf result Refusal.NotDecimal → ⊥ }
{
    let cost = cost_less(problem, term, price)?;
    all.push(cost).map_err(AllocError::from)?;
    Ok(())
}

/// The new costs of the columns of these terms: the price times each leaves.
fn all_costs(
    alloc: Global,
    problem: &Problem,
    terms: &[Term],
    price: &Frac,
) -> Result<Vec<Edit>, Refusal>
    requires { All (λ t. (column_at problem.now t.id).live ≡ true) terms.now }
    ensures { Answers (All (CostComputes problem.now price.now) terms.now) ⊤ (λ all. all.items ≡ map (less_cost problem.now price.now) terms.now) result }
{
    let mut all = Vec::with_capacity(alloc, terms.len())?;
    for term in terms {
        if let Err(refusal) = add(&mut all, problem, term, price) {
            return Err(refusal);
        }
    }
    Ok(all)
}

/// The new costs of the other columns of the row that holds the one entry of a column.
///
/// # Errors
/// Past where one of their numbers is.
pub fn costs_less(
    alloc: Global,
    problem: &Problem,
    column: u32,
    row: u32,
    entry: &SoleEntry,
) -> Result<Vec<Edit>, Refusal>
    requires { IsSoleEntry problem.now column row entry.now }
    ensures { Answers (All (CostComputes problem.now (price_by problem.now column row)) (others_by problem.now column row)) ⊤ (λ all. all.items ≡ costs_by problem.now column row) result }
{
    all_costs(alloc, problem, entry.others.as_slice(), &entry.price)
}
