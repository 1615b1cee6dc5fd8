//! The entries of the column that is kept, in the rows of the one that goes.

ghost use Rattle.std.specs.Prelude.{◌≡◌, ◌↔◌, ◌++◌, ◌∷◌, ◌≤◌, [], ⊤, true, ℕ, length, map, All, IfOk, IsOk, OnOk, IsErrOf};
ghost use Rattle.fractions.specs.Number.{◌-ℚ◌, ◌*ℚ◌};
ghost use Rattle.lp_model.specs.Sparse.{Ascends, dense};
ghost use Rattle.undo_records.specs.Fitting.{LessProductFits};
ghost use Rattle.problem_model.specs.Problems.{column_at, column_entries, row_at};
ghost use Rattle.problem_model.specs.declared.edit.Edit.TheVariants as edit;
ghost use Rattle.problem_model.specs.declared.refusal.Refusal.TheVariants as Refusal;
ghost use Rattle.rule_words.specs.Answers.{Answers};
ghost use Rattle.aggregation_laws.specs.DoubletonEquation.{entry_less};
ghost use Rattle.aggregation_rules.specs.Parts.{EntryFits};

use crate::new_numbers::less_product;
use fractions::frac::Frac;
use lp_model::Term;
use problem_model::{Edit, Refusal};
use sparse_problem::Problem;
use std::alloc::{AllocError, Global};

/// The terms from an id on, of terms by ascending id.
fn from_id(terms: &[Term], id: u32) -> &[Term]
    ensures same { (m : ℕ) → id ≤ m → dense result.now m ≡ dense terms.now m }
    ensures ascends { (n : ℕ) → Ascends 0 n terms.now → Ascends id n result.now }
{
    let mut rest = terms;
    while let [term, after @ ..] = rest {
        if term.id >= id {
            return rest;
        }
        rest = after;
    }
    rest
}

/// The number at an id, of terms by ascending id from there on.
fn first_at(terms: &[Term], id: u32) -> Frac
    ensures { (n : ℕ) → Ascends id n terms.now → result ≡ dense terms.now id }
{
    match terms {
        [] => Frac::zero(),
        [term, ..] => {
            if term.id == id {
                term.value
            } else {
                Frac::zero()
            }
        }
    }
}

/// The entries of a column, those in deleted rows among them.
fn entries_of_column(problem: &Problem, column: u32) -> &[Term]
    requires { (column_at problem.now column).live ≡ true }
    ensures { result.now ≡ (column_at problem.now column).entries }
{
    problem.column_line(column).entries.as_slice()
}

/// Adds the kept column's entry in a term's row, where it was `before`.
fn add(
    all: &mut Vec<Edit>,
    other: u32,
    before: &Frac,
    term: &Term,
    factor: &Frac,
) -> Result<(), Refusal>
    ensures made { OnOk result (all.new.items ≡ all.old.items ++ edit.SetEntry term.now.id other (before.now -ℚ term.now.value *ℚ factor.now) ∷ []) }
    ensures fits { OnOk result (LessProductFits before.now term.now.value factor.now) }
    ensures past { IsErrOf result Refusal.Past → LessProductFits before.now term.now.value factor.now → ⊥ }
    ensures written { IsErrOf result Refusal.NotDecimal → ⊥ }
{
    let value = less_product(before, &term.value, factor)?;
    let entry = Edit::SetEntry {
        row: term.id,
        column: other,
        value,
    };
    all.push(entry).map_err(AllocError::from)?;
    Ok(())
}

/// The kept column's entries in the rows of terms by ascending id, by one walk along its own.
///
/// # Errors
/// Past where one of their numbers is.
pub fn new_entries(
    alloc: Global,
    problem: &Problem,
    other: u32,
    terms: &[Term],
    factor: &Frac,
) -> Result<Vec<Edit>, Refusal>
    requires column { (column_at problem.now other).live ≡ true }
    requires rows { All (λ t. (row_at problem.now t.id).live ≡ true) terms.now }
    requires ascends { Ascends 0 (length problem.now.matrix.rows) terms.now }
    ensures { Answers (All (EntryFits problem.now other factor.now) terms.now) ⊤ (λ all. all.items ≡ map (entry_less problem.now other factor.now) terms.now) result }
{
    problem.is_sparse();
    let mut all = Vec::with_capacity(alloc, terms.len())?;
    let mut rest = entries_of_column(problem, other);
    for term in terms {
        rest = from_id(rest, term.id);
        let before = first_at(rest, term.id);
        if let Err(refusal) = add(&mut all, other, &before, term, factor) {
            return Err(refusal);
        }
    }
    Ok(all)
}
