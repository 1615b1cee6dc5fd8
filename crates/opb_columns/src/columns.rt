//! The columns so far.

ghost use Rattle.std.specs.Prelude.{◌≡◌, ◌<◌, ◌++◌, ◌∷◌, [], ℕ, ℤ, pos, true, List, All, None, Some, length, slice_index_or, IfOk, OnOk};
ghost use Rattle.fractions.specs.Number.{of_ℤ, one_ℚ};
ghost use Rattle.lp_model.specs.Name.{IsName};
ghost use Rattle.lp_model.specs.Names.{Differ};
ghost use Rattle.lp_model.specs.declared.terms.Term.{Term};
ghost use Rattle.mps_profile.specs.Texts.{Text, field};
ghost use Rattle.mps_profile.specs.Columns.{joined};
ghost use Rattle.mps_profile.specs.Program.{columns_below};
ghost use Rattle.mps_assembly.specs.Columnwise.{number_terms};
ghost use Rattle.names.specs.Names.{place};
ghost use Rattle.opb_text.specs.Statements as statements;
ghost use Rattle.opb_text.specs.Statements.{sum_at, terms_fit};
ghost use Rattle.opb_text.specs.Program.{binary_column};
ghost use Rattle.opb_columns.specs.Holding.{Hold, IsNumbered, IsUnsaid};

use crate::sums::Sums;
use fractions::ext::Ext;
use fractions::frac::Frac;
use fractions::whole::Whole;
use lp_model::{ColumnDef, Terms};
use mps_assembly::ColumnTables;
use mps_assembly::columns::column_definitions;
use mps_assembly::costs::set_cost;
use mps_assembly::terms::add_entry;
use names::{Named, Names};
use std::alloc::{AllocError, Global};

/// The columns that the statements have named so far, in the order in which they were first named: what the statements that ended say of them, and
/// the sums of the one that is open.
#[derive(Drop)]
pub struct Columns {
    names: Names,
    // the costs, by column
    costs: Vec<Frac>,
    // the terms in the rows so far, by column
    terms: Vec<Terms>,
    sums: Sums,
}

/// So many upper bounds that are 1.
fn ones(alloc: Global, count: usize) -> Result<Vec<Option<Ext>>, AllocError>
    ensures { IfOk result (λ uppers. (j : ℕ) → j < count → slice_index_or uppers.items j None ≡ Some (Some one_ℚ)) }
{
    let mut uppers = Vec::with_capacity(alloc, count)?;
    for _ in 0..count {
        uppers.push(Some(Ext::at(Frac::one())))?;
    }
    Ok(uppers)
}

impl Columns {
    /// No columns.
    pub fn new(alloc: Global) -> Columns
        ensures { (cost : Text → ℤ) (entries : Text → List Term) → Hold [] cost entries [] result }
    {
        Columns {
            names: Names::new(alloc),
            costs: Vec::new(alloc),
            terms: Vec::new(alloc),
            sums: Sums::new(alloc),
        }
    }

    /// Whether each step of each sum of the open statement was in range.
    pub fn sums_fit(&self) -> bool
        ensures { (names : List Text) (cost : Text → ℤ) (entries : Text → List Term) (summed : List statements.Term) → Hold names cost entries summed self.now → result ≡ terms_fit summed }
    {
        self.sums.fits
    }

    /// The number of the column with a name, which comes in where it is new.
    fn number_of(&mut self, alloc: Global, name: &[u8]) -> Result<usize, AllocError>
        ensures { (names : List Text) (cost : Text → ℤ) (entries : Text → List Term) (summed : List statements.Term) → Hold names cost entries summed self.old
            → (place name.now names ≡ None → IsUnsaid name.now cost entries summed)
            → IfOk result (λ column. IsNumbered names cost entries summed name.now column self.new) }
    {
        match self.names.insert(alloc, name)? {
            Named::Known(column) => Ok(column),
            Named::Fresh(column) => {
                self.costs.push(Frac::zero())?;
                self.terms.push(Terms::empty(alloc))?;
                self.sums.grow()?;
                Ok(column)
            }
        }
    }

    /// Takes a term of the open statement: the column's name, and the number that it adds to the column's coefficient.
    ///
    /// # Errors
    /// Where there is no memory.
    pub fn take(&mut self, alloc: Global, name: &[u8], value: Whole) -> Result<(), AllocError>
        ensures { (names : List Text) (cost : Text → ℤ) (entries : Text → List Term) (summed : List statements.Term) → Hold names cost entries summed self.old
            → (place name.now names ≡ None → IsUnsaid name.now cost entries summed) → Differ (joined name.now names)
            → OnOk result (Hold (joined name.now names) cost entries (record { name = name.now; value = value } ∷ summed) self.new) }
    {
        let column = self.number_of(alloc, name)?;
        self.sums.add(column, value)?;
        Ok(())
    }

    /// Ends `min:`, whose sums become the costs. Until then all costs are 0.
    pub fn end_costs(&mut self)
        ensures { (names : List Text) (entries : Text → List Term) (summed : List statements.Term) → Hold names (λ name. pos 0) entries summed self.old → terms_fit summed ≡ true
            → Hold names (λ name. sum_at name summed) entries [] self.new }
    {
        while let Some(entry) = self.sums.take() {
            if !entry.value.is_zero() {
                set_cost(&mut self.costs, entry);
            }
        }
    }

    /// Ends a constraint, whose sums that are not 0 become terms in the row with this id.
    ///
    /// # Errors
    /// Where there is no memory.
    pub fn end_row(&mut self, alloc: Global, id: u32) -> Result<(), AllocError>
        ensures { (names : List Text) (cost : Text → ℤ) (entries : Text → List Term) (summed : List statements.Term) → Hold names cost entries summed self.old → terms_fit summed ≡ true
            → OnOk result (Hold names cost (λ name. entries name ++ number_terms id (of_ℤ (sum_at name summed))) [] self.new) }
    {
        while let Some(entry) = self.sums.take() {
            add_entry(&mut self.terms, alloc, id, entry)?;
        }
        Ok(())
    }

    /// The columns as those of a program: whole, from 0 to 1.
    ///
    /// # Errors
    /// Where there is no memory.
    pub fn into_definitions(self, alloc: Global) -> Result<Vec<ColumnDef>, AllocError>
        requires { All IsName self.names }
        ensures { (names : List Text) (cost : Text → ℤ) (entries : Text → List Term) (summed : List statements.Term) → Hold names cost entries summed self
            → IfOk result (λ found. found.items ≡ columns_below (λ j. binary_column (field names j) (cost (field names j)) (entries (field names j))) (length names)) }
    {
        let terms = self.terms;
        let count = self.names.len();
        let uppers = ones(alloc, count)?;
        let wholes = vec![in alloc; true; count]?;
        let columns = ColumnTables {
            names: &self.names,
            lowers: &[],
            uppers: uppers.as_slice(),
            wholes: wholes.as_slice(),
            semis: &[],
            semi_uppers: &[],
        };
        column_definitions(alloc, &columns, self.costs.as_slice(), terms)
    }
}
