//! The weights that the lines of a ray give to names.

ghost use Rattle.std.specs.Prelude.{◌≡◌, ◌<◌, length, map, List, [], IfOk};
ghost use Rattle.fractions.specs.declared.Numbers.TheVariants.{Fractions};
ghost use Rattle.number_texts.specs.Read.{read_of};
ghost use Rattle.lp_model.specs.Names.{Differ, names_of_rows, names_of_columns};
ghost use Rattle.mps_profile.specs.Texts.{Text};
ghost use Rattle.ray_text.specs.RayLines.{Giving, text_giving};
ghost use Rattle.ray_text.specs.Given.{no_weights, weights_or_none};
ghost use Rattle.ray_text.specs.Faults.{weights_result};
ghost use Rattle.ray_text.specs.Holding.{HoldsNamed, TookGiving};

use crate::ray_lines::NamedTexts;
use fractions::frac::Frac;
use lp_model::{ColumnDef, RowDef};
use names::Names;
use number_texts::{Numbers, ReadNumber, read};
use point_text::SolFaultKind;
use std::alloc::{AllocError, Global};

/// The weights of a lower and of an upper end.
#[derive(Clone, Copy)]
pub struct EndWeights {
    pub lower: Frac,
    pub upper: Frac,
}

/// The weights that two texts mean.
fn weights_of(lower: &[u8], upper: &[u8]) -> Result<EndWeights, SolFaultKind>
    ensures { result ≡ weights_result (read_of Fractions lower.now) (read_of Fractions upper.now) }
{
    match (
        read(lower, Numbers::Fractions),
        read(upper, Numbers::Fractions),
    ) {
        (Ok(lower), Ok(upper)) => Ok(EndWeights { lower, upper }),
        (Err(ReadNumber::NumberPast), _) | (_, Err(ReadNumber::NumberPast)) => {
            Err(SolFaultKind::NumberPast)
        }
        _ => Err(SolFaultKind::BadNumber),
    }
}

/// A table of the rows' names, which differ. Fails where memory runs out.
fn row_table(alloc: Global, rows: &[RowDef]) -> Result<Names, AllocError>
    requires { Differ (names_of_rows rows.now) }
    ensures { IfOk result (λ table. table ≡ names_of_rows rows.now) }
{
    let mut table = Names::new(alloc);
    for id in 0..rows.len() {
        table.insert(alloc, rows[id].name.as_bytes())?;
    }
    Ok(table)
}

/// A table of the columns' names, which differ. Fails where memory runs out.
fn column_table(alloc: Global, columns: &[ColumnDef]) -> Result<Names, AllocError>
    requires { Differ (names_of_columns columns.now) }
    ensures { IfOk result (λ table. table ≡ names_of_columns columns.now) }
{
    let mut table = Names::new(alloc);
    for id in 0..columns.len() {
        table.insert(alloc, columns[id].name.as_bytes())?;
    }
    Ok(table)
}

/// The names of rows or of columns, and for each of them the weights that a line gave to it.
#[derive(Drop)]
pub struct Named {
    pub table: Names,
    pub weights: Vec<Option<EndWeights>>,
}

/// The weights of the lower ends, and of the upper ends, by id.
#[derive(Drop)]
pub struct BothEnds {
    pub lower: Vec<Frac>,
    pub upper: Vec<Frac>,
}

impl Named {
    /// The rows' names, none with weights. Fails where memory runs out.
    pub fn of_rows(alloc: Global, rows: &[RowDef]) -> Result<Named, AllocError>
        requires { Differ (names_of_rows rows.now) }
        ensures { IfOk result (λ named. HoldsNamed (names_of_rows rows.now) [] named) }
    {
        let table = row_table(alloc, rows)?;
        let weights = vec![in alloc; None; table.len()]?;
        Ok(Named { table, weights })
    }

    /// The columns' names, none with weights. Fails where memory runs out.
    pub fn of_columns(alloc: Global, columns: &[ColumnDef]) -> Result<Named, AllocError>
        requires { Differ (names_of_columns columns.now) }
        ensures { IfOk result (λ named. HoldsNamed (names_of_columns columns.now) [] named) }
    {
        let table = column_table(alloc, columns)?;
        let weights = vec![in alloc; None; table.len()]?;
        Ok(Named { table, weights })
    }

    /// Takes in weights by a name, or says the first fault by number.
    pub fn give(&mut self, giving: NamedTexts<'_>) -> Result<(), SolFaultKind>
        requires { length self.old.weights.items ≡ length self.old.table }
        ensures took { (names : List Text) (before : List Giving) → Differ names → HoldsNamed names before self.old → TookGiving names before (text_giving giving.entry) result self.new }
        ensures places { length self.new.weights.items ≡ length self.new.table }
    {
        let Some(id) = self.table.find(giving.name) else {
            return Err(SolFaultKind::UnknownName);
        };
        if self.weights[id].is_some() {
            return Err(SolFaultKind::TwiceNamed);
        }
        self.weights[id] = Some(weights_of(giving.lower, giving.upper)?);
        Ok(())
    }

    /// The weights by id, zeros where no line gave any. Fails where memory runs out.
    pub fn both_ends(&self, alloc: Global) -> Result<BothEnds, AllocError>
        ensures lower { IfOk result (λ both. both.lower.items ≡ map (λ o. (weights_or_none o).lower) self.now.weights.items) }
        ensures upper { IfOk result (λ both. both.upper.items ≡ map (λ o. (weights_or_none o).upper) self.now.weights.items) }
    {
        let mut lower = Vec::with_capacity(alloc, self.weights.len())?;
        let mut upper = Vec::with_capacity(alloc, self.weights.len())?;
        for weights in &self.weights {
            let EndWeights {
                lower: low,
                upper: high,
            } = weights.unwrap_or(EndWeights {
                lower: Frac::zero(),
                upper: Frac::zero(),
            });
            lower.push(low)?;
            upper.push(high)?;
        }
        Ok(BothEnds { lower, upper })
    }
}
