//! The columns of a program.

ghost use Rattle.std.specs.Prelude.{◌≡◌, ◌<◌, ℕ, length, All, None, false, IfOk, unwrap_or, slice_index_or};
ghost use Rattle.lp_model.specs.Name.{IsName};
ghost use Rattle.mps_profile.specs.Texts.{field};
ghost use Rattle.mps_profile.specs.Columns.{lower_under};
ghost use Rattle.mps_profile.specs.Sides.{default_lower};
ghost use Rattle.mps_profile.specs.Program.{columns_below};
ghost use Rattle.mps_assembly.specs.Columnwise.{terms_at, cost_at};
ghost use Rattle.mps_assembly.specs.Definitions.{definition};

use crate::places::{mark_at, name_at, value_at};
use fractions::ext::Ext;
use fractions::frac::Frac;
use lp_model::{ColumnDef, Name, Terms};
use names::Names;
use std::alloc::{AllocError, Global};
use std::mem::replace;

/// What is told of columns, by their places. Past its end a list tells nothing.
#[derive(Clone, Copy)]
pub struct ColumnTables<'a> {
    /// Their names.
    pub names: &'a Names,
    /// Their lower bounds.
    pub lowers: &'a [Option<Ext>],
    /// Their upper bounds.
    pub uppers: &'a [Option<Ext>],
    /// Whether they are whole.
    pub wholes: &'a [bool],
    /// Whether they are semi-continuous.
    pub semis: &'a [bool],
    /// Whether a card of type SC gives them their upper bounds.
    pub semi_uppers: &'a [Option<bool>],
}

/// The upper bound: infinite, where none is told.
fn upper_bound(uppers: &[Option<Ext>], place: usize) -> Ext
    ensures { result ≡ unwrap_or (slice_index_or uppers.now place None) None }
{
    match value_at(uppers, place) {
        Some(end) => end,
        None => Ext::none(),
    }
}

/// The lower bound that is not told: 0, or infinite under a negative upper bound.
fn default_lower(upper: Ext) -> Ext
    ensures { result ≡ default_lower upper }
{
    match upper.number() {
        Some(number) if number.is_negative() => Ext::none(),
        _ => Ext::at(Frac::zero()),
    }
}

/// Whether a card of type SC gives a column its upper bound.
fn is_semi_upper(kinds: &[Option<bool>], place: usize) -> bool
    ensures { result ≡ unwrap_or (slice_index_or kinds.now place None) false }
{
    match value_at(kinds, place) {
        Some(semi) => semi,
        None => false,
    }
}

/// The lower bound that is not told: 0 under an upper bound that a card of type SC gives.
fn lower_under(semi_upper: bool, upper: Ext) -> Ext
    ensures { result ≡ lower_under semi_upper upper }
{
    if semi_upper {
        Ext::at(Frac::zero())
    } else {
        default_lower(upper)
    }
}

/// The lower bound, by the upper bound where none is told.
fn lower_bound(lowers: &[Option<Ext>], place: usize, semi_upper: bool, upper: Ext) -> Ext
    ensures { result ≡ unwrap_or (slice_index_or lowers.now place None) (lower_under semi_upper upper) }
{
    match value_at(lowers, place) {
        Some(end) => end,
        None => lower_under(semi_upper, upper),
    }
}

/// The cost of a column; past the end it is 0.
fn cost_at(costs: &[Frac], place: usize) -> Frac
    ensures { result ≡ cost_at costs.now place }
{
    match costs.get(place) {
        Some(cost) => *cost,
        None => Frac::zero(),
    }
}

/// Takes a column's terms out; past the end there are none.
fn take_terms(terms: &mut Vec<Terms>, alloc: Global, place: usize) -> Terms
    ensures taken { result ≡ terms_at terms.old.items place }
    ensures others { (j : ℕ) → place < j → terms_at terms.new.items j ≡ terms_at terms.old.items j }
{
    if place < terms.len() {
        replace(&mut terms[place], Terms::empty(alloc))
    } else {
        Terms::empty(alloc)
    }
}

/// The column at a place, with a cost and with terms. It has a name.
fn column_definition(
    alloc: Global,
    columns: &ColumnTables<'_>,
    place: usize,
    cost: Frac,
    entries: Terms,
) -> Result<ColumnDef, AllocError>
    requires { IsName (field columns.now.names.now place) }
    ensures { IfOk result (λ column. column ≡ definition columns.now place cost entries) }
{
    let upper = upper_bound(columns.uppers, place);
    Ok(ColumnDef {
        name: Name::from_slice(alloc, name_at(columns.names, place))?,
        cost,
        lower: lower_bound(
            columns.lowers,
            place,
            is_semi_upper(columns.semi_uppers, place),
            upper,
        ),
        upper,
        whole: mark_at(columns.wholes, place),
        semi: mark_at(columns.semis, place),
        entries,
    })
}

/// The columns, in order, with their costs and terms. All have names.
///
/// # Errors
///
/// Where there is no memory.
pub fn column_definitions(
    alloc: Global,
    columns: &ColumnTables<'_>,
    costs: &[Frac],
    mut terms: Vec<Terms>,
) -> Result<Vec<ColumnDef>, AllocError>
    requires { All IsName columns.now.names.now }
    ensures { IfOk result (λ found. found.items ≡ columns_below (λ j. definition columns.now j (cost_at costs.now j) (terms_at terms.items j)) (length columns.now.names.now)) }
{
    let mut found = Vec::with_capacity(alloc, columns.names.len())?;
    for j in 0..columns.names.len() {
        let entries = take_terms(&mut terms, alloc, j);
        found.push(column_definition(alloc, columns, j, cost_at(costs, j), entries)?)?;
    }
    Ok(found)
}
