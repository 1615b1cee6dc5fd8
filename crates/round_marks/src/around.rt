//! Rows and columns to be looked at.

ghost use Rattle.std.specs.Prelude.{◌≡◌, ℕ, List, IfOk};
ghost use Rattle.std.specs.List.{Contains};
ghost use Rattle.problem_model.specs.declared.part.Part.{Part as PartValue};
ghost use Rattle.presolve_model.specs.declared.instance.Reach.TheVariants as reach;
ghost use Rattle.sorted_ids.specs.Ascending.{AscendsFrom};
ghost use Rattle.line_groups.specs.Groups.{AreGroupsOf};
ghost use Rattle.place_laws.specs.Choosing.{all_around, all_places, columns_with, rows_with, AreSorted, HoldsAround, HoldsLed, HoldsParts, ids_of as ids_there, IsSorted};
ghost use Rattle.place_laws.specs.Marks.{Marks};

use crate::ids::{add_across, bounds_of, columns_of, ids_below, rows_of, sides_of, sort_ids};
use crate::soles::{add_soles, add_soles_of_rows};
use line_groups::Parallels;
use presolve_model::{Part, Reach, Rule};
use sparse_problem::Problem;
use std::alloc::{AllocError, Global};
use std::marker::Model;
use txn_book::rule_table::reach_of;

/// Ids of rows and columns.
#[derive(Drop)]
pub struct Places {
    rows: Vec<u32>,
    columns: Vec<u32>,
}

impl Model for Places {
    ghost use Rattle.place_laws.specs.Choosing.{Places};

    ghost Value = { Places };

    ghost view = { λ n. record { rows = n.rows.items; columns = n.columns.items } };
}

impl Places {
    /// All rows and columns of a problem.
    fn all_of(alloc: Global, problem: &Problem) -> Result<Places, AllocError>
        ensures { IfOk result (λ places. places ≡ all_places problem.now) }
    {
        let rows = ids_below(alloc, problem.row_count() as u32)?;
        let columns = ids_below(alloc, problem.column_count() as u32)?;
        Ok(Places { rows, columns })
    }

    /// The rows and columns of parts.
    fn of_parts(alloc: Global, parts: &[Part]) -> Result<Places, AllocError>
        ensures sorted { IfOk result IsSorted }
        ensures holds { IfOk result (HoldsParts parts.now) }
    {
        let mut rows = rows_of(alloc, parts)?;
        let mut columns = columns_of(alloc, parts)?;
        sort_ids(&mut rows)?;
        sort_ids(&mut columns)?;
        Ok(Places { rows, columns })
    }

    /// The rows among them.
    fn rows(&self) -> &[u32]
        ensures { result.now ≡ self.now.rows }
    {
        self.rows.as_slice()
    }

    /// The columns among them.
    fn columns(&self) -> &[u32]
        ensures { result.now ≡ self.now.columns }
    {
        self.columns.as_slice()
    }
}

/// The rows of parts, and those in which the columns stand whose bounds the parts are.
fn rows_of_bounds(alloc: Global, problem: &Problem, parts: &[Part]) -> Result<Vec<u32>, AllocError>
    ensures sorted { IfOk result (λ ids. AscendsFrom 0 ids.items) }
    ensures holds { IfOk result (λ ids. HoldsLed problem.now reach.RowsOfBounds parts.now ids.items) }
{
    let mut ids = rows_of(alloc, parts)?;
    let mut columns = bounds_of(alloc, parts)?;
    sort_ids(&mut columns)?;
    add_across(
        &problem.columns(),
        &problem.rows(),
        columns.as_slice(),
        &mut ids,
    )?;
    sort_ids(&mut ids)?;
    Ok(ids)
}

/// The columns of parts, and those that stand in the rows whose sides the parts are.
fn columns_of_sides(
    alloc: Global,
    problem: &Problem,
    parts: &[Part],
) -> Result<Vec<u32>, AllocError>
    ensures sorted { IfOk result (λ ids. AscendsFrom 0 ids.items) }
    ensures holds { IfOk result (λ ids. HoldsLed problem.now reach.ColumnsOfSides parts.now ids.items) }
{
    let mut ids = columns_of(alloc, parts)?;
    let mut rows = sides_of(alloc, parts)?;
    sort_ids(&mut rows)?;
    add_across(
        &problem.rows(),
        &problem.columns(),
        rows.as_slice(),
        &mut ids,
    )?;
    sort_ids(&mut ids)?;
    Ok(ids)
}

/// The rows of parts, and those in which columns stand to which the parts lead.
fn rows_of_both(
    alloc: Global,
    problem: &Problem,
    parts: &[Part],
    columns: &[u32],
) -> Result<Vec<u32>, AllocError>
    requires { HoldsLed problem.now reach.ColumnsOfSides parts.now columns.now }
    ensures sorted { IfOk result (λ ids. AscendsFrom 0 ids.items) }
    ensures holds { IfOk result (λ ids. HoldsLed problem.now reach.RowsOfBoth parts.now ids.items) }
{
    let mut ids = rows_of(alloc, parts)?;
    add_across(&problem.columns(), &problem.rows(), columns, &mut ids)?;
    sort_ids(&mut ids)?;
    Ok(ids)
}

/// The columns with one entry among those of parts and those that stand in these rows, to which the parts lead.
fn sole_columns(
    alloc: Global,
    problem: &Problem,
    parts: &[Part],
    rows: &[u32],
) -> Result<Vec<u32>, AllocError>
    requires { HoldsLed problem.now reach.RowsOfBounds parts.now rows.now }
    ensures sorted { IfOk result (λ ids. AscendsFrom 0 ids.items) }
    ensures holds { IfOk result (λ ids. HoldsLed problem.now reach.SoleColumns parts.now ids.items) }
{
    let columns = columns_of(alloc, parts)?;
    let mut ids = Vec::new(alloc);
    add_soles(problem, columns.as_slice(), &mut ids)?;
    add_soles_of_rows(problem, rows, &mut ids)?;
    sort_ids(&mut ids)?;
    Ok(ids)
}

/// These rows, and those that are multiples of one of them.
fn rows_beside(
    alloc: Global,
    problem: &Problem,
    groups: &Parallels,
    rows: &[u32],
) -> Result<Vec<u32>, AllocError>
    requires { AreGroupsOf groups.now problem.now }
    ensures sorted { IfOk result (λ ids. AscendsFrom 0 ids.items) }
    ensures holds { IfOk result (λ ids. (parts : List PartValue) → ((a : PartValue) (i : ℕ) → Contains parts a → Contains (rows_with a) i → Contains rows.now i) → HoldsLed problem.now reach.RowsBeside parts ids.items) }
{
    problem.is_sparse();
    let mut ids = Vec::from_slice(alloc, rows)?;
    groups.add_beside_rows(alloc, rows, &mut ids)?;
    sort_ids(&mut ids)?;
    Ok(ids)
}

/// These columns, and those that are multiples of one of them.
fn columns_beside(
    alloc: Global,
    problem: &Problem,
    groups: &Parallels,
    columns: &[u32],
) -> Result<Vec<u32>, AllocError>
    requires { AreGroupsOf groups.now problem.now }
    ensures sorted { IfOk result (λ ids. AscendsFrom 0 ids.items) }
    ensures holds { IfOk result (λ ids. (parts : List PartValue) → ((a : PartValue) (j : ℕ) → Contains parts a → Contains (columns_with a) j → Contains columns.now j) → HoldsLed problem.now reach.ColumnsBeside parts ids.items) }
{
    problem.is_sparse();
    let mut ids = Vec::from_slice(alloc, columns)?;
    groups.add_beside_columns(alloc, columns, &mut ids)?;
    sort_ids(&mut ids)?;
    Ok(ids)
}

/// Where rules are looked for, by their reach. Each list ascends.
#[derive(Drop)]
pub struct Around {
    own: Places,
    rows_of_bounds: Vec<u32>,
    columns_of_sides: Vec<u32>,
    rows_of_both: Vec<u32>,
    sole_columns: Vec<u32>,
    rows_beside: Vec<u32>,
    columns_beside: Vec<u32>,
}

impl Model for Around {
    ghost use Rattle.place_laws.specs.Choosing.{Around};

    ghost Value = { Around };

    ghost view = { λ n. record { own = n.own; rows_of_bounds = n.rows_of_bounds.items; columns_of_sides = n.columns_of_sides.items; rows_of_both = n.rows_of_both.items; sole_columns = n.sole_columns.items; rows_beside = n.rows_beside.items; columns_beside = n.columns_beside.items } };
}

impl Around {
    /// All rows and columns of a problem.
    pub fn all_of(alloc: Global, problem: &Problem) -> Result<Around, AllocError>
        ensures { IfOk result (λ around. around ≡ all_around problem.now) }
    {
        let own = Places::all_of(alloc, problem)?;
        let rows_of_bounds = ids_below(alloc, problem.row_count() as u32)?;
        let columns_of_sides = ids_below(alloc, problem.column_count() as u32)?;
        let rows_of_both = ids_below(alloc, problem.row_count() as u32)?;
        let sole_columns = ids_below(alloc, problem.column_count() as u32)?;
        let rows_beside = ids_below(alloc, problem.row_count() as u32)?;
        let columns_beside = ids_below(alloc, problem.column_count() as u32)?;
        Ok(Around {
            own,
            rows_of_bounds,
            columns_of_sides,
            rows_of_both,
            sole_columns,
            rows_beside,
            columns_beside,
        })
    }

    /// The rows and columns to which parts lead that are noted, stirred and roused. Lines that are multiples of others are found by the groups
    /// of the problem.
    pub fn of_parts(
        alloc: Global,
        problem: &Problem,
        groups: &Parallels,
        noted: &[Part],
        stirred: &[Part],
        roused: &[Part],
    ) -> Result<Around, AllocError>
        requires { AreGroupsOf groups.now problem.now }
        ensures sorted { IfOk result AreSorted }
        ensures holds { (marks : Marks) → marks.noted ≡ noted.now → marks.stirred ≡ stirred.now → marks.roused ≡ roused.now → IfOk result (HoldsAround problem.now marks) }
    {
        let own = Places::of_parts(alloc, noted)?;
        let rows_of_bounds = rows_of_bounds(alloc, problem, noted)?;
        let columns_of_sides = columns_of_sides(alloc, problem, stirred)?;
        let columns_roused = self::columns_of_sides(alloc, problem, roused)?;
        let rows_of_both = rows_of_both(alloc, problem, roused, columns_roused.as_slice())?;
        let sole_columns = sole_columns(alloc, problem, noted, rows_of_bounds.as_slice())?;
        let rows_beside = rows_beside(alloc, problem, groups, own.rows())?;
        let columns_beside = columns_beside(alloc, problem, groups, own.columns())?;
        Ok(Around {
            own,
            rows_of_bounds,
            columns_of_sides,
            rows_of_both,
            sole_columns,
            rows_beside,
            columns_beside,
        })
    }

    /// The first ids of a rule among them.
    pub fn of(&self, rule: Rule) -> &[u32]
        ensures { result.now ≡ ids_there self.now rule }
    {
        match reach_of(rule) {
            Reach::OwnRow => self.own.rows(),
            Reach::OwnColumn => self.own.columns(),
            Reach::RowsOfBounds => self.rows_of_bounds.as_slice(),
            Reach::ColumnsOfSides => self.columns_of_sides.as_slice(),
            Reach::RowsOfBoth => self.rows_of_both.as_slice(),
            Reach::SoleColumns => self.sole_columns.as_slice(),
            Reach::RowsBeside => self.rows_beside.as_slice(),
            Reach::ColumnsBeside => self.columns_beside.as_slice(),
        }
    }
}
