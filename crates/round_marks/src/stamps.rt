//! How often the parts of a problem had changed when a round began.

ghost use Rattle.std.specs.Prelude.{◌≡◌, nat_eq, length, map, slice_index_or, slice_set, IfOk};
ghost use Rattle.problem_model.specs.Matrices.{live_only};
ghost use Rattle.problem_model.specs.Parts.{changes_of};
ghost use Rattle.problem_model.specs.declared.part.Part.TheVariants as part;
ghost use Rattle.round_laws.specs.Passing.{are_unchanged};
ghost use Rattle.round_marks.specs.Stamping.{bounds_beside, restamped, stamp_at, stamp_put, stamps_of, tightening_parts};

use lp_model::Term;
use presolve_model::Part;
use sparse_problem::Problem;
use std::alloc::{AllocError, Global};
use std::marker::Model;

/// How often each part had changed, by row and by column.
#[derive(Drop)]
pub struct Stamps {
    rows: Vec<u64>,
    sides: Vec<u64>,
    columns: Vec<u64>,
    bounds: Vec<u64>,
}

impl Model for Stamps {
    ghost use Rattle.round_marks.specs.Stamping.{Stamped};

    ghost Value = { Stamped };

    ghost view = { λ s. record { rows = s.rows.items; sides = s.sides.items; columns = s.columns.items; bounds = s.bounds.items } };
}

fn number_at(stamps: &[u64], id: u32) -> u64
    ensures { result ≡ slice_index_or stamps.now id 0 }
{
    match stamps.get(id as usize) {
        Some(stamp) => *stamp,
        None => 0,
    }
}

fn set_number(stamps: &mut [u64], id: u32, number: u64)
    ensures { stamps.new ≡ slice_set stamps.old id number }
{
    if (id as usize) < stamps.len() {
        stamps[id as usize] = number;
    }
}

impl Stamps {
    /// How often each part of a problem has changed.
    pub fn of(alloc: Global, problem: &Problem) -> Result<Stamps, AllocError>
        ensures { IfOk result (λ stamps. stamps ≡ stamps_of problem.now) }
    {
        let rows = problem.row_changes(alloc)?;
        let sides = problem.side_changes(alloc)?;
        let columns = problem.column_changes(alloc)?;
        let bounds = problem.bound_changes(alloc)?;
        Ok(Stamps {
            rows,
            sides,
            columns,
            bounds,
        })
    }

    fn at(&self, part: Part) -> u64
        ensures { result ≡ stamp_at self.now part }
    {
        match part {
            Part::Row(i) => number_at(self.rows.as_slice(), i),
            Part::Sides(i) => number_at(self.sides.as_slice(), i),
            Part::Col(j) => number_at(self.columns.as_slice(), j),
            Part::Bounds(j) => number_at(self.bounds.as_slice(), j),
        }
    }

    fn put(&mut self, part: Part, number: u64)
        ensures { self.new ≡ stamp_put self.old part number }
    {
        match part {
            Part::Row(i) => set_number(self.rows.as_mut_slice(), i, number),
            Part::Sides(i) => set_number(self.sides.as_mut_slice(), i, number),
            Part::Col(j) => set_number(self.columns.as_mut_slice(), j, number),
            Part::Bounds(j) => set_number(self.bounds.as_mut_slice(), j, number),
        }
    }

    fn stands(&self, problem: &Problem, part: Part) -> bool
        ensures { result ≡ nat_eq (changes_of problem.now part) (stamp_at self.now part) }
    {
        problem.changes(part) == self.at(part)
    }

    /// Whether none of these parts has changed since.
    pub fn stand_for(&self, problem: &Problem, parts: &[Part]) -> bool
        ensures { result ≡ are_unchanged (stamp_at self.now) problem.now parts.now }
    {
        let mut rest = parts;
        while let [part, after @ ..] = rest {
            if !self.stands(problem, *part) {
                return false;
            }
            rest = after;
        }
        true
    }

    /// Whether none of the bounds of the live columns of terms has changed since.
    fn bounds_stand(&self, problem: &Problem, terms: &[Term]) -> bool
        ensures { result ≡ are_unchanged (stamp_at self.now) problem.now (map (λ t. part.Bounds t.id) (live_only problem.now.matrix.columns terms.now)) }
    {
        let mut rest = terms;
        while let [term, after @ ..] = rest {
            if problem.is_column_live(term.id) && !self.stands(problem, Part::Bounds(term.id)) {
                return false;
            }
            rest = after;
        }
        true
    }

    /// Whether none of the bounds of a row's columns has changed since. It has none where it isn't live.
    fn columns_stand(&self, problem: &Problem, row: u32) -> bool
        ensures { result ≡ are_unchanged (stamp_at self.now) problem.now (bounds_beside problem.now row) }
    {
        if problem.is_row_live(row) {
            self.bounds_stand(problem, problem.row_line(row).entries.as_slice())
        } else {
            true
        }
    }

    /// Whether nothing has changed since of what each instance reads that tightens a bound by a row: the row, its sides, and the bounds of its columns.
    pub fn row_stands(&self, problem: &Problem, row: u32) -> bool
        ensures { result ≡ are_unchanged (stamp_at self.now) problem.now (tightening_parts problem.now row) }
    {
        self.stands(problem, Part::Row(row))
            && self.stands(problem, Part::Sides(row))
            && self.columns_stand(problem, row)
    }

    /// Puts right how often these parts have changed.
    pub fn refresh(&mut self, problem: &Problem, parts: &[Part])
        ensures { self.new ≡ restamped self.old problem.now parts.now }
    {
        let mut rest = parts;
        while let [part, after @ ..] = rest {
            self.put(*part, problem.changes(*part));
            rest = after;
        }
    }
}
