//! How often each part of a problem has changed.

ghost use Rattle.std.specs.Prelude.{◌≡◌, map, IfOk};

use crate::problem::ProblemData;
use problem_model::{Bounds, Line, Sides};
use std::alloc::{AllocError, Global};

fn of_lines(alloc: Global, lines: &[Line]) -> Result<Vec<u64>, AllocError>
    ensures { IfOk result (λ stamps. stamps.items ≡ map (λ line. line.changes) lines.now) }
{
    let mut stamps = Vec::with_capacity(alloc, lines.len())?;
    for line in lines {
        stamps.push(line.changes)?;
    }
    Ok(stamps)
}

fn of_sides(alloc: Global, all: &[Sides]) -> Result<Vec<u64>, AllocError>
    ensures { IfOk result (λ stamps. stamps.items ≡ map (λ sides. sides.changes) all.now) }
{
    let mut stamps = Vec::with_capacity(alloc, all.len())?;
    for sides in all {
        stamps.push(sides.changes)?;
    }
    Ok(stamps)
}

fn of_bounds(alloc: Global, all: &[Bounds]) -> Result<Vec<u64>, AllocError>
    ensures { IfOk result (λ stamps. stamps.items ≡ map (λ bounds. bounds.changes) all.now) }
{
    let mut stamps = Vec::with_capacity(alloc, all.len())?;
    for bounds in all {
        stamps.push(bounds.changes)?;
    }
    Ok(stamps)
}

impl ProblemData {
    /// How often each row has changed.
    pub fn row_changes(&self, alloc: Global) -> Result<Vec<u64>, AllocError>
        ensures { IfOk result (λ numbers. numbers.items ≡ map (λ line. line.changes) self.now.matrix.rows) }
    {
        of_lines(alloc, self.rows())
    }

    /// How often the sides of each row have changed.
    pub fn side_changes(&self, alloc: Global) -> Result<Vec<u64>, AllocError>
        ensures { IfOk result (λ numbers. numbers.items ≡ map (λ sides. sides.changes) self.now.sides) }
    {
        of_sides(alloc, self.all_sides())
    }

    /// How often each column has changed.
    pub fn column_changes(&self, alloc: Global) -> Result<Vec<u64>, AllocError>
        ensures { IfOk result (λ numbers. numbers.items ≡ map (λ line. line.changes) self.now.matrix.columns) }
    {
        of_lines(alloc, self.columns())
    }

    /// How often the bounds of each column have changed.
    pub fn bound_changes(&self, alloc: Global) -> Result<Vec<u64>, AllocError>
        ensures { IfOk result (λ numbers. numbers.items ≡ map (λ bounds. bounds.changes) self.now.bounds) }
    {
        of_bounds(alloc, self.all_bounds())
    }
}
