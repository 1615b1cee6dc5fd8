//! The reading of a ray.

ghost use Rattle.std.specs.Prelude.{◌≡◌, length, List, [], IfOk};
ghost use Rattle.lp_model.specs.Names.{Differ, names_of_rows, names_of_columns};
ghost use Rattle.lp_rays.specs.RayData.{RayData, IsSized};
ghost use Rattle.mps_profile.specs.Texts.{Text};
ghost use Rattle.ray_text.specs.RayLines.{Line, text_line};
ghost use Rattle.ray_text.specs.Given.{of_rows, of_columns};
ghost use Rattle.ray_text.specs.Reading.{lower_of, upper_of, IsRayRead};
ghost use Rattle.ray_text.specs.Holding.{HasPlaces, Holds, Took, TookAll};

use crate::ray_lines::{RayLine, split_line};
use crate::weights::Named;
use lp_model::Program;
use lp_rays::Ray;
use point_text::{SolError, SolFaultKind};
use std::alloc::{AllocError, Global};
use text_lines::{Fault, first_line};

/// What was read so far: the weights of rows and of columns, and whether the ray was started.
#[derive(Drop)]
pub struct Reading {
    pub rows: Named,
    pub columns: Named,
    pub open: bool,
}

/// The rows' names differ, and so do the columns' names.
fn names_differ(program: &Program)
    ensures rows { Differ (names_of_rows program.now.rows) }
    ensures columns { Differ (names_of_columns program.now.columns) }
{
    let _ = program.objective();
}

impl Reading {
    /// Nothing was read. Fails where memory runs out.
    fn new(alloc: Global, program: &Program) -> Result<Reading, AllocError>
        ensures { IfOk result (λ reading. Holds (names_of_rows program.now.rows) (names_of_columns program.now.columns) [] reading) }
    {
        names_differ(program);
        let rows = Named::of_rows(alloc, program.rows())?;
        let columns = Named::of_columns(alloc, program.columns())?;
        Ok(Reading {
            rows,
            columns,
            open: false,
        })
    }

    /// Takes in a line, or says its first fault by number.
    fn take_line(&mut self, line: RayLine<'_>) -> Result<(), SolFaultKind>
        requires { HasPlaces self.old }
        ensures took { (rows columns : List Text) (before : List Line) → Differ rows → Differ columns → Holds rows columns before self.old → Took rows columns before (text_line line.entry) result self.new }
        ensures places { HasPlaces self.new }
    {
        match line {
            RayLine::Silent => Ok(()),
            RayLine::Opens if !self.open => {
                self.open = true;
                Ok(())
            }
            RayLine::OfRow(giving) if self.open => self.rows.give(giving),
            RayLine::OfColumn(giving) if self.open => self.columns.give(giving),
            _ => Err(SolFaultKind::BadLine),
        }
    }

    /// The ray of all lines. Fails where memory runs out.
    fn ray(&self, alloc: Global) -> Result<Ray, AllocError>
        ensures { IfOk result (λ ray. (rows columns : List Text) (before : List Line) → Holds rows columns before self.now →
            ray ≡ record { lower_sides = lower_of rows (of_rows before); upper_sides = upper_of rows (of_rows before); lower_bounds = lower_of columns (of_columns before); upper_bounds = upper_of columns (of_columns before) }) }
    {
        let rows = self.rows.both_ends(alloc)?;
        let columns = self.columns.both_ends(alloc)?;
        Ok(Ray::new(rows.lower, rows.upper, columns.lower, columns.upper))
    }
}

/// Takes in the lines of a text.
fn take_lines(alloc: Global, reading: &mut Reading, text: &[u8]) -> Result<(), SolError>
    requires { HasPlaces reading.old }
    ensures { (rows columns : List Text) → Differ rows → Differ columns → Holds rows columns [] reading.old → TookAll rows columns text.now result reading.new }
{
    let mut fields = Vec::new(alloc);
    let mut rest = text;
    let mut number: u64 = 0;
    while !rest.is_empty() {
        let (line, after) = first_line(rest);
        number += 1;
        let said = split_line(&mut fields, line)?;
        if let Err(kind) = reading.take_line(said) {
            return Err(SolError::Fault(Fault { kind, line: number }));
        }
        rest = after;
    }
    Ok(())
}

/// The ray that a text gives: for each row and each column the weights that the text gives to its name, and zeros where no line names it.
///
/// The first line that is not blank is `=ray=` alone. Each line after it is `row` or `column`, a name and two numbers, with spaces or
/// tabs between them: the weights of the lower and of the upper end. Lines come in any order, and blank ones count for nothing. Numbers
/// are read exactly, fractions among them. A text of blank lines gives zeros alone; [`is_ray`](crate::is_ray) tells it from a ray.
///
/// # Errors
/// [`SolError::Fault`] exactly where a line has a fault: the first such line, and its fault with the lowest number. A line that is none
/// of the above, or stands where it may not, is a bad line; the name of a row is looked for among the rows, that of a column among the
/// columns. [`SolError::NoMemory`] where memory is short.
pub fn read_ray(alloc: Global, bytes: &[u8], program: &Program) -> Result<Ray, SolError>
    ensures read { IsRayRead (names_of_rows program.now.rows) (names_of_columns program.now.columns) bytes.now result }
    ensures sized { IfOk result (λ ray. IsSized (length program.now.rows) (length program.now.columns) ray) }
{
    names_differ(program);
    let mut reading = Reading::new(alloc, program)?;
    match take_lines(alloc, &mut reading, bytes) {
        Ok(()) => Ok(reading.ray(alloc)?),
        Err(error) => Err(error),
    }
}
