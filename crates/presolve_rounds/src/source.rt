//! The program that a run began with. Its entries are those of the problem that was made of it, and are kept there alone.

ghost use Rattle.std.specs.Prelude.{◌≡◌, map};
ghost use Rattle.presolve_rounds.specs.Sources.{emptied, IsKept};

use lp_model::{ColumnDef, Program, Terms};
use std::alloc::Global;
use std::marker::Model;
use std::snapshot::Snapshot;

/// A program of which the entries are gone. What it was is known to contracts alone.
#[derive(Drop)]
pub struct Source {
    given: Snapshot<Program>,
    kept: Program,
}

impl Model for Source {
    ghost use Rattle.std.specs.Coded.{codes};
    ghost use Rattle.fractions.specs.Lowest.{number_code};
    ghost use Rattle.presolve_rounds.specs.Sources.{SourceData};

    ghost Value = { SourceData };

    ghost coded = { Prim.hlevel (codes, number_code) };

    ghost view = { λ s. record { given = s.given.value; kept = s.kept } };
}

impl Source {
    /// What is kept of it.
    pub fn kept(&self) -> &Program
        ensures { result.now ≡ self.now.kept }
    {
        &self.kept
    }

    /// What is kept of it, without a copy.
    pub fn into_kept(self) -> Program
        ensures { result ≡ self.kept }
    {
        self.kept
    }
}

/// Takes the entries out of a column.
fn empty_column(alloc: Global, column: &mut ColumnDef)
    ensures { column.new ≡ emptied column.old }
{
    column.entries = Terms::empty(alloc);
}

/// Takes the entries out of columns.
fn empty_columns(alloc: Global, columns: &mut Vec<ColumnDef>)
    ensures { columns.new.items ≡ map emptied columns.old.items }
{
    for one in columns.iter_mut() {
        empty_column(alloc, one);
    }
}

/// Lets the entries of a program go. Its names, sides, bounds and costs stay.
pub fn source_of(alloc: Global, program: Program) -> Source
    ensures given { result.given ≡ program }
    ensures kept { IsKept result }
{
    let given = Snapshot::of(&program);
    let sense = program.sense();
    let constant = program.constant();
    let (objective, rows, columns) = program.into_parts();
    let mut columns = columns.into_vec();
    empty_columns(alloc, &mut columns);
    let kept = Program::new(sense, objective, constant, rows.into_vec(), columns);
    Source { given, kept }
}
