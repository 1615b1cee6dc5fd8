//! Rows in groups, and columns.

use crate::groups::{Groups, Kind};
use problem_model::Part;
use sparse_problem::Problem;
use std::alloc::{AllocError, Global};
use std::marker::Model;

/// The rows of a problem in groups, so that all of which one is a multiple of another are in one group, and the columns, with their costs,
/// likewise. A group may hold more ids than these.
#[derive(Drop)]
pub struct Parallels {
    rows: Groups,
    columns: Groups,
}

impl Model for Parallels {
    ghost use Rattle.line_groups.specs.Groups.{LineGroups};

    ghost Value = { LineGroups };

    ghost view = { λ t. record { rows = t.rows; columns = t.columns } };
}

impl Parallels {
    ghost use Rattle.std.specs.Prelude.{◌≡◌, ◌⊎◌, ℕ, IfOk, OnOk};
    ghost use Rattle.std.specs.List.{Contains};
    ghost use Rattle.problem_model.specs.declared.part.Part.{Part as APart};
    ghost use Rattle.problem_model.specs.Parts.{contents_of};
    ghost use Rattle.problem_model.specs.Sparse.{Sparse};
    ghost use Rattle.edit_laws.specs.Sizes.{SameSize};
    ghost use Rattle.line_groups.specs.Groups.{group_at, AreGroupsOf};

    /// The groups of a problem.
    #[tactic(auto, unfolding(crate::specs::Groups::AreGroupsOf))]
    pub fn of(alloc: Global, problem: &Problem) -> Result<Parallels, AllocError>
        ensures { IfOk result (λ t. AreGroupsOf t problem.now) }
    {
        Ok(Parallels {
            rows: Groups::of(alloc, problem, Kind::Rows)?,
            columns: Groups::of(alloc, problem, Kind::Columns)?,
        })
    }

    /// Makes them the groups of a problem that differs from the one whose groups they are in these parts alone. The lines of these parts
    /// get new keys.
    ///
    /// # Errors
    /// Memory ran out. The groups may be of neither problem.
    pub fn refresh(
        &mut self,
        alloc: Global,
        problem: &Problem,
        parts: &[Part],
    ) -> Result<(), AllocError>
        ensures { (f : Sparse) → AreGroupsOf self.old f → SameSize f problem.now → ((a : APart) → (contents_of problem.now a ≡ contents_of f a) ⊎ Contains parts.now a) → OnOk result (AreGroupsOf self.new problem.now) }
    {
        self.rows.refresh(alloc, problem, Kind::Rows, parts)?;
        self.columns.refresh(alloc, problem, Kind::Columns, parts)?;
        Ok(())
    }

    /// The ids in the group of a row.
    pub fn beside_row(&self, row: u32) -> &[u32]
        ensures { result.now ≡ group_at self.now.rows row }
    {
        self.rows.beside(row)
    }

    /// The ids in the group of a column.
    pub fn beside_column(&self, column: u32) -> &[u32]
        ensures { result.now ≡ group_at self.now.columns column }
    {
        self.columns.beside(column)
    }

    /// Adds the ids in the groups of rows, those of each group once.
    pub fn add_beside_rows(
        &self,
        alloc: Global,
        rows: &[u32],
        ids: &mut Vec<u32>,
    ) -> Result<(), AllocError>
        ensures kept { OnOk result ((k : ℕ) → Contains ids.old.items k → Contains ids.new.items k) }
        ensures holds { OnOk result ((k m : ℕ) → Contains rows.now k → Contains (group_at self.now.rows k) m → Contains ids.new.items m) }
    {
        self.rows.add_beside(alloc, rows, ids)
    }

    /// Adds the ids in the groups of columns, those of each group once.
    pub fn add_beside_columns(
        &self,
        alloc: Global,
        columns: &[u32],
        ids: &mut Vec<u32>,
    ) -> Result<(), AllocError>
        ensures kept { OnOk result ((k : ℕ) → Contains ids.old.items k → Contains ids.new.items k) }
        ensures holds { OnOk result ((k m : ℕ) → Contains columns.now k → Contains (group_at self.now.columns k) m → Contains ids.new.items m) }
    {
        self.columns.add_beside(alloc, columns, ids)
    }
}
