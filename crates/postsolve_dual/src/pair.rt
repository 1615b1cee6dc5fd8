//! The pair that is being lifted.

ghost use Rattle.std.specs.Prelude.{◌≡◌, ◌<◌, length, IfErr, IsOk, OnOk};
ghost use Rattle.lp_model.specs.Vectors.{vector_of};
ghost use Rattle.fractions.specs.Total.{put};
ghost use Rattle.undo_records.specs.Lift.{undone};
ghost use Rattle.undo_records.specs.Room.{UndoFits};
ghost use Rattle.undo_records.specs.Sound.{CanUndo};
ghost use Rattle.lp_model.specs.Sparse.{Ascends, dense};
ghost use Rattle.fractions.specs.Number.{◌-ℚ◌, ◌*ℚ◌};
ghost use Rattle.postsolve_dual.specs.PairRoom.{TakenFits};

use crate::terms::take_terms;
use exact_numbers::{Exact, Numbers};
use lp_model::Term;
use postsolve_primal::undo_one;
use std::alloc::Global;
use std::marker::Model;
use undo_records::Undo;

/// A value and a reduced cost for each original column, and a dual for each original row, by id. Duals and reduced costs are in the
/// minimizing sense. Until their record is undone a deleted column has 0 in both, and a deleted row the dual 0.
#[derive(Drop)]
pub struct PairBuf<T: Exact> {
    pub(crate) point: Numbers<T>,
    pub(crate) duals: Numbers<T>,
    pub(crate) reduced_costs: Numbers<T>,
}

impl<T: Exact> Model for PairBuf<T> {
    ghost use Rattle.std.specs.Coded.{codes};
    ghost use Rattle.fractions.specs.Lowest.{number_code};
    ghost use Rattle.undo_pairs.specs.Numbers.{PairNumbers};

    ghost Value = { PairNumbers };

    ghost coded = { Prim.hlevel (codes, number_code) };

    ghost view = { λ p. record { point = p.point; duals = p.duals; reduced_costs = p.reduced_costs } };
}

impl<T: Exact> PairBuf<T> {
    /// The values, by original column.
    pub fn point(&self) -> &Numbers<T>
        ensures { result.now ≡ self.now.point }
    {
        &self.point
    }

    /// The duals, by original row, in the minimizing sense.
    pub fn duals(&self) -> &Numbers<T>
        ensures { result.now ≡ self.now.duals }
    {
        &self.duals
    }

    /// The reduced costs, by original column, in the minimizing sense.
    pub fn reduced_costs(&self) -> &Numbers<T>
        ensures { result.now ≡ self.now.reduced_costs }
    {
        &self.reduced_costs
    }

    /// The value of a column.
    pub(crate) fn value(&self, column: u32) -> &T
        requires { column < length self.now.point }
        ensures { T.number result.now ≡ vector_of self.now.point column }
    {
        self.point.at(column)
    }

    /// The dual of a row.
    pub(crate) fn dual(&self, row: u32) -> &T
        requires { row < length self.now.duals }
        ensures { T.number result.now ≡ vector_of self.now.duals row }
    {
        self.duals.at(row)
    }

    /// The reduced cost of a column.
    pub(crate) fn reduced_cost(&self, column: u32) -> &T
        requires { column < length self.now.reduced_costs }
        ensures { T.number result.now ≡ vector_of self.now.reduced_costs column }
    {
        self.reduced_costs.at(column)
    }

    /// Sets the dual of a row.
    pub(crate) fn set_dual(&mut self, row: u32, number: T)
        requires { row < length self.old.duals }
        ensures size { length self.new.duals ≡ length self.old.duals }
        ensures point { self.new.point ≡ self.old.point }
        ensures costs { self.new.reduced_costs ≡ self.old.reduced_costs }
        ensures duals { vector_of self.new.duals ≡ put (vector_of self.old.duals) row (T.number number) }
    {
        self.duals.set(row, number);
    }

    /// Sets the reduced cost of a column.
    pub(crate) fn set_reduced_cost(&mut self, column: u32, number: T)
        requires { column < length self.old.reduced_costs }
        ensures size { length self.new.reduced_costs ≡ length self.old.reduced_costs }
        ensures point { self.new.point ≡ self.old.point }
        ensures duals { self.new.duals ≡ self.old.duals }
        ensures costs { vector_of self.new.reduced_costs ≡ put (vector_of self.old.reduced_costs) column (T.number number) }
    {
        self.reduced_costs.set(column, number);
    }

    /// Takes a row's entries, each times a dual, from the reduced costs of their columns.
    ///
    /// # Errors
    /// Where a product or a difference has no room, or there is no memory for it.
    pub(crate) fn take_row(
        &mut self,
        alloc: Global,
        entries: &[Term],
        dual: &T,
    ) -> Result<(), T::Refusal>
        requires { Ascends 0 (length self.old.reduced_costs) entries.now }
        ensures size { length self.new.reduced_costs ≡ length self.old.reduced_costs }
        ensures point { self.new.point ≡ self.old.point }
        ensures duals { self.new.duals ≡ self.old.duals }
        ensures costs { OnOk result (vector_of self.new.reduced_costs ≡ (λ k. vector_of self.old.reduced_costs k -ℚ dense entries.now k *ℚ T.number dual.now)) }
        ensures fits { IsOk result → TakenFits T.room entries.now (T.number dual.now) (vector_of self.old.reduced_costs) }
        ensures past { IfErr result (λ why. T.is_past why → TakenFits T.room entries.now (T.number dual.now) (vector_of self.old.reduced_costs) → ⊥) }
    {
        take_terms(alloc, &mut self.reduced_costs, entries, dual)
    }

    /// Undoes a record on the point.
    ///
    /// # Errors
    /// Where a number that the undoing computes has no room, or there is no memory for it.
    pub(crate) fn undo_point(&mut self, alloc: Global, undo: &Undo) -> Result<(), T::Refusal>
        requires { CanUndo (length self.old.point) undo.now }
        ensures size { length self.new.point ≡ length self.old.point }
        ensures duals { self.new.duals ≡ self.old.duals }
        ensures costs { self.new.reduced_costs ≡ self.old.reduced_costs }
        ensures point { OnOk result (vector_of self.new.point ≡ undone undo.now (vector_of self.old.point)) }
        ensures fits { IsOk result → UndoFits T.room undo.now (vector_of self.old.point) }
        ensures past { IfErr result (λ why. T.is_past why → UndoFits T.room undo.now (vector_of self.old.point) → ⊥) }
    {
        undo_one(alloc, undo, &mut self.point)
    }
}
