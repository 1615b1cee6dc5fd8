//! The records of a whole run.

ghost use Rattle.std.specs.Prelude.{◌≡◌, ◌↔◌, All, IfOk, IfSome, IsSome, length, map, replicate};
ghost use Rattle.undo_records.specs.Sound.{CanUndo};
ghost use Rattle.undo_records.specs.Named.{AreNamed, AreRecords, AreTold};
ghost use Rattle.transactions.specs.Transactions.{untold};
ghost use Rattle.undo_records.specs.Walk.{AreSound};

use crate::label::{Label, labels_are_named};
use crate::undo::Undo;
use crate::whole_run::are_sound;
use lp_model::fractions::frac::Frac;
use lp_model::{Labels, Name, Sense};
use std::alloc::{AllocError, Global};
use std::marker::Model;
use transactions::Transactions;

/// All that presolve wrote down: the original program's names, whether duals are undone too, the offset, and the record of each reduction
/// with its transaction, first applied first. Each record is sound, names only what is live as it is applied, and all of them leave live
/// what the labels say. All names are some bytes without a space, a tab or a line feed. Each version is below its record's place.
#[derive(Drop)]
pub struct Records {
    sense: Sense,
    duals: bool,
    columns: Vec<Label>,
    rows: Vec<Label>,
    offset: Frac,
    undos: Vec<Undo>,
    transactions: Transactions,
}

impl Model for Records {
    ghost use Rattle.std.specs.Coded.{codes};
    ghost use Rattle.fractions.specs.Lowest.{number_code};
    ghost use Rattle.undo_records.specs.Postsolve.{Postsolve};

    ghost Value = { Postsolve };

    ghost coded = { Prim.hlevel (codes, number_code) };

    ghost use Rattle.undo_records.specs.Named.{AreRecords};

    ghost view = { λ r. record { sense = r.sense; duals = r.duals; columns = r.columns.items; rows = r.rows.items; offset = r.offset; undos = r.undos.items; transactions = r.transactions } };

    ghost invariant = { λ r. AreRecords (record { sense = r.sense; duals = r.duals; columns = r.columns.items; rows = r.rows.items; offset = r.offset; undos = r.undos.items; transactions = r.transactions }) };
}

impl Records {
    /// The records of these parts: whether they undo duals too, columns and rows by original id, the offset in the sense of the file, the reductions in the order they were applied, the transaction of each.
    pub fn new(
        sense: Sense,
        duals: bool,
        columns: Vec<Label>,
        rows: Vec<Label>,
        offset: Frac,
        undos: Vec<Undo>,
        transactions: Transactions,
    ) -> Records
        requires sound { AreSound (record { sense = sense; duals = duals; columns = columns.items; rows = rows.items; offset = offset; undos = undos.items; transactions = transactions }) }
        requires named { AreNamed (record { sense = sense; duals = duals; columns = columns.items; rows = rows.items; offset = offset; undos = undos.items; transactions = transactions }) }
        requires told { AreTold (record { sense = sense; duals = duals; columns = columns.items; rows = rows.items; offset = offset; undos = undos.items; transactions = transactions }) }
        ensures { result ≡ record { sense = sense; duals = duals; columns = columns.items; rows = rows.items; offset = offset; undos = undos.items; transactions = transactions } }
    {
        Records {
            sense,
            duals,
            columns,
            rows,
            offset,
            undos,
            transactions,
        }
    }

    /// The records of these parts, whose transactions aren't known, none where they aren't sound.
    pub fn checked(
        alloc: Global,
        sense: Sense,
        duals: bool,
        columns: Vec<Label>,
        rows: Vec<Label>,
        offset: Frac,
        undos: Vec<Undo>,
    ) -> Result<Option<Records>, AllocError>
        ensures sound { IfOk result (λ found. IsSome found ↔ AreSound (record { sense = sense; duals = duals; columns = columns.items; rows = rows.items; offset = offset; undos = undos.items; transactions = replicate (length undos.items) untold })) }
        ensures parts { IfOk result (λ found. IfSome found (λ records. records ≡ record { sense = sense; duals = duals; columns = columns.items; rows = rows.items; offset = offset; undos = undos.items; transactions = replicate (length undos.items) untold })) }
    {
        if !are_sound(alloc, columns.as_slice(), rows.as_slice(), undos.as_slice())? {
            return Ok(None);
        }
        labels_are_named(columns.as_slice());
        labels_are_named(rows.as_slice());
        let transactions = Transactions::unknown(alloc, undos.as_slice().len())?;
        Ok(Some(Records::new(sense, duals, columns, rows, offset, undos, transactions)))
    }

    /// Whether the original program is to be minimized or maximized.
    pub fn sense(&self) -> Sense
        ensures { result ≡ self.now.sense }
    {
        self.sense
    }

    /// Whether the duals of rows are brought back too, beside the point.
    pub fn undoes_duals(&self) -> bool
        ensures { result ≡ self.now.duals }
    {
        self.duals
    }

    /// The original columns by id.
    pub fn columns(&self) -> &[Label]
        ensures { result.now ≡ self.now.columns }
    {
        self.columns.as_slice()
    }

    /// The original rows by id.
    pub fn rows(&self) -> &[Label]
        ensures { result.now ≡ self.now.rows }
    {
        self.rows.as_slice()
    }

    /// What was added to the cost, in the file's sense.
    pub fn offset(&self) -> Frac
        ensures { result ≡ self.now.offset }
    {
        self.offset
    }

    /// The record of each reduction, first applied first.
    pub fn undos(&self) -> &[Undo]
        ensures { result.now ≡ self.now.undos }
    {
        self.undos.as_slice()
    }

    /// The transaction of each record: what was read for it, and who applied it.
    pub fn transactions(&self) -> &Transactions
        ensures { result.now ≡ self.now.transactions }
    {
        &self.transactions
    }

    /// Each record is sound by itself, and they lead from all live to what the labels say is live. Says so, and does nothing.
    pub fn is_sound(&self)
        ensures { AreSound self.now }
    {
        let _undos = self.undos.as_slice();
    }

    /// The original rows and columns have names. Says so, and does nothing.
    pub fn is_named(&self)
        ensures { AreNamed self.now }
    {
        let _undos = self.undos.as_slice();
    }

    /// Each record has its transaction. Says so, and does nothing.
    pub fn is_told(&self)
        ensures { AreTold self.now }
    {
        let _undos = self.undos.as_slice();
    }

    /// Each record can be undone. Says so, and does nothing.
    #[tactic(auto, using(crate::proofs::SoundRecords::all_can))]
    pub fn can_lift(&self)
        ensures { All (CanUndo (length self.now.columns)) self.now.undos }
    {
        self.is_sound();
    }
}

impl Labels for Records {
    ghost column_names = { λ r. map (λ l. l.name) r.columns };

    ghost row_names = { λ r. map (λ l. l.name) r.rows };

    fn column_count(&self) -> usize {
        self.columns().len()
    }

    fn row_count(&self) -> usize {
        self.rows().len()
    }

    fn column_name(&self, id: usize) -> &Name {
        &self.columns()[id].name
    }

    fn row_name(&self, id: usize) -> &Name {
        &self.rows()[id].name
    }
}
