//! Whether the records of a run are sound.

ghost use Rattle.std.specs.Prelude.{◌≡◌, ◌↔◌, Bool, List, All, IfOk, IsTrue, length};
ghost use Rattle.fractions.specs.Number.{Number};
ghost use Rattle.lp_model.specs.declared.program.Sense.{Sense};
ghost use Rattle.undo_records.specs.Sound.{IsSound};
ghost use Rattle.transactions.specs.Transactions.{Transaction};
ghost use Rattle.undo_records.specs.Walk.{AreSound, Walks, all_live, lives};

use crate::label::Label;
use crate::undo::Undo;
use crate::walk::Walk;
use std::alloc::{AllocError, Global};

/// Whether each record is sound in a program of so many rows and columns.
fn are_each_sound(undos: &[Undo], rows: usize, columns: usize) -> bool
    ensures { IsTrue result ↔ All (IsSound rows columns) undos.now }
{
    for undo in undos {
        if !undo.is_sound(rows, columns) {
            return false;
        }
    }
    true
}

/// Whether the records lead from all live to the flags of the labels.
fn lead_to(
    alloc: Global,
    columns: &[Label],
    rows: &[Label],
    undos: &[Undo],
) -> Result<bool, AllocError>
    ensures { IfOk result (λ lead. IsTrue lead ↔ Walks (all_live (length rows.now) (length columns.now)) undos.now (record { rows = lives rows.now; columns = lives columns.now })) }
{
    let mut walk = Walk::new(alloc, rows.len(), columns.len())?;
    let mut rest = undos;
    while let [undo, later @ ..] = rest {
        if !walk.takes(undo) {
            return Ok(false);
        }
        walk.step(undo);
        rest = later;
    }
    Ok(walk.ends_at(columns, rows))
}

/// Whether the records are sound, each by itself and all together: each names only what is live, and in the end just what the
/// labels say is live. Linear in the records' fields.
pub fn are_sound(
    alloc: Global,
    columns: &[Label],
    rows: &[Label],
    undos: &[Undo],
) -> Result<bool, AllocError>
    ensures { IfOk result (λ sound. (s : Sense) (d : Bool) (o : Number) (ts : List Transaction) → (IsTrue sound ↔ AreSound (record { sense = s; duals = d; columns = columns.now; rows = rows.now; offset = o; undos = undos.now; transactions = ts }))) }
{
    if !are_each_sound(undos, rows.len(), columns.len()) {
        return Ok(false);
    }
    lead_to(alloc, columns, rows, undos)
}
