//! Reading the line of a record.

ghost use Rattle.std.specs.Prelude.{◌≡◌, ◌<◌, ℕ, None, List, length};
ghost use Rattle.undo_records.specs.Sound.{IsSound};
ghost use Rattle.lp_model.specs.Flags.{Flags};
ghost use Rattle.undo_records.specs.Walk.{NamesLive};
ghost use Rattle.record_words.specs.Undos.{names_live, undo_fault, undo_in};
ghost use Rattle.record_words.specs.Results.{IsUndo, IsRuleUndo};
ghost use Rattle.record_fields.specs.Views.{words_left};
ghost use Rattle.record_words.specs.declared.lines.LineError.TheVariants.{NoMemory};

use crate::agreement::form_fault;
use crate::rules::rule_of;
use crate::undos::undo_in;
use record_fields::faults::{LineFault, lower, unless};
use record_fields::words::{Words, next_word, words_of};
use record_values::Rule;
use std::alloc::{AllocError, Global};
use undo_records::{Undo, Walk};

/// Why a line is no record.
#[derive(Clone, Copy, Debug, PartialEq, Eq)]
pub enum LineError {
    /// What is wrong with it: the fault with the lowest number.
    Fault(LineFault),
    /// Want of memory.
    NoMemory,
}

impl From<AllocError> for LineError {
    ghost from_gives = { λ _ e. e ≡ NoMemory };

    fn from(_e: AllocError) -> LineError {
        LineError::NoMemory
    }
}

/// Whether all that a record names is live.
fn is_live(walk: &Walk, undo: &Undo) -> bool
    ensures { result ≡ names_live walk.now undo.now }
{
    walk.takes(undo)
}

/// The record that a rule's words are.
#[tactic(auto, using(record_fields::proofs::FaultLaws::lower_id))]
fn read_rule(alloc: Global, walk: &Walk, rule: Rule, words: Words<'_>) -> Result<Undo, LineError>
    ensures { IsRuleUndo walk.now rule (words_left words.entry) result }
{
    let fault = form_fault(rule, words);
    match fault {
        Some(LineFault::BadLine) => return Err(LineError::Fault(LineFault::BadLine)),
        Some(LineFault::BadId) => return Err(LineError::Fault(LineFault::BadId)),
        _ => {}
    }
    let undo = undo_in(alloc, rule, words)?;
    match lower(fault, unless(is_live(walk, &undo), LineFault::BadId)) {
        None => Ok(undo),
        Some(worst) => Err(LineError::Fault(worst)),
    }
}

/// The record that a line is, where so much is live.
///
/// # Errors
/// [`LineError::Fault`] exactly where the line has a fault: the one with the lowest number. [`LineError::NoMemory`] where memory is short.
pub fn read_undo(alloc: Global, walk: &Walk, line: &[u8]) -> Result<Undo, LineError>
    ensures { IsUndo walk.now line.now result }
{
    let mut words = words_of(line);
    match rule_of(next_word(&mut words)) {
        None => Err(LineError::Fault(LineFault::BadLine)),
        Some(rule) => read_rule(alloc, walk, rule, words),
    }
}

/// The record of a line without a fault is sound, and names what is live.
pub fn read_records_are_sound()
    ensures sound { (f : Flags) (line : List (List ℕ)) → undo_fault f line ≡ None → IsSound (length f.rows) (length f.columns) (undo_in line) }
    ensures live { (f : Flags) (line : List (List ℕ)) → undo_fault f line ≡ None → NamesLive f (undo_in line) }
{}
