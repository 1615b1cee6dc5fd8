//! The text that is written of records, read again: laws, each on a function that does nothing when it runs, and the range that
//! every value of the type of records has.
#![tactic(auto)]

ghost use Rattle.std.specs.Prelude.{◌≡◌, None};
ghost use Rattle.undo_records.specs.Named.{AreNamed, AreTold};
ghost use Rattle.undo_records.specs.Postsolve.{Postsolve};
ghost use Rattle.undo_records.specs.Walk.{AreSound};
ghost use Rattle.record_values.specs.declared.version.TextVersion.TheVariants.{First, Second};
ghost use Rattle.record_file.specs.RecordText.{record_text};
ghost use Rattle.record_reader.specs.Reading.{first_fault, records_of};
ghost use Rattle.record_round_trip.specs.Ranges.{HasRange, without_transactions};

mod ranges;

pub use ranges::{records_come_back, records_have_range};

/// What is written of sound records whose names are names, and whose ids and numbers have room, has no fault. The second version gives
/// the records back, if each has its transaction. The first one gives them back without their transactions.
pub fn written_records_are_read_again()
    ensures sound { (p : Postsolve) → AreSound p → AreNamed p → AreTold p → HasRange p → first_fault (record_text Second p) ≡ None }
    ensures same { (p : Postsolve) → AreSound p → AreNamed p → AreTold p → HasRange p → records_of (record_text Second p) ≡ p }
    ensures sound_first { (p : Postsolve) → AreSound p → AreNamed p → HasRange p → first_fault (record_text First p) ≡ None }
    ensures same_first { (p : Postsolve) → AreSound p → AreNamed p → HasRange p → records_of (record_text First p) ≡ without_transactions p }
{}
