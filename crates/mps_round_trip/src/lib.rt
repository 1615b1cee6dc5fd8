//! The MPS text that is written of a program, read again. The functions here do nothing when they
//! run: each states laws, and its check proves them.
#![tactic(auto)]

ghost use Rattle.std.specs.Prelude.{◌≡◌, None};
ghost use Rattle.fractions.specs.declared.Numbers.{Numbers};
ghost use Rattle.lp_model.specs.Names.{WellNamed};
ghost use Rattle.lp_model.specs.ProgramData.{ProgramData};
ghost use Rattle.mps_profile.specs.Reading.{first_fault};
ghost use Rattle.mps_profile.specs.Program.{program_of};
ghost use Rattle.mps_writer.specs.MpsText.{mps_text, WidthsFit};
ghost use Rattle.mps_written_lines.specs.Formats.{free_format};
ghost use Rattle.mps_round_trip.specs.Plain.{Plain};
ghost use Rattle.lp_model.specs.Writable.{Writable, EntriesAscend};

/// The text that is written of a program whose numbers can be written has no fault, and it is the
/// text of this very program: each name, number, side and bound, the sense, the constant, the order
/// of rows and columns and which columns are whole and semi-continuous are read as they were. Its
/// names are names and differ, as the type of programs keeps; none has a carriage return, and the
/// word of marker cards names no row and no objective.
pub fn written_texts_are_read_again()
    ensures sound { (numbers : Numbers) (p : ProgramData) → WellNamed p.objective p.rows p.columns → Plain p → Writable numbers p → EntriesAscend p → first_fault (free_format numbers) (mps_text p) ≡ None }
    ensures same { (numbers : Numbers) (p : ProgramData) → WellNamed p.objective p.rows p.columns → Plain p → Writable numbers p → EntriesAscend p → program_of (free_format numbers) (mps_text p) ≡ p }
{}

/// The widths of the rows of a program that can be written have room, so that its text fails for
/// want of memory alone.
pub fn writable_programs_have_room()
    ensures { (numbers : Numbers) (p : ProgramData) → Writable numbers p → WidthsFit p.rows }
{}

/// Two such programs that differ have texts that differ.
pub fn texts_tell_programs_apart()
    ensures { (numbers : Numbers) (p q : ProgramData) → WellNamed p.objective p.rows p.columns → Plain p → Writable numbers p → EntriesAscend p → WellNamed q.objective q.rows q.columns → Plain q → Writable numbers q → EntriesAscend q → mps_text p ≡ mps_text q → p ≡ q }
{}
