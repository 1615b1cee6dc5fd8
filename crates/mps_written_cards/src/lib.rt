//! What the cards that are written of a program say of its rows and numbers. The functions here do nothing when they run:
//! each states laws, and its check proves them. The proofs beside them say the same of columns, entries and right sides,
//! card by card.
#![tactic(auto)]

ghost use Rattle.std.specs.Prelude.{◌≡◌, Ok, codes};
ghost use Rattle.fractions.specs.Number.{Number};
ghost use Rattle.fractions.specs.declared.Numbers.{Numbers};
ghost use Rattle.number_texts.specs.Written.{written};
ghost use Rattle.lp_model.specs.ProgramData.{ProgramData};
ghost use Rattle.lp_model.specs.Names.{names_of_rows};
ghost use Rattle.lp_model.specs.Writable.{WritableNumber, WritableBound};
ghost use Rattle.mps_profile.specs.Numerals.{number_on, limit_on};
ghost use Rattle.mps_profile.specs.Rows.{row_names};
ghost use Rattle.mps_profile.specs.declared.dialect.Dialect.{Dialect};
ghost use Rattle.mps_profile.specs.declared.bounds.Limit.TheVariants.{At, Above};
ghost use Rattle.mps_laws.specs.Faultless.{IsFaultless};
ghost use Rattle.mps_laws.specs.Names.{IsNumbered};
ghost use Rattle.mps_written_lines.specs.Words.{IsWord};
ghost use Rattle.mps_written_lines.specs.Formats.{free_format};
ghost use Rattle.mps_written_lines.specs.Written.{all_rows, row_cards};

/// A number that can be written is a word, and is read again, as an entry and as a bound; `inf` is read as an infinite bound.
pub fn written_numbers_are_read_again()
    ensures word { (numbers : Numbers) (q : Number) → WritableNumber numbers q → IsWord (written q) }
    ensures number { (numbers : Numbers) (q : Number) → WritableNumber numbers q → number_on (free_format numbers) (written q) ≡ Ok q }
    ensures bound { (numbers : Numbers) (q : Number) → WritableBound numbers q → limit_on (free_format numbers) (written q) ≡ Ok (At q) }
    ensures infinite { (numbers : Numbers) → limit_on (free_format numbers) (codes "inf") ≡ Ok Above }
{}

/// The cards of ROWS name the objective and the rows in their order, and have no fault where the names differ.
pub fn written_rows_are_named()
    ensures names { (p : ProgramData) → row_names (row_cards p) ≡ names_of_rows (all_rows p) }
    ensures sound { (dialect : Dialect) (p : ProgramData) → IsNumbered (names_of_rows (all_rows p)) → IsFaultless dialect (row_cards p) }
{}
