//! What holds of the tokens of each text.

ghost use Rattle.std.specs.Prelude.{◌≡◌, None, ℕ, ◌<◌, ◌≤◌, ◌^◌, suc, List, length};
ghost use Rattle.fractions.specs.declared.Numbers.{Numbers};
ghost use Rattle.lp_model.specs.Writable.{EntriesAscend, Writable};
ghost use Rattle.lp_model.specs.Names.{Differ, WellNamed};
ghost use Rattle.opb_text.specs.Tokens.{Token};
ghost use Rattle.opb_text.specs.Statements.{open_row};
ghost use Rattle.opb_text.specs.Columns.{column_names};
ghost use Rattle.opb_text.specs.Reading.{first_fault, tokens_of};
ghost use Rattle.opb_text.specs.Program.{program_in, program_of};

/// The entries of each column stand at ascending rows of the program, and none is 0.
pub fn entries_ascend()
    ensures { (tokens : List Token) → EntriesAscend (program_in tokens) }
{}

/// The program of a text without a fault can be written, with fractions and without.
pub fn text_is_writable()
    ensures { (numbers : Numbers) (text : List ℕ) → first_fault text ≡ None → Writable numbers (program_of text) }
{}

/// No two columns have one name.
pub fn names_differ()
    ensures { (tokens : List Token) → Differ (column_names tokens) }
{}

/// The objective, the rows and the columns of a text's program have names, and they differ, where a row's number has room.
pub fn text_is_well_named()
    ensures { (text : List ℕ) → length text < 2 ^ 63 → WellNamed (program_of text).objective (program_of text).rows (program_of text).columns }
{}

/// A text has no more tokens than bytes; tokens have one row more than there are of them at most, that of `min:` among
/// them, and no more columns. The program has no more rows and no more columns than the text bytes.
pub fn text_bounds()
    ensures tokens { (text : List ℕ) → length (tokens_of text) ≤ length text }
    ensures rows { (tokens : List Token) → open_row tokens ≤ suc (length tokens) }
    ensures columns { (tokens : List Token) → length (column_names tokens) ≤ length tokens }
    ensures program { (text : List ℕ) → (length (program_of text).rows ≤ length text) × (length (program_of text).columns ≤ length text) }
{}
