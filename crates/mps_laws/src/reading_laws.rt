//! How a text is read line by line, and what the cards of a text without a fault keep.
ghost use Rattle.std.specs.Prelude.{◌≡◌, ◌+◌, ◌<◌, ◌≤◌, ℕ, List, [], ◌∷◌, length, Bool, true, false, Some, None, Ok};
ghost use Rattle.std.specs.List.{list_any};
ghost use Rattle.text_lines.specs.Lines.{lines_of};
ghost use Rattle.mps_profile.specs.Texts.{Text};
ghost use Rattle.mps_profile.specs.Items.{Item, item_of, is_awaited, progress_of, cards_of};
ghost use Rattle.mps_profile.specs.Rows.{row_names, row_kinds, is_free};
ghost use Rattle.mps_profile.specs.Columns.{column_names};
ghost use Rattle.mps_profile.specs.Reading.{first_fault, lines_read, is_ended, line_fault};
ghost use Rattle.mps_profile.specs.Program.{program_of};
ghost use Rattle.mps_profile.specs.declared.dialect.Dialect.{Dialect};
ghost use Rattle.mps_profile.specs.declared.dialect.Format.{Format};
ghost use Rattle.mps_profile.specs.declared.progress.Progress.{Progress};
ghost use Rattle.mps_profile.specs.declared.faults.MpsFaultKind.{MpsFaultKind};
ghost use Rattle.mps_profile.specs.declared.faults.MpsFaultKind.TheVariants.{NoEnd};
ghost use Rattle.mps_laws.specs.Going.{Going};
ghost use Rattle.mps_laws.specs.Faultless.{IsFaultless};

/// Reading goes from line to line up to ENDATA, the end of the text or the first line with a fault.
pub fn texts_are_read_by_lines()
    ensures starts { (dialect : Dialect) (text : List ℕ) → Going dialect text text 0 [] }
    ensures goes_on { (dialect : Dialect) (text rest after : List ℕ) (line : Text) (number : ℕ) (before : List Text) → Going dialect text rest number before → lines_of rest ≡ line ∷ lines_of after → length after < length rest → is_ended dialect before ≡ false → line_fault dialect before line (lines_of after) ≡ None → Going dialect text after (number + 1) (line ∷ before) }
    ensures ends { (dialect : Dialect) (text rest : List ℕ) (number : ℕ) (before : List Text) → Going dialect text rest number before → is_ended dialect before ≡ true → (first_fault dialect text ≡ None) × (lines_read dialect text ≡ before) }
    ensures stops { (dialect : Dialect) (text : List ℕ) (number : ℕ) (before : List Text) → Going dialect text [] number before → is_ended dialect before ≡ false → first_fault dialect text ≡ Some (NoEnd, number + 1) }
    ensures fails { (dialect : Dialect) (text rest after : List ℕ) (line : Text) (number : ℕ) (before : List Text) (fault : MpsFaultKind) → Going dialect text rest number before → lines_of rest ≡ line ∷ lines_of after → is_ended dialect before ≡ false → line_fault dialect before line (lines_of after) ≡ Some fault → first_fault dialect text ≡ Some (fault, number + 1) }
{}

/// A line that says something says the same where a card comes after it.
pub fn cards_after_change_no_line()
    ensures { (format : Format) (before : Progress) (text : Text) (follows : Bool) (item : Item) → item_of format before text follows ≡ Ok item → item_of format before text true ≡ Ok item }
{}

/// No card of a text without a fault has one.
pub fn sound_texts_have_sound_cards()
    ensures { (dialect : Dialect) (text : List ℕ) → first_fault dialect text ≡ None → IsFaultless dialect (cards_of dialect.format (lines_read dialect text)) }
{}

/// A text has no more rows and no more columns than lines, and neither has its program.
pub fn rows_and_columns_have_lines()
    ensures cards { (format : Format) (lines : List Text) → length (cards_of format lines) ≤ length lines }
    ensures rows { (format : Format) (lines : List Text) → length (row_names (cards_of format lines)) ≤ length lines }
    ensures columns { (format : Format) (lines : List Text) → length (column_names (cards_of format lines)) ≤ length lines }
    ensures program_rows { (dialect : Dialect) (text : List ℕ) → length (program_of dialect text).rows ≤ length (lines_read dialect text) }
    ensures program_columns { (dialect : Dialect) (text : List ℕ) → length (program_of dialect text).columns ≤ length (lines_read dialect text) }
{}

/// A text without a fault comes to ENDATA, it has an N row, and OBJSENSE has told its sense.
pub fn sound_texts_are_whole()
    ensures ends { (dialect : Dialect) (text : List ℕ) → first_fault dialect text ≡ None → is_ended dialect (lines_read dialect text) ≡ true }
    ensures objective { (dialect : Dialect) (text : List ℕ) → first_fault dialect text ≡ None → list_any is_free (row_kinds (cards_of dialect.format (lines_read dialect text))) ≡ true }
    ensures sense { (dialect : Dialect) (text : List ℕ) → first_fault dialect text ≡ None → is_awaited (progress_of dialect.format (lines_read dialect text)).sense ≡ false }
{}
