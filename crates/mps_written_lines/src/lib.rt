//! The text that is written of a program, line by line and card by card. The definitions stand in `specs/`. The functions
//! here do nothing when they run: each states laws, and its check proves them.
#![tactic(auto)]

ghost use Rattle.std.specs.Prelude.{◌≡◌, [], List, true, None};
ghost use Rattle.std.specs.List.{AllByRecursion, list_any};
ghost use Rattle.fractions.specs.declared.Numbers.{Numbers};
ghost use Rattle.lp_model.specs.ProgramData.{ProgramData};
ghost use Rattle.lp_model.specs.Writable.{EntriesAscend};
ghost use Rattle.text_lines.specs.Lines.{lines_of};
ghost use Rattle.mps_profile.specs.Texts.{Text};
ghost use Rattle.mps_profile.specs.Fields.{fields_of};
ghost use Rattle.mps_profile.specs.Items.{cards_of};
ghost use Rattle.mps_profile.specs.Reading.{fault_from, read_from};
ghost use Rattle.mps_profile.specs.Rows.{row_kinds, is_free};
ghost use Rattle.mps_profile.specs.declared.dialect.Format.TheVariants.{Free};
ghost use Rattle.mps_laws.specs.Faultless.{IsFaultless};
ghost use Rattle.mps_writer.specs.Cards.{spaced};
ghost use Rattle.mps_writer.specs.MpsText.{mps_text};
ghost use Rattle.mps_written_lines.specs.Words.{IsWord};
ghost use Rattle.mps_written_lines.specs.Formats.{free_format};
ghost use Rattle.mps_written_lines.specs.Written.{IsLine, unlined, written_lines, written_cards, row_cards};
ghost use Rattle.mps_written_lines.specs.AreCards.{AreCards};

/// Lines that were ended and words that were spaced are cut where they were joined.
pub fn texts_are_cut_where_they_were_joined()
    ensures lines { (lines : List Text) → AllByRecursion IsLine lines → lines_of (unlined lines) ≡ lines }
    ensures words { (words : List Text) → AllByRecursion IsWord words → fields_of (spaced words) ≡ words }
{}

/// The text that is written of a program has these lines.
pub fn written_texts_have_lines()
    ensures { (p : ProgramData) → EntriesAscend p → mps_text p ≡ unlined (written_lines p) }
{}

/// Where the words of each card are read as it, where no card has a fault and one is an N row, the lines have no fault,
/// and their cards are those that were written.
pub fn written_lines_are_read_again()
    ensures { (numbers : Numbers) (p : ProgramData) → AreCards p → IsFaultless (free_format numbers) (written_cards p) → list_any is_free (row_kinds (row_cards p)) ≡ true
        → (fault_from (free_format numbers) [] (written_lines p) ≡ None) × (cards_of Free (read_from (free_format numbers) [] (written_lines p)) ≡ written_cards p) }
{}
