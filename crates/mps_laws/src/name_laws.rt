//! The names of rows and columns are names, and differ.
ghost use Rattle.std.specs.Prelude.{◌≡◌, ◌<◌, ℕ, List, length, true, false, None, All};
ghost use Rattle.std.specs.List.{list_any};
ghost use Rattle.lp_model.specs.Name.{IsName};
ghost use Rattle.lp_model.specs.Names.{Differ, WellNamed, names_of_rows, names_of_columns};
ghost use Rattle.mps_profile.specs.Texts.{Text};
ghost use Rattle.mps_profile.specs.Cards.{Card};
ghost use Rattle.mps_profile.specs.Rows.{row_names, row_kinds, row_kind, is_free};
ghost use Rattle.mps_profile.specs.Columns.{column_names};
ghost use Rattle.mps_profile.specs.Items.{cards_of};
ghost use Rattle.mps_profile.specs.Reading.{first_fault, lines_read};
ghost use Rattle.mps_profile.specs.Program.{objective_place, row_defs, column_defs, program_of};
ghost use Rattle.mps_profile.specs.declared.dialect.Dialect.{Dialect};
ghost use Rattle.mps_laws.specs.Faultless.{IsFaultless};
ghost use Rattle.mps_laws.specs.Names.{IsNumbered, kept_names};

/// Each name of a row or a column stands at one place.
pub fn names_are_numbered()
    ensures rows { (dialect : Dialect) (cards : List Card) → IsFaultless dialect cards → IsNumbered (row_names cards) }
    ensures columns { (cards : List Card) → IsNumbered (column_names cards) }
    ensures differ { (names : List Text) → IsNumbered names → Differ names }
    ensures types { (cards : List Card) → length (row_kinds cards) ≡ length (row_names cards) }
{}

/// The objective is the first N row, where there is one.
pub fn objectives_are_first()
    ensures { (cards : List Card) → list_any is_free (row_kinds cards) ≡ true → (objective_place cards < length (row_names cards)) × (is_free (row_kind cards (objective_place cards)) ≡ true) × ((k : ℕ) → k < objective_place cards → is_free (row_kind cards k) ≡ false) }
{}

/// The rows and columns of the program have the names that the cards give them, without those of N rows.
pub fn names_are_those_of_cards()
    ensures rows { (dialect : Dialect) (cards : List Card) (n : ℕ) → names_of_rows (row_defs dialect cards n) ≡ kept_names cards n }
    ensures columns { (dialect : Dialect) (cards : List Card) → names_of_columns (column_defs dialect cards (length (column_names cards))) ≡ column_names cards }
{}

/// The cards of a text give names: some bytes without a space, a tab or a line feed.
pub fn cards_give_names()
    ensures rows { (dialect : Dialect) (text : List ℕ) → All IsName (row_names (cards_of dialect.format (lines_read dialect text))) }
    ensures columns { (dialect : Dialect) (text : List ℕ) → All IsName (column_names (cards_of dialect.format (lines_read dialect text))) }
{}

/// In the program of a text without a fault the objective, the rows and the columns have names; those of the objective and the rows
/// differ, and so do the columns'.
pub fn programs_are_well_named()
    ensures { (dialect : Dialect) (text : List ℕ) → first_fault dialect text ≡ None → WellNamed (program_of dialect text).objective (program_of dialect text).rows (program_of dialect text).columns }
{}
