//! What the cards say by names alone, and what can be written. The definitions stand in `specs/`.
//! The functions here do nothing when they run: each states laws of those definitions, and its
//! check proves them.
#![tactic(auto)]

ghost use Rattle.std.specs.Prelude.{◌≡◌, ℕ, ◌<◌, ◌≤◌, List, length, Some, Ok};
ghost use Rattle.fractions.specs.Number.{Number, ◌+ℚ◌, neg_ℚ};
ghost use Rattle.fractions.specs.Lowest.{Fits};
ghost use Rattle.fractions.specs.FracWords.{SumFits};
ghost use Rattle.names.specs.Names.{place};
ghost use Rattle.mps_profile.specs.Texts.{Text, field};
ghost use Rattle.mps_profile.specs.Numerals.{number_on};
ghost use Rattle.mps_profile.specs.Cards.{Card};
ghost use Rattle.mps_profile.specs.Rows.{row_names};
ghost use Rattle.mps_profile.specs.Columns.{column_names};
ghost use Rattle.mps_profile.specs.Program.{program_in};
ghost use Rattle.mps_profile.specs.declared.dialect.Dialect.{Dialect};
ghost use Rattle.mps_profile.specs.declared.progress.Told.{Told};
ghost use Rattle.mps_laws.specs.Faultless.{IsFaultless};
ghost use Rattle.mps_named.specs.Named.{side_named, number_named, RowIsNamed, ColumnIsNamed};
ghost use Rattle.mps_named.specs.Once.{entries_naming, sides_naming, ranges_naming, first_number};
ghost use Rattle.lp_model.specs.Writable.{WritableNumber, Writable};

/// Where a sum has room, so has the sum of the two numbers the other way round, the sum itself is
/// in range, and so is each step back from it to a number in range.
pub fn sums_go_back()
    ensures turned { (p q : Number) → SumFits p q → SumFits q p }
    ensures back { (p q : Number) → Fits p → SumFits p q → SumFits (p +ℚ q) (neg_ℚ q) }
    ensures fits { (p q : Number) → SumFits p q → Fits (p +ℚ q) }
{}

/// A number that is read from a card can be written.
pub fn read_is_writable()
    ensures { (dialect : Dialect) (text : Text) (q : Number) →
        number_on dialect text ≡ Ok q → WritableNumber dialect.numbers q }
{}

/// The program of cards without a fault can be written: its numbers are in range and of the form
/// that is asked for, its bounds are near, its rows have a side and are not crossed, and a range's
/// width and the sum that gives its upper side back have room.
pub fn program_is_writable()
    ensures { (dialect : Dialect) (sense : Told) (cards : List Card) →
        IsFaultless dialect cards → Writable dialect.numbers (program_in dialect sense cards) }
{}

/// In cards without a fault the names of rows differ, and so do those of columns.
pub fn names_differ()
    ensures rows { (dialect : Dialect) (cards : List Card) (i : ℕ) → IsFaultless dialect cards →
        i < length (row_names cards) → place (field (row_names cards) i) (row_names cards) ≡ Some i }
    ensures columns { (cards : List Card) (j : ℕ) →
        j < length (column_names cards) → place (field (column_names cards) j) (column_names cards) ≡ Some j }
{}

/// In cards without a fault a row has the type, the right side and the sides of a range that its
/// name has, and a column the bounds, the wholeness, the semi-continuity and the numbers that its
/// name has.
pub fn places_say_what_names_say()
    ensures rows { (dialect : Dialect) (cards : List Card) (i : ℕ) → IsFaultless dialect cards →
        i < length (row_names cards) → RowIsNamed dialect cards i }
    ensures columns { (dialect : Dialect) (cards : List Card) (j : ℕ) → IsFaultless dialect cards →
        j < length (column_names cards) → ColumnIsNamed dialect cards j }
{}

/// In cards without a fault a column and a row are named together by one pair of COLUMNS at most,
/// and a row by one pair of RHS and one of RANGES, of those that count.
pub fn names_stand_once()
    ensures entries { (dialect : Dialect) (cards : List Card) (column row : Text) →
        IsFaultless dialect cards → length (entries_naming cards column row) ≤ 1 }
    ensures sides { (dialect : Dialect) (cards : List Card) (row : Text) →
        IsFaultless dialect cards → length (sides_naming cards row) ≤ 1 }
    ensures ranges { (dialect : Dialect) (cards : List Card) (row : Text) →
        IsFaultless dialect cards → length (ranges_naming cards row) ≤ 1 }
{}

/// The number by names is that of the first pair that has the names, the nearest to the end.
pub fn numbers_stand_on_pairs()
    ensures entries { (dialect : Dialect) (cards : List Card) (column row : Text) →
        number_named dialect cards column row ≡ first_number dialect (entries_naming cards column row) }
    ensures sides { (dialect : Dialect) (cards : List Card) (row : Text) →
        side_named dialect cards row ≡ first_number dialect (sides_naming cards row) }
{}
