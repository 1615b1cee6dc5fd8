//! What holds of the names in the program of each text.

ghost use Rattle.std.specs.Prelude.{◌≢◌, ◌<◌, ◌^◌, ℕ, List, ◌∷◌, All, codes, length};
ghost use Rattle.lp_model.specs.Names.{names_of_columns, names_of_rows};
ghost use Rattle.mps_round_trip.specs.Plain.{Plain};
ghost use Rattle.opb_text.specs.Program.{program_of};
ghost use Rattle.opb_named.specs.Ordinary.{IsOrdinary};

/// The names of the objective, the rows and the columns are letters with printable bytes behind them. So they can stand in MPS of the free
/// format, and none is the word that a solution has for the objective's value.
pub fn names_are_ordinary()
    ensures rows { (text : List ℕ) → length text < 2 ^ 64 → All IsOrdinary ((program_of text).objective ∷ names_of_rows (program_of text).rows) }
    ensures columns { (text : List ℕ) → All IsOrdinary (names_of_columns (program_of text).columns) }
    ensures plain { (text : List ℕ) → length text < 2 ^ 64 → Plain (program_of text) }
    ensures unmarked { (name : List ℕ) → IsOrdinary name → name ≢ codes "=obj=" }
{}
