//! Simplex tableaus over exact numbers. `specs/` has the definitions: the variables of a program, tableaus as data, the first one, what
//! a pivot makes of one, and when its numbers have room. The function here does nothing when it runs: it states laws of those
//! definitions, and its check proves them.
#![tactic(auto)]

ghost use Rattle.std.specs.Prelude.{◌≡◌, ℕ};
ghost use Rattle.fractions.specs.Number.{Number, ◌+ℚ◌};
ghost use Rattle.lp_model.specs.LinearProgram.{LinearProgram};
ghost use Rattle.tableau_laws.specs.Variables.{lower_end, upper_end, Rests};
ghost use Rattle.tableau_laws.specs.Tableaus.{Tableau, start, pivoted, shifted, CanPivot, CanShift};
ghost use Rattle.tableau_laws.specs.Keeping.{IsTableau};

/// The first tableau is one of the program, and a pivot and a move of one variable keep that.
pub fn tableaus_stay_tableaus()
    ensures start { (M : LinearProgram) → IsTableau M (start M) }
    ensures pivot { (M : LinearProgram) (t : Tableau) (b e : ℕ) (bound : Number) → IsTableau M t → CanPivot t b e → Rests (lower_end M b) (upper_end M b) bound → IsTableau M (pivoted t b e bound) }
    ensures shift { (M : LinearProgram) (t : Tableau) (e : ℕ) (w : Number) → IsTableau M t → CanShift t e → Rests (lower_end M e) (upper_end M e) (t.values e +ℚ w) → IsTableau M (shifted t e w) }
{}
