//! The laws of the simplex method over exact numbers, with the least variable chosen wherever there is a choice (Bland's rule).
//! `specs/` has the definitions: the rules by which a run chooses, when its limits have room, and how it ends. The functions here do
//! nothing when they run: each states laws of those definitions, and its check proves them.
#![tactic(auto)]

ghost use Rattle.std.specs.Prelude.{◌≡◌, ℕ};
ghost use Rattle.fractions.specs.Number.{Number};
ghost use Rattle.lp_model.specs.declared.program.Sense.{Sense};
ghost use Rattle.lp_model.specs.Vectors.{Vector};
ghost use Rattle.lp_model.specs.LinearProgram.{LinearProgram};
ghost use Rattle.lp_model.specs.Optimality.{Continuous, Meets};
ghost use Rattle.lp_model.specs.Verdicts.{NoPoint, Endless};
ghost use Rattle.lp_model.specs.Turning.{minimizing};
ghost use Rattle.tableau_laws.specs.Variables.{variables};
ghost use Rattle.tableau_laws.specs.Tableaus.{Tableau};
ghost use Rattle.tableau_laws.specs.Keeping.{IsTableau};
ghost use Rattle.simplex_laws.specs.Choices.{Leaves, NoneLeaves, Enters, NoneEnters, towards, downhill, direction, NoLimit};
ghost use Rattle.simplex_laws.specs.Runs.{Asks, Makes, Reaches, NoneCrossed, EndsInfeasible, EndsUnbounded, EndsBest};
ghost use Rattle.simplex_laws.specs.Solved.{duals_in};
ghost use Rattle.simplex_laws.specs.Outcomes.{Outcome, EndsAs};

/// Each tableau that a run comes to is one of the program.
pub fn runs_keep_tableaus()
    ensures step { (M : LinearProgram) (t : Tableau) → IsTableau M t → (asked : Asks M t) (next : Tableau) → Makes M t asked next → IsTableau M next }
    ensures run { (M : LinearProgram) (k : ℕ) (t : Tableau) → Reaches M k t → IsTableau M t }
{}

/// What the end of a run says is so: there is no feasible point, or costs are endless, or the tableau's values and duals meet the
/// optimality conditions.
pub fn ends_are_right()
    ensures infeasible { (s : Sense) (M : LinearProgram) (N : ℕ) → EndsInfeasible (minimizing s M) N → NoPoint M }
    ensures unbounded { (s : Sense) (M : LinearProgram) (N : ℕ) → Continuous M → EndsUnbounded (minimizing s M) N → Endless s M }
    ensures best { (s : Sense) (M : LinearProgram) (N k : ℕ) (t : Tableau) → Continuous M → EndsBest (minimizing s M) N k t → Meets s M t.values (duals_in s M t) }
{}

/// A run has one course: after so many steps it is at one tableau, and where it ends the rules ask for nothing more.
pub fn runs_are_determined()
    ensures course { (M : LinearProgram) → NoneCrossed M → (k : ℕ) (t u : Tableau) → Reaches M k t → Reaches M k u → t ≡ u }
    ensures stuck { (M : LinearProgram) (t : Tableau) (b : ℕ) (bound s : Number) → t.size ≡ variables M → NoneCrossed M → Leaves M t b bound s → NoneEnters M t (towards t b s) → ¬ (Asks M t) }
    ensures best { (M : LinearProgram) (t : Tableau) → NoneLeaves M t → NoneEnters M t (downhill t) → ¬ (Asks M t) }
    ensures unbounded { (M : LinearProgram) (t : Tableau) (e : ℕ) → NoneLeaves M t → Enters M t (downhill t) e → NoLimit M t e (direction t e) → ¬ (Asks M t) }
{}

/// A run has one end: the ends exclude each other, and the counts of steps and the last tableau are one too.
pub fn runs_have_one_end()
    ensures outcome { (M : LinearProgram) (N : ℕ) (a b : Outcome) → EndsAs M N a → EndsAs M N b → a ≡ b }
    ensures best { (M : LinearProgram) (N k : ℕ) (t u : Tableau) → EndsBest M N k t → EndsBest M N k u → t ≡ u }
{}
