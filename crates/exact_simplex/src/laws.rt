//! Laws of answers. The functions here do nothing when they run: each states a law, and its check proves it.

ghost use Rattle.std.specs.Prelude.{◌≡◌, ℕ};
ghost use Rattle.lp_model.specs.ProgramData.{ProgramData};
ghost use Rattle.lp_model.specs.Meaning.{meaning};
ghost use Rattle.lp_model.specs.Optimality.{Continuous};
ghost use Rattle.exact_simplex.specs.declared.solving.Solved.{Solved};
ghost use Rattle.exact_simplex.specs.Answers.{IsAnswer, IsTrueOf};

/// A program has one answer, with the same numbers: so an answer is given exactly where the run ends with it.
pub fn answers_are_one()
    ensures { (p : ProgramData) (N : ℕ) (a b : Solved) → IsAnswer p N a → IsAnswer p N b → a ≡ b }
{}

/// Where no column has to be whole or is semi-continuous, what an answer says of the program is so.
pub fn answers_are_true()
    ensures { (p : ProgramData) (N : ℕ) (a : Solved) → Continuous (meaning p) → IsAnswer p N a → IsTrueOf p a }
{}
