//! What is true of each program that is made from a seed. The function does nothing when it runs: it states laws, and its check proves them.

ghost use Rattle.std.specs.Prelude.{ℕ};
ghost use Rattle.fractions.specs.Number.{zero_ℚ};
ghost use Rattle.fractions.specs.Order.{◌≤ℚ◌};
ghost use Rattle.lp_model.specs.declared.program.Sense.TheVariants.{Min};
ghost use Rattle.lp_model.specs.LinearProgram.{Feasible, cost_at};
ghost use Rattle.lp_model.specs.Meaning.{meaning};
ghost use Rattle.lp_model.specs.Vectors.{Vector};
ghost use Rattle.lp_model.specs.Verdicts.{NoPoint, NoPointOrEndless};
ghost use Rattle.lp_gen.specs.Generated.{generated, ones};

/// A program that is made from a seed has a feasible point, that of all ones, since the right side of each row is made of the sum of its
/// coefficients; and no feasible point costs less than 0, since costs and columns are not negative. So no verdict can be true of it.
pub fn generated_programs_have_points()
    ensures feasible { (seed rows columns : ℕ) → Feasible (meaning (generated seed rows columns)) ones }
    ensures costs { (seed rows columns : ℕ) (x : Vector) → Feasible (meaning (generated seed rows columns)) x → zero_ℚ ≤ℚ cost_at (meaning (generated seed rows columns)) x }
    ensures undecided { (seed rows columns : ℕ) → NoPointOrEndless Min (meaning (generated seed rows columns)) → ⊥ }
    ensures there { (seed rows columns : ℕ) → NoPoint (meaning (generated seed rows columns)) → ⊥ }
{}
