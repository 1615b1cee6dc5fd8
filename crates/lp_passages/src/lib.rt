//! Laws of passing from a program to other forms of it: from the sense of a file to the minimizing sense, and from original ids to the
//! ids of the written program, in which deleted rows and columns have none; and what a certificate says in either sense. The functions
//! here do nothing when they run: each states laws, and its check proves them.
#![tactic(auto)]

ghost use Rattle.std.specs.Prelude.{ℕ, List};
ghost use Rattle.fractions.specs.Number.{Number, zero_ℚ};
ghost use Rattle.lp_model.specs.declared.program.Sense.{Sense};
ghost use Rattle.lp_model.specs.declared.program.Sense.TheVariants.{Min};
ghost use Rattle.lp_model.specs.Vectors.{Vector};
ghost use Rattle.lp_model.specs.LinearProgram.{LinearProgram, cost_at, Feasible};
ghost use Rattle.lp_model.specs.Senses.{NoWorse};
ghost use Rattle.lp_model.specs.Optimality.{Meets};
ghost use Rattle.lp_model.specs.Reductions.{Reduces, ReducesPairs, Priced};
ghost use Rattle.lp_model.specs.Turning.{minimizing, signed, in_sense};
ghost use Rattle.lp_model.specs.Verdicts.{NoPoint, NoPointOrEndless};
ghost use Rattle.lp_passages.specs.Renumbering.{IsRest, written, gathered, spread, gathered_pair, spread_pair};

/// What holds of a program as it is minimized, with negated costs where its sense is Max, holds in the program's own sense.
pub fn senses_agree()
    ensures points { (d : Sense) (M R : LinearProgram) (f : Vector → Vector) (k : Number) → Reduces Min (minimizing d M) (minimizing d R) f k → Reduces d M R f (signed d k) }
    ensures pairs { (d : Sense) (M R : LinearProgram) (f : Priced → Priced) → ReducesPairs Min (minimizing d M) (minimizing d R) f → ReducesPairs d M R (in_sense d f) }
    ensures none { (d : Sense) (M : LinearProgram) → NoPoint (minimizing d M) → NoPoint M }
    ensures either { (d : Sense) (M : LinearProgram) → NoPointOrEndless Min (minimizing d M) → NoPointOrEndless d M }
{}

/// The written program, in which deleted rows and columns have no ids, has the points and pairs of the program with original ids.
pub fn written_programs_keep_points()
    ensures points { (d : Sense) (M : LinearProgram) (rows columns : List ℕ) → IsRest M rows columns → Reduces d M (written M rows columns) (spread columns) zero_ℚ }
    ensures pairs { (d : Sense) (M : LinearProgram) (rows columns : List ℕ) → IsRest M rows columns → ReducesPairs d M (written M rows columns) (spread_pair rows columns) }
    ensures points_back { (d : Sense) (M : LinearProgram) (rows columns : List ℕ) → IsRest M rows columns → Reduces d (written M rows columns) M (gathered columns) zero_ℚ }
    ensures pairs_back { (d : Sense) (M : LinearProgram) (rows columns : List ℕ) → IsRest M rows columns → ReducesPairs d (written M rows columns) M (gathered_pair rows columns) }
{}

/// A point and duals that meet the optimality conditions are a certificate: no feasible point has a better cost.
pub fn what_meets_is_best()
    ensures { (d : Sense) (M : LinearProgram) (x y : Vector) → Meets d M x y → (w : Vector) → Feasible M w → NoWorse d (cost_at M x) (cost_at M w) }
{}
