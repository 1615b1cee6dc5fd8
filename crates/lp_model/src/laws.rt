//! What a program means. The functions do nothing when they run: each states a law, and its check proves it.

ghost use Rattle.lp_model.specs.Vectors.{Vector};
ghost use Rattle.lp_model.specs.LinearProgram.{Feasible};
ghost use Rattle.lp_model.specs.Meaning.{meaning};
ghost use Rattle.lp_model.specs.ProgramData.{ProgramData};
ghost use Rattle.lp_model.specs.GivenPoints.{IsPointOf};

/// A point is feasible for what a program means exactly where each row's value lies between its sides, and each of its numbers lies between
/// its column's bounds, or is 0 in a semi-continuous column, and is whole where it has to be.
#[tactic(auto, using(crate::proofs::GivenPoints::point_given, crate::proofs::GivenPoints::given_feasible))]
pub fn feasible_points_are_given()
    ensures given { (program : ProgramData) (x : Vector) → Feasible (meaning program) x → IsPointOf program x }
    ensures feasible { (program : ProgramData) (x : Vector) → IsPointOf program x → Feasible (meaning program) x }
{}
