//! What holds of rays. The functions do nothing when they run: each states a law, and its check proves it.

ghost use Rattle.lp_model.specs.LinearProgram.{LinearProgram};
ghost use Rattle.lp_model.specs.Verdicts.{NoPoint};
ghost use Rattle.lp_rays.specs.Ray.{Weights, Ray, StepsBack};

/// A ray proves that no point is feasible.
pub fn rays_let_no_point_through()
    ensures { (M : LinearProgram) (w : Weights) → Ray M w → NoPoint M }
{}

/// Steps back bring rays back, and join.
pub fn rays_step_back()
    ensures ray { (M R : LinearProgram) (back : Weights → Weights) (w : Weights) → StepsBack M R back → Ray R w → Ray M (back w) }
    ensures join { (M P R : LinearProgram) (f g : Weights → Weights) → StepsBack M P f → StepsBack P R g → StepsBack M R (λ w. f (g w)) }
{}
