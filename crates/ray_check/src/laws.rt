//! What a verdict says of a ray. The functions do nothing when they run: each states a law, and its check proves it.

ghost use Rattle.std.specs.Prelude.{◌≡◌, ◌↔◌, ℕ, ◌<◌, length};
ghost use Rattle.fractions.specs.Number.{Number};
ghost use Rattle.lp_model.specs.LinearProgram.{LinearProgram};
ghost use Rattle.lp_model.specs.Meaning.{meaning};
ghost use Rattle.lp_model.specs.ProgramData.{ProgramData};
ghost use Rattle.lp_model.specs.Verdicts.{NoPoint};
ghost use Rattle.lp_rays.specs.Ray.{Weights, Ray};
ghost use Rattle.ray_check.specs.Room.{TotalFits};
ghost use Rattle.ray_check.specs.Deciding.{ColumnsFit, DecidesRay};
ghost use Rattle.ray_check.specs.declared.verdict.RayChecked.{RayChecked};
ghost use Rattle.ray_check.specs.declared.verdict.RayChecked.TheVariants.{Yes, NoRow, NoColumn, NoTotal, PastColumn, PastTotal};

/// The verdict is yes exactly where the weights are a ray and no sum is past.
pub fn yes_is_a_ray()
    ensures { (d : ProgramData) (w : Weights) → DecidesRay d w Yes ↔ (Ray (meaning d) w × ColumnsFit d w × TotalFits (meaning d) w) }
{}

/// A ray with the verdict yes proves that no point is feasible.
pub fn yes_lets_no_point_through()
    ensures { (d : ProgramData) (w : Weights) → DecidesRay d w Yes → NoPoint (meaning d) }
{}

/// Weights with the verdict no are no ray.
pub fn no_is_no_ray()
    ensures row { (d : ProgramData) (w : Weights) (i : ℕ) → DecidesRay d w (NoRow i) → Ray (meaning d) w → ⊥ }
    ensures column { (d : ProgramData) (w : Weights) (j : ℕ) → DecidesRay d w (NoColumn j) → Ray (meaning d) w → ⊥ }
    ensures total { (d : ProgramData) (w : Weights) (t : Number) → DecidesRay d w (NoTotal t) → Ray (meaning d) w → ⊥ }
{}

/// Past is said only where a sum has no room.
pub fn past_has_no_room()
    ensures column { (d : ProgramData) (w : Weights) (j : ℕ) → DecidesRay d w (PastColumn j) → ColumnsFit d w → ⊥ }
    ensures total { (d : ProgramData) (w : Weights) → DecidesRay d w PastTotal → TotalFits (meaning d) w → ⊥ }
{}

/// There is one verdict on a ray.
pub fn verdicts_on_rays_are_one()
    ensures { (d : ProgramData) (w : Weights) (one other : RayChecked) → DecidesRay d w one → DecidesRay d w other → one ≡ other }
{}
