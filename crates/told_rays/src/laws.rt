//! What is told of the ray of a run is one.

ghost use Rattle.std.specs.Prelude.{◌≡◌, ◌≢◌, ℕ, List};
ghost use Rattle.lp_model.specs.ProgramData.{ProgramData};
ghost use Rattle.problem_model.specs.Programs.{IsProblemOf};
ghost use Rattle.problem_model.specs.Sparse.{Sparse};
ghost use Rattle.presolve_model.specs.declared.instance.Reduction.{Reduction};
ghost use Rattle.presolve_model.specs.declared.instance.Verdict.{Verdict};
ghost use Rattle.endings.specs.Ending.{infeasible_line};
ghost use Rattle.ray_file.specs.Telling.{past_lines, StopsAt, TellsRay};

/// What is told of the ray of a run is one, where the program has a problem: its text, or the number of the record at which a number of the
/// ray has no room; and never both. What is printed says which of them it is.
pub fn told_rays_are_one()
    ensures text { (program : ProgramData) (p : Sparse) → IsProblemOf program p → (history : List Reduction) (verdict : Verdict) (text more : List ℕ)
        → TellsRay program history verdict text → TellsRay program history verdict more → text ≡ more }
    ensures stopped { (program : ProgramData) (p : Sparse) → IsProblemOf program p → (history : List Reduction) (verdict : Verdict) (at other : ℕ)
        → StopsAt program history verdict at → StopsAt program history verdict other → at ≡ other }
    ensures apart { (program : ProgramData) (p : Sparse) → IsProblemOf program p → (history : List Reduction) (verdict : Verdict) (text : List ℕ) (at : ℕ)
        → TellsRay program history verdict text → StopsAt program history verdict at → ⊥ }
    ensures printed { (at : ℕ) → infeasible_line ≢ past_lines at }
{}
