//! What one edit of a problem keeps, and what it makes of what the problem shows.

ghost use Rattle.std.specs.Prelude.{◌≡◌};
ghost use Rattle.problem_model.specs.declared.edit.Edit.{Edit};
ghost use Rattle.problem_model.specs.Allowed.{IsAllowed};
ghost use Rattle.problem_model.specs.Applied.{edited};
ghost use Rattle.problem_model.specs.EditedPrograms.{edited_program};
ghost use Rattle.problem_model.specs.Problems.{IsSparse};
ghost use Rattle.problem_model.specs.Showing.{shown};
ghost use Rattle.problem_model.specs.Sparse.{Sparse};

/// What one edit keeps and makes.
pub fn edits_show()
    ensures sparse { (p : Sparse) (e : Edit) → IsSparse p → IsAllowed p e → IsSparse (edited p e) }
    ensures shown { (p : Sparse) (e : Edit) → IsSparse p → IsAllowed p e → shown (edited p e) ≡ edited_program (shown p) e }
{}
