//! What edits of a problem, one after the other, keep, and what they make of what it shows.

ghost use Rattle.std.specs.Prelude.{◌≡◌, ◌++◌, List, All, false};
ghost use Rattle.fractions.specs.Number.{◌+ℚ◌};
ghost use Rattle.fractions.specs.declared.Numbers.{Numbers};
ghost use Rattle.problem_model.specs.declared.edit.Edit.{Edit};
ghost use Rattle.problem_model.specs.declared.part.Part.{Part};
ghost use Rattle.problem_model.specs.Allowed.{AreAllowed, IsAllowed};
ghost use Rattle.problem_model.specs.Applied.{applied, edited};
ghost use Rattle.problem_model.specs.EditedPrograms.{edited_program, programs_edited};
ghost use Rattle.problem_model.specs.Flags.{flags_of};
ghost use Rattle.problem_model.specs.Living.{all_flags_edited};
ghost use Rattle.problem_model.specs.NewNumbers.{EditFits, EditIsSided, EditsAreWritten};
ghost use Rattle.problem_model.specs.Offsets.{added_by};
ghost use Rattle.problem_model.specs.Parts.{changes_of, contents_of};
ghost use Rattle.problem_model.specs.Problems.{IsSparse};
ghost use Rattle.problem_model.specs.Showing.{shown};
ghost use Rattle.problem_model.specs.Sparse.{Sparse};
ghost use Rattle.problem_model.specs.Touching.{touched_by};
ghost use Rattle.problem_model.specs.Writing.{IsWritable};
ghost use Rattle.edit_laws.specs.Sizes.{SameSize};

/// What edits keep.
pub fn edits_keep()
    ensures sparse { (p : Sparse) (es : List Edit) → IsSparse p → AreAllowed p es → IsSparse (applied p es) }
    ensures size { (p : Sparse) (es : List Edit) → SameSize p (applied p es) }
    ensures writable { (numbers : Numbers) (p : Sparse) (es : List Edit) → IsSparse p → IsWritable numbers p → AreAllowed p es → All EditFits es → EditsAreWritten numbers es → All EditIsSided es → IsWritable numbers (applied p es) }
    ensures numbers { (p : Sparse) (es : List Edit) (a : Part) → IsSparse p → AreAllowed p es → changes_of (applied p es) a ≡ changes_of p a }
    ensures untouched { (p : Sparse) (es : List Edit) (a : Part) → IsSparse p → AreAllowed p es → touched_by p es a ≡ false → contents_of (applied p es) a ≡ contents_of p a }
{}

/// What edits make of what is shown, of the offset and of what is live.
pub fn edits_make()
    ensures shown { (p : Sparse) (es : List Edit) → IsSparse p → AreAllowed p es → shown (applied p es) ≡ programs_edited (shown p) es }
    ensures offset { (p : Sparse) (es : List Edit) → (applied p es).offset ≡ p.offset +ℚ added_by es }
    ensures live { (p : Sparse) (es : List Edit) → flags_of (applied p es) ≡ all_flags_edited (flags_of p) es }
    ensures more { (p : Sparse) (es fs : List Edit) → applied p (es ++ fs) ≡ applied (applied p es) fs }
{}
