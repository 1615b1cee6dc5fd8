//! What commits of edits keep and make, and what they tell by numbers of changes.

ghost use Rattle.std.specs.Prelude.{◌≡◌, ◌+◌, ◌≤◌, List, All, length, false};
ghost use Rattle.fractions.specs.Number.{◌+ℚ◌};
ghost use Rattle.fractions.specs.declared.Numbers.{Numbers};
ghost use Rattle.problem_model.specs.declared.edit.Edit.{Edit};
ghost use Rattle.problem_model.specs.declared.part.Part.{Part};
ghost use Rattle.problem_model.specs.Allowed.{AreAllowed};
ghost use Rattle.problem_model.specs.EditedPrograms.{programs_edited};
ghost use Rattle.problem_model.specs.Flags.{flags_of};
ghost use Rattle.problem_model.specs.Living.{all_flags_edited};
ghost use Rattle.problem_model.specs.NewNumbers.{EditFits, EditIsSided, EditsAreWritten};
ghost use Rattle.problem_model.specs.Offsets.{added_by};
ghost use Rattle.problem_model.specs.Parts.{changes_of};
ghost use Rattle.problem_model.specs.Problems.{IsSparse};
ghost use Rattle.problem_model.specs.Raised.{committed};
ghost use Rattle.problem_model.specs.Reading.{read_of};
ghost use Rattle.problem_model.specs.Showing.{shown};
ghost use Rattle.problem_model.specs.Sparse.{Sparse};
ghost use Rattle.problem_model.specs.Touching.{touched_by};
ghost use Rattle.problem_model.specs.Writing.{IsWritable};
ghost use Rattle.edit_laws.specs.Sizes.{SameSize};
ghost use Rattle.edit_laws.specs.Telling.{all_committed, AllAllowed, IsCounted, IsTold};

/// What a commit keeps.
pub fn commits_keep()
    ensures sparse { (p : Sparse) (es : List Edit) → IsSparse p → AreAllowed p es → IsSparse (committed p es) }
    ensures size { (p : Sparse) (es : List Edit) → SameSize p (committed p es) }
    ensures writable { (numbers : Numbers) (p : Sparse) (es : List Edit) → IsSparse p → IsWritable numbers p → AreAllowed p es → All EditFits es → EditsAreWritten numbers es → All EditIsSided es → IsWritable numbers (committed p es) }
    ensures untouched { (p : Sparse) (es : List Edit) (a : Part) → IsSparse p → AreAllowed p es → touched_by p es a ≡ false → read_of (committed p es) a ≡ read_of p a }
{}

/// What a commit makes of what is shown, of the offset and of what is live.
pub fn commits_make()
    ensures shown { (p : Sparse) (es : List Edit) → IsSparse p → AreAllowed p es → shown (committed p es) ≡ programs_edited (shown p) es }
    ensures offset { (p : Sparse) (es : List Edit) → (committed p es).offset ≡ p.offset +ℚ added_by es }
    ensures live { (p : Sparse) (es : List Edit) → flags_of (committed p es) ≡ all_flags_edited (flags_of p) es }
{}

/// The law of change numbers: with a commit the number of a part rises by one where the commit changed what the part holds, and stays
/// where it did not, however many edits touched it.
pub fn commits_count()
    ensures { (p : Sparse) (es : List Edit) (a : Part) → IsSparse p → AreAllowed p es → IsCounted p (committed p es) a }
{}

/// Commits, one after the other: where a part's number is what it was, and not at the end of its type, the part holds what it held; and
/// no number rises by more than there were commits.
pub fn numbers_decide()
    ensures told { (p : Sparse) (cs : List (List Edit)) (a : Part) → IsSparse p → AllAllowed p cs → IsTold p (all_committed p cs) a }
    ensures few { (p : Sparse) (cs : List (List Edit)) (a : Part) → IsSparse p → AllAllowed p cs → changes_of (all_committed p cs) a ≤ changes_of p a + length cs }
{}
