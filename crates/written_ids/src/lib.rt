//! New ids of rows and columns, where what was deleted is left out, and what stands at them. The function here does nothing when it runs: it
//! states a law of the definitions, and its check proves it.
#![tactic(auto)]

ghost use Rattle.lp_model.specs.ProgramData.{ProgramData};
ghost use Rattle.problem_model.specs.Edits.{offset_set};
ghost use Rattle.problem_model.specs.Problems.{IsSparse};
ghost use Rattle.problem_model.specs.Programs.{IsProblemOf, written_program};
ghost use Rattle.problem_model.specs.Sparse.{Sparse};
ghost use Rattle.edit_laws.specs.Sizes.{SameSize};
ghost use Rattle.written_ids.specs.Standing.{IsLeft};

/// The problem of the program that is written of a problem has what stands at live rows and columns, each at its new id, and nothing else, if the
/// same was added to the cost there.
pub fn written_problems_are_what_is_left()
    ensures { (program : ProgramData) (start p q : Sparse) → IsProblemOf program start → SameSize start p → IsSparse p → IsProblemOf (written_program program p) q → IsLeft p (offset_set q p.offset) }
{}
