//! Problems, and the problems of the programs that are written of them.

ghost use Rattle.std.specs.Prelude.{◌≡◌};
ghost use Rattle.fractions.specs.declared.Numbers.{Numbers};
ghost use Rattle.lp_model.specs.ProgramData.{ProgramData};
ghost use Rattle.lp_model.specs.Writable.{EntriesAscend};
ghost use Rattle.problem_model.specs.Edits.{offset_set};
ghost use Rattle.problem_model.specs.Problems.{IsSparse};
ghost use Rattle.problem_model.specs.Programs.{IsProblemOf, written_program};
ghost use Rattle.problem_model.specs.Sparse.{Sparse};
ghost use Rattle.edit_laws.specs.Sizes.{SameSize};
ghost use Rattle.presolve_model.specs.Tallies.{Open};
ghost use Rattle.written_laws.specs.Left.{AreOpenAlike, HaveSameLeft};

/// What is left to be done on a problem is left to be done on the problem of the program that is written of it, if the same was added to the
/// cost there, and the same bounds may be tightened.
pub fn written_problems_have_the_same_left()
    ensures { (numbers : Numbers) (program : ProgramData) (start p q : Sparse) (old new : Open) → IsProblemOf program start → SameSize start p → IsSparse p → IsProblemOf (written_program program p) q → AreOpenAlike old p new → HaveSameLeft numbers old p new (offset_set q p.offset) }
{}

/// The problem of a program, written, is the program.
pub fn programs_come_back()
    ensures { (program : ProgramData) (p : Sparse) → IsProblemOf program p → EntriesAscend program → written_program program p ≡ program }
{}
