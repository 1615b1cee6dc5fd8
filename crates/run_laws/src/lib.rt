//! Runs: there is one at most from a book, and one conclusion of a program; and what a book says of its program. The functions here do
//! nothing when they run: each states laws of the definitions in `presolve_model`, and its check proves them.
#![tactic(auto)]

ghost use Rattle.std.specs.Prelude.{◌≡◌, ◌≢◌, ◌<◌, ◌≤◌, ◌^◌, ℕ, Bool, List, length, None, Some, Option, AllPairs};
ghost use Rattle.lp_model.specs.ProgramData.{ProgramData};
ghost use Rattle.lp_model.specs.Writable.{EntriesAscend, Writable};
ghost use Rattle.undo_records.specs.Named.{AreTold};
ghost use Rattle.undo_records.specs.Postsolve.{Postsolve};
ghost use Rattle.undo_records.specs.declared.side.Side.{Side};
ghost use Rattle.undo_records.specs.Walk.{AreSound};
ghost use Rattle.problem_model.specs.declared.part.Part.{Part};
ghost use Rattle.problem_model.specs.Parts.{changes_of};
ghost use Rattle.problem_model.specs.Problems.{IsSparse};
ghost use Rattle.problem_model.specs.Programs.{IsProblemOf, written_program};
ghost use Rattle.problem_model.specs.Sparse.{Sparse};
ghost use Rattle.presolve_model.specs.declared.conclusion.End.{End};
ghost use Rattle.presolve_model.specs.declared.conclusion.Options.{Options};
ghost use Rattle.presolve_model.specs.declared.instance.Reduction.{Reduction};
ghost use Rattle.presolve_model.specs.declared.instance.Verdict.{Verdict};
ghost use Rattle.presolve_model.specs.Accounts.{Walked};
ghost use Rattle.presolve_model.specs.Conclusions.{Concluded, Decided};
ghost use Rattle.presolve_model.specs.Ledger.{Ledger, Stands};
ghost use Rattle.presolve_model.specs.Ordered.{Committed, options_of, Ordered, round_list, RunsTo};
ghost use Rattle.presolve_model.specs.Stuck.{enabled_reductions, IsUndecided};
ghost use Rattle.presolve_model.specs.Tallies.{Open, tightenings};
ghost use Rattle.presolve_model.specs.Telling.{IsToldOf};
ghost use Rattle.presolve_model.specs.Workers.{IsInOrder, Workers};

/// A program has one problem, and a run from a book leads to one end and one book at most.
pub fn runs_are_one()
    ensures problem { (program : ProgramData) (p q : Sparse) → IsProblemOf program p → IsProblemOf program q → p ≡ q }
    ensures run { (b c d : Ledger) (e f : Option End) → Ordered b e c → Ordered b f d → (e ≡ f) × (c ≡ d) }
{}

/// What is concluded of a program, with the same options, by workers whose runs are in order, is one: the reduced program, the records and
/// the end, or the history and its verdict; and never both. How many workers there are makes no difference.
pub fn conclusions_are_one()
    ensures reduced { (options : Options) (v w : Workers) (program r s : ProgramData) (t u : Postsolve) (e f : End) → IsInOrder v → IsInOrder w → Concluded options v program r t e → Concluded options w program s u f → (r ≡ s) × (t ≡ u) × (e ≡ f) }
    ensures decided { (options : Options) (v w : Workers) (program : ProgramData) (h k : List Reduction) (x y : Verdict) → IsInOrder v → IsInOrder w → Decided options v program h x → Decided options w program k y → (h ≡ k) × (x ≡ y) }
    ensures apart { (options : Options) (v w : Workers) (program r : ProgramData) (t : Postsolve) (e : End) (h : List Reduction) (x : Verdict) → IsInOrder v → IsInOrder w → Concluded options v program r t e → Decided options w program h x → ⊥ }
{}

/// What a book that was opened with a program's problem says of the program: what is told of it walks, each record has its transaction, the written program is sparse and
/// can be written, and with a verdict, where a run that is in order ended so, the program is decided.
pub fn books_tell()
    ensures walked { (dual : Bool) (program : ProgramData) (b : Ledger) (told : Postsolve) → IsProblemOf program b.start → Stands b → IsToldOf dual program b told → Walked b.numbers program (written_program program b.problem) told }
    ensures sound { (dual : Bool) (program : ProgramData) (b : Ledger) (told : Postsolve) → IsProblemOf program b.start → Stands b → IsToldOf dual program b told → AreSound told }
    ensures told { (dual : Bool) (program : ProgramData) (b : Ledger) (told : Postsolve) → IsProblemOf program b.start → Stands b → IsToldOf dual program b told → AreTold told }
    ensures ascends { (program : ProgramData) (b : Ledger) → IsProblemOf program b.start → Stands b → EntriesAscend (written_program program b.problem) }
    ensures writable { (program : ProgramData) (b : Ledger) → Writable b.numbers program → IsProblemOf program b.start → Stands b → IsUndecided b.problem → Writable b.numbers (written_program program b.problem) }
    ensures decided { (dual : Bool) (workers : Workers) (program : ProgramData) (b : Ledger) (v : Verdict) → IsProblemOf program b.start → Stands b → b.verdict ≡ Some v → (IsInOrder workers → RunsTo (options_of dual b) program None b) → Decided (options_of dual b) workers program b.history v }
{}

/// No part of a program's problem has changed yet.
pub fn programs_have_not_changed()
    ensures { (program : ProgramData) (p : Sparse) → IsProblemOf program p → (a : Part) → changes_of p a ≡ 0 }
{}

/// No side of a column is tightened more than ten times by a run in order: of the records of the book with which it ends, no more than ten are
/// those of tightened bounds on it. The limit fits its type, as each limit does.
pub fn bounds_are_tightened_ten_times_at_most()
    ensures { (options : Options) (program : ProgramData) (ended : End) (b : Ledger) → options.limit < 2 ^ 64 → RunsTo options program (Some ended) b → (j : ℕ) (side : Side) → tightenings b.records j side ≤ 10 }
{}

/// From a book that stands on, whatever was done to it before: where no side of a column was tightened more than ten times, none is by a
/// round in order, nor by a run in order to its end.
pub fn tightenings_stay_few()
    ensures round { (b c : Ledger) → Stands b → b.limit < 2 ^ 64 → ((j : ℕ) (side : Side) → tightenings b.records j side ≤ 10) → Committed b (round_list b) c → (j : ℕ) (side : Side) → tightenings c.records j side ≤ 10 }
    ensures run { (b c : Ledger) (ended : End) → Stands b → b.limit < 2 ^ 64 → ((j : ℕ) (side : Side) → tightenings b.records j side ≤ 10) → Ordered b (Some ended) c → (j : ℕ) (side : Side) → tightenings c.records j side ≤ 10 }
{}

/// The open reductions that are enabled on a problem stand once in the list that `skipped` counts.
pub fn skipped_are_counted_once()
    ensures { (opens : Open) (p : Sparse) → IsSparse p → AllPairs (λ e f. e ≢ f) (enabled_reductions opens p) }
{}
