//! What histories keep and mean.

ghost use Rattle.std.specs.Prelude.{◌≡◌, ℕ, List, [], ◌∷◌, ◌++◌, length, All, Option};
ghost use Rattle.fractions.specs.declared.Numbers.{Numbers};
ghost use Rattle.lp_model.specs.Meaning.{meaning};
ghost use Rattle.lp_model.specs.Optimality.{Continuous};
ghost use Rattle.lp_model.specs.ProgramData.{ProgramData};
ghost use Rattle.lp_model.specs.Writable.{EntriesAscend};
ghost use Rattle.undo_records.specs.Postsolve.{Postsolve};
ghost use Rattle.undo_records.specs.Sound.{IsSound};
ghost use Rattle.undo_records.specs.Walk.{AreSound, Walks};
ghost use Rattle.presolve_model.specs.declared.instance.Instance.TheVariants as at;
ghost use Rattle.presolve_model.specs.declared.instance.Reduction.{Reduction};
ghost use Rattle.presolve_model.specs.declared.outcome.Outcome.{Outcome};
ghost use Rattle.presolve_model.specs.Accounts.{ReducesPairsTo, ReducesTo, Walked};
ghost use Rattle.presolve_model.specs.Changes.{changed};
ghost use Rattle.presolve_model.specs.Commits.{Allows, left_by};
ghost use Rattle.presolve_model.specs.Enabled.{Enabled};
ghost use Rattle.problem_model.specs.Flags.{flags_of};
ghost use Rattle.presolve_model.specs.Given.{Proposed};
ghost use Rattle.presolve_model.specs.Laws.{HistoryReduces, HistoryReducesPairs, VerdictMeans};
ghost use Rattle.presolve_model.specs.Ledger.{Ledger, Stands};
ghost use Rattle.problem_model.specs.Problems.{IsSparse};
ghost use Rattle.presolve_model.specs.Tables.{record_of};
ghost use Rattle.presolve_model.specs.Replay.{CanApply, records, replay, Replays};
ghost use Rattle.problem_model.specs.Sparse.{Sparse};
ghost use Rattle.presolve_model.specs.Transactions.{numbers_along, numbers_read};
ghost use Rattle.presolve_model.specs.Worlds.{AreProposals, Happening, opened, Runs, State};
ghost use Rattle.problem_model.specs.Writing.{IsWritable};
ghost use Rattle.history_laws.specs.Meanings.{Means};

/// A history reduces the linear program that is shown, with duals too where no column is whole, and a verdict after it means before it what it
/// says.
pub fn histories_reduce()
    ensures reduces { HistoryReduces }
    ensures pairs { HistoryReducesPairs }
    ensures verdict { VerdictMeans }
{}

/// What a history keeps of a problem, and what its records are: sound, and a walk from what was live to what is.
pub fn histories_keep()
    ensures sound { (numbers : Numbers) (p : Sparse) (rs : List Reduction) → IsSparse p → Replays numbers p rs → IsSparse (replay p rs) }
    ensures writable { (numbers : Numbers) (p : Sparse) (rs : List Reduction) → IsSparse p → IsWritable numbers p → Replays numbers p rs → IsWritable numbers (replay p rs) }
    ensures rows { (p : Sparse) (rs : List Reduction) → length (replay p rs).matrix.rows ≡ length p.matrix.rows }
    ensures columns { (p : Sparse) (rs : List Reduction) → length (replay p rs).matrix.columns ≡ length p.matrix.columns }
    ensures constant { (p : Sparse) (rs : List Reduction) → (replay p rs).constant ≡ p.constant }
    ensures records { (numbers : Numbers) (p : Sparse) (rs : List Reduction) → IsSparse p → Replays numbers p rs → All (IsSound (length p.matrix.rows) (length p.matrix.columns)) (records p rs) × Walks (flags_of p) (records p rs) (flags_of (replay p rs)) }
{}

/// One reduction more at the end of a history.
pub fn histories_grow()
    ensures replay { (p : Sparse) (rs : List Reduction) (r : Reduction) → replay p (rs ++ r ∷ []) ≡ changed r (replay p rs) }
    ensures records { (p : Sparse) (rs : List Reduction) (r : Reduction) → records p (rs ++ r ∷ []) ≡ records p rs ++ record_of r (replay p rs) ∷ [] }
    ensures numbers { (p : Sparse) (rs : List Reduction) (r : Reduction) → numbers_along p (rs ++ r ∷ []) ≡ numbers_along p rs ++ numbers_read (replay p rs) (at.Reduction r) ∷ [] }
    ensures replays { (numbers : Numbers) (p : Sparse) (rs : List Reduction) (r : Reduction) → Replays numbers p rs → CanApply numbers (replay p rs) r → Replays numbers p (rs ++ r ∷ []) }
{}

/// What a book that stands means, and that each commit keeps it standing, whatever it answers.
pub fn books_stand()
    ensures means { (b : Ledger) → Stands b → Means b }
    ensures commits { (b : Ledger) (w : ℕ) (p : Proposed) (o : Outcome) → Stands b → Enabled p.instance p.reading → Allows b p o → Stands (left_by b w p o) }
{}

/// What was walked reduces the program as the records and the offset say, with duals too where no column has to be whole or is
/// semi-continuous, and the records are sound.
pub fn walks_reduce()
    ensures reduces { (numbers : Numbers) (program reduced : ProgramData) (told : Postsolve) → EntriesAscend program → Walked numbers program reduced told → ReducesTo program reduced told }
    ensures pairs { (numbers : Numbers) (program reduced : ProgramData) (told : Postsolve) → Walked numbers program reduced told → told.sense ≡ program.sense → Continuous (meaning program) → ReducesPairsTo program reduced told }
    ensures sound { (numbers : Numbers) (program reduced : ProgramData) (told : Postsolve) → Walked numbers program reduced told → AreSound told }
{}

/// Whatever workers freeze, propose and commit, in any order: the book stands on the problem that it was opened with, and means what it says.
pub fn worlds_stand()
    ensures { (b : Ledger) (hs : List (Happening × Option Outcome)) (t : State) → Stands b → AreProposals hs → Runs (opened b) hs t → Stands t.book × (t.book.start ≡ b.start) × Means t.book }
{}
