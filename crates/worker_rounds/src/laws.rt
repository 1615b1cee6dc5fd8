//! Laws of rounds of workers.

ghost use Rattle.std.specs.Prelude.{◌≡◌, ℕ, ◌<◌, ◌^◌, true, List, All, length, Ok};
ghost use Rattle.shared_book.specs.declared.call.Call.TheVariants.{Freeze};
ghost use Rattle.shared_book.specs.History.{HasFrozen, Known, Shared};
ghost use Rattle.place_laws.specs.Choosing.{Around, HasEach};
ghost use Rattle.presolve_model.specs.Ledger.{Ledger, Stands};
ghost use Rattle.presolve_model.specs.Tallies.{open_on};
ghost use Rattle.presolve_model.specs.Worlds.{Version};
ghost use Rattle.round_marks.specs.Marking.{Watched};
ghost use Rattle.round_tasks.specs.Cutting.{AreTasksOf, TaskList};
ghost use Rattle.book_turns.specs.Turns.{IsCalled, Turn};
ghost use Rattle.worker_rounds.specs.Marking.{AreAllLeft, IsLater, LeavesFound};
ghost use Rattle.worker_rounds.specs.Workers.{HasFound, IsDone, WorkerData};

/// Where all tasks of a round are done, and no chunk was left out, all that was enabled and open on its version was found; so where a part of
/// each that workers found is marked, one of each is.
pub fn rounds_mark_all()
    ensures { (v : Version) (n : Around) (t : TaskList) (ws : List WorkerData) (w u : Watched) → HasEach (open_on v.tally) v.problem n → AreTasksOf v n t → t.whole ≡ true → ((i : ℕ) → i < length t.tasks → IsDone ws i) → All (λ x. HasFound v t.tasks x.1) ws → LeavesFound ws w u → AreAllLeft v u.marks }
{}

/// Of two freezes of a pass the later one gives a version of the book that later calls left.
pub fn freezes_in_turn()
    ensures { (s : Shared Ledger) (p q : Known Ledger Turn) (v w : Version) → Stands s.start → s.start.limit < 2 ^ 64 → HasFrozen p v → IsCalled s p (Freeze (Ok w)) q → IsLater v w }
{}
