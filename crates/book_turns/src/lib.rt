//! Laws of the calls of a shared book: what a legal history of freezes and commits tells of the book, whatever their order and however many
//! workers make them.
#![tactic(auto)]

ghost use Rattle.std.specs.Prelude.{◌≡◌, ℕ, ◌<◌, ◌≤◌, ◌^◌, true, List, [], ◌∷◌, ◌++◌, All, Ok};
ghost use Rattle.shared_book.specs.declared.call.Call.TheVariants.{Commit, Freeze};
ghost use Rattle.shared_book.specs.History.{HasFrozen, Known, Shared};
ghost use Rattle.undo_records.specs.declared.side.Side.{Side};
ghost use Rattle.presolve_model.specs.declared.instance.Instance.{Instance};
ghost use Rattle.presolve_model.specs.declared.instance.Rule.{Rule};
ghost use Rattle.presolve_model.specs.declared.outcome.Outcome.TheVariants.{Applied};
ghost use Rattle.presolve_model.specs.Enabled.{enabled_on};
ghost use Rattle.presolve_model.specs.Given.{Proposed};
ghost use Rattle.presolve_model.specs.Instances.{is_open};
ghost use Rattle.presolve_model.specs.Ledger.{Ledger, Stands};
ghost use Rattle.presolve_model.specs.Scans.{found_in, proposal_of};
ghost use Rattle.presolve_model.specs.Tallies.{open_on, tightenings};
ghost use Rattle.presolve_model.specs.Worlds.{Version, version_of};
ghost use Rattle.txn_book.specs.Sharing.{IsFrom};
ghost use Rattle.book_turns.specs.Turns.{GoesOn, IsCalled, IsHistory, IsPass, left_of, StandsAt, Turn};

pub use txn_book;

/// A legal history leaves a book that stands, that was opened as the one before, and whose history goes on from there.
pub fn shared_books_stand()
    ensures { (b : Ledger) (cs : List Turn) → Stands b → IsHistory b cs → GoesOn b (left_of b cs) }
{}

/// A pass has frozen the version that its freeze gave, and each that it had frozen before its last call.
pub fn passes_remember()
    ensures frozen { (s : Shared Ledger) (p q : Known Ledger Turn) (v : Version) → IsCalled s p (Freeze (Ok v)) q → HasFrozen q v }
    ensures kept { (s : Shared Ledger) (p q : Known Ledger Turn) (c : Turn) (v : Version) → IsCalled s p c q → HasFrozen p v → HasFrozen q v }
{}

/// What a pass may commit: each instance that is enabled and open on a version that it froze, as it is read there, however far the book that it
/// has seen has gone on since. So what a scan of that version lists may be committed.
pub fn found_are_taken()
    ensures each { (s : Shared Ledger) (p : Known Ledger Turn) (v : Version) (e : Instance) → Stands s.start → IsPass s p → HasFrozen p v → enabled_on v.problem e ≡ true → is_open (open_on v.tally) e ≡ true → IsFrom (left_of s.start p.seen) (proposal_of v.problem v.applied e) }
    ensures scanned { (s : Shared Ledger) (p : Known Ledger Turn) (v : Version) (r : Rule) (chunk : ℕ) → Stands s.start → IsPass s p → HasFrozen p v → All (IsFrom (left_of s.start p.seen)) (found_in (open_on v.tally) v.problem v.applied r chunk) }
{}

/// A commit that was answered `Applied` stands at the place that it was told, from its turn on. A freeze gives the book that the calls before it
/// leave. So a freeze behind such a commit shows it.
pub fn turns_are_kept()
    ensures applied { (b : Ledger) (cs ds : List Turn) (w k : ℕ) (p : Proposed) → Stands b → IsHistory b (cs ++ Commit w p (Applied k) ∷ ds) → StandsAt (left_of b (cs ++ Commit w p (Applied k) ∷ ds)) k p.instance }
    ensures frozen { (b : Ledger) (cs ds : List Turn) (v : Version) → IsHistory b (cs ++ Freeze (Ok v) ∷ ds) → v ≡ version_of (left_of b cs) }
{}

/// No side of a column is tightened more than ten times, whichever workers commit that and in whichever order. The limit fits its type, as
/// each limit does.
pub fn tightenings_are_few()
    ensures { (b : Ledger) (cs : List Turn) → Stands b → b.limit < 2 ^ 64 → ((j : ℕ) (side : Side) → tightenings b.records j side ≤ 10) → IsHistory b cs → (j : ℕ) (side : Side) → tightenings (left_of b cs).records j side ≤ 10 }
{}
