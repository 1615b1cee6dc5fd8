//! Passes, and the rounds that they are.

ghost use Rattle.std.specs.Prelude.{◌≡◌, ℕ, ◌<◌, true, List, [], ◌∷◌, ◌++◌, length, None};
ghost use Rattle.std.specs.List.{Contains, filter};
ghost use Rattle.problem_model.specs.declared.part.Part.{Part};
ghost use Rattle.problem_model.specs.Reading.{Agrees};
ghost use Rattle.problem_model.specs.Sparse.{Sparse};
ghost use Rattle.presolve_model.specs.declared.instance.Instance.{Instance};
ghost use Rattle.presolve_model.specs.declared.instance.Rule.{Rule};
ghost use Rattle.presolve_model.specs.declared.outcome.Outcome.{Outcome};
ghost use Rattle.presolve_model.specs.Commits.{Allows, left_by};
ghost use Rattle.presolve_model.specs.Enabled.{enabled_on};
ghost use Rattle.presolve_model.specs.Given.{Proposed};
ghost use Rattle.presolve_model.specs.Instances.{instances_from, reach_of, rule_at, shares_reading};
ghost use Rattle.presolve_model.specs.Ledger.{instance_count, Ledger};
ghost use Rattle.presolve_model.specs.Ordered.{Committed, round_list};
ghost use Rattle.presolve_model.specs.Scans.{proposal_of};
ghost use Rattle.presolve_model.specs.Stuck.{Stuck};
ghost use Rattle.presolve_model.specs.Tables.{heads};
ghost use Rattle.presolve_model.specs.Tallies.{Open, open_on};
ghost use Rattle.place_laws.specs.Choosing.{AreSorted, Around, IsComplete, visited};
ghost use Rattle.place_laws.specs.Marks.{Grows, IsNoted, Marks, parts_for};
ghost use Rattle.place_laws.specs.Standing.{IsFresh};
ghost use Rattle.round_laws.specs.Passing.{Follows, Passed, ReadAlike};
ghost use Rattle.round_laws.specs.Turning.{MetIsPassed, OthersArePassed, PassMarksAll, RestIsPassed, SleeperIsPassed};

/// A stale proposal changes nothing. What is fresh is answered as its instance's reading of the present problem is.
pub fn commits_are_met()
    ensures stale { (b : Ledger) (p : Proposed) (o : Outcome) → (Agrees b.problem p.reading → ⊥) → Allows b p o → left_by b 0 p o ≡ b }
    ensures fresh { (f : Sparse) (b : Ledger) (e : Instance) (v w : ℕ) (o : Outcome) → IsFresh f b.problem e → Allows b (proposal_of b.problem w e) o → Allows b (proposal_of f v e) o }
{}

/// An instance at its turn: where it is not enabled nothing is done; where it is stale it is marked; else it is committed on the present
/// problem, and what changes is noted, and stirred or roused where what is seen of it lets more, with a part that it reads. Where it is refused for a
/// number, and such a refusal rests on what it reads, it may be put to sleep in place of that. Those of a rule's instances with a first id are
/// met that are enabled on the present problem. Where each part that has changed since the round began is noted, those may be left out that were
/// not enabled then. While the problem is still the one with which the round began, a pass over those that are enabled is one over all. Passes
/// follow one after another.
pub fn turns_pass()
    ensures over { (opens : Open) (f : Sparse) (v : ℕ) (e : Instance) (n : Marks) (b : Ledger) → Follows opens f b → (enabled_on b.problem e ≡ true → ⊥) → Passed opens f v (e ∷ []) n b n b }
    ensures stale { (opens : Open) (f : Sparse) (v : ℕ) (n m : Marks) (b : Ledger) (e : Instance) (a : Part) → Follows opens f b → (IsFresh f b.problem e → ⊥) → Grows n m → Contains (heads e) a → Contains (parts_for m (reach_of (rule_at e))) a → Passed opens f v (e ∷ []) n b m b }
    ensures met { MetIsPassed }
    ensures asleep { SleeperIsPassed }
    ensures found { (opens : Open) (f : Sparse) (v : ℕ) (r : Rule) (k : ℕ) (n m : Marks) (b c : Ledger) → Follows opens f b → Passed opens f v (filter (enabled_on b.problem) (instances_from (open_on b.tally) b.problem r k)) n b m c → Passed opens f v (instances_from opens f r k) n b m c }
    ensures beside { RestIsPassed }
    ensures listed { (opens : Open) (f : Sparse) (v : ℕ) (es : List Instance) (n m : Marks) (b c : Ledger) → b.problem ≡ f → Passed opens f v (filter (enabled_on f) es) n b m c → Passed opens f v es n b m c }
    ensures more { (opens : Open) (f : Sparse) (v : ℕ) (es fs : List Instance) (n m k : Marks) (b c d : Ledger) → Passed opens f v es n b m c → Passed opens f v fs m c k d → Passed opens f v (es ++ fs) n b k d }
{}

/// Instances that read the same parts. Where the first of them is stale all are, and they are marked with one part that it reads; where a part
/// that it reads is noted they are marked as they are. Where it is fresh each is. The first one that is applied changes a part that the others read, so that they are stale, and marked, as that is noted.
/// The instances of a rule with a first id read the same parts, where they share their reading.
pub fn rows_are_met()
    ensures stale { (opens : Open) (f : Sparse) (v : ℕ) (n m : Marks) (b : Ledger) (e : Instance) (es : List Instance) (a : Part) → Follows opens f b → (IsFresh f b.problem e → ⊥) → ReadAlike e es → Grows n m → Contains (heads e) a → Contains m.noted a → Passed opens f v es n b m b }
    ensures noted { (opens : Open) (f : Sparse) (v : ℕ) (m : Marks) (b : Ledger) (e : Instance) (es : List Instance) → Follows opens f b → (IsFresh f b.problem e → ⊥) → ReadAlike e es → IsNoted b.problem m.noted e → Passed opens f v es m b m b }
    ensures fresh { (f p : Sparse) (e x : Instance) (es : List Instance) → ReadAlike e es → Contains es x → IsFresh f p e → IsFresh f p x }
    ensures stopped { OthersArePassed }
    ensures alike { (opens : Open) (p : Sparse) (r : Rule) (k : ℕ) (e : Instance) (es : List Instance) → shares_reading r ≡ true → Contains (instances_from opens p r k) e → ((x : Instance) → Contains es x → Contains (instances_from opens p r k) x) → ReadAlike e es }
{}

/// A pass over rows and columns where each enabled instance is that does not sleep commits what a round lists, with those that sleep. After
/// it each enabled instance is marked, if the run goes on: it reads a part that is noted, or sleeps.
pub fn passes_are_rounds()
    ensures round { (b c : Ledger) (n : Around) (k m : Marks) → AreSorted n → IsComplete b.numbers (open_on b.tally) b.problem n k.asleep → Passed (open_on b.tally) b.problem (instance_count b) (visited (open_on b.tally) b.problem n) k b m c → Committed b (round_list b) c }
    ensures marked { PassMarksAll }
{}

/// A round that applied nothing leaves the book as it was, and nothing can be applied there.
pub fn rounds_come_to_an_end()
    ensures { (b c : Ledger) → b.verdict ≡ None → length b.history < b.limit → Committed b (round_list b) c → c.verdict ≡ None → length c.history ≡ length b.history → (c ≡ b) × Stuck b.numbers (open_on b.tally) b.problem }
{}
