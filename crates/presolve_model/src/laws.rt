//! Laws of the tables over the rules. No rule is named here.

ghost use Rattle.std.specs.Prelude.{◌≡◌, ℕ, ◌+◌, ◌-◌, ◌^◌, ◌<◌, ◌≤◌, false, true, All, List, [], ◌∷◌, ◌++◌, length, map};
ghost use Rattle.std.specs.List.{Contains};
ghost use Rattle.fractions.specs.Number.{Number, ◌+ℚ◌};
ghost use Rattle.fractions.specs.declared.Numbers.{Numbers};
ghost use Rattle.lp_model.specs.declared.program.Sense.{Sense};
ghost use Rattle.lp_model.specs.declared.program.Sense.TheVariants.{Min};
ghost use Rattle.lp_model.specs.LinearProgram.{LinearProgram};
ghost use Rattle.lp_model.specs.Optimality.{Continuous};
ghost use Rattle.rule_words.specs.Ray.{StepsBack};
ghost use Rattle.rule_words.specs.StepBack.{weighed_in};
ghost use Rattle.lp_model.specs.Reductions.{Reduces, ReducesPairs};
ghost use Rattle.lp_model.specs.Vectors.{Vector};
ghost use Rattle.lp_model.specs.Turning.{minimizing};
ghost use Rattle.undo_records.specs.declared.undo.Undo.{Undo};
ghost use Rattle.undo_records.specs.Lift.{undone};
ghost use Rattle.undo_records.specs.Sound.{IsSound};
ghost use Rattle.undo_records.specs.Walk.{NamesLive, after};
ghost use Rattle.undo_pairs.specs.LiftPair.{undone_pair};
ghost use Rattle.problem_model.specs.declared.part.Part.{Part};
ghost use Rattle.problem_model.specs.declared.part.Read.{Read};
ghost use Rattle.problem_model.specs.Flags.{flags_of};
ghost use Rattle.problem_model.specs.Parts.{changes_of};
ghost use Rattle.problem_model.specs.Problems.{IsSparse};
ghost use Rattle.problem_model.specs.Raised.{risen};
ghost use Rattle.problem_model.specs.Reading.{Agrees};
ghost use Rattle.problem_model.specs.Showing.{shown};
ghost use Rattle.problem_model.specs.Sparse.{Sparse};
ghost use Rattle.problem_model.specs.Writing.{IsWritable};
ghost use Rattle.edit_laws.specs.Sizes.{SameSize};
ghost use Rattle.edit_laws.specs.Telling.{IsCounted, IsTold};
ghost use Rattle.presolve_model.specs.declared.instance.Instance.{Instance};
ghost use Rattle.presolve_model.specs.declared.instance.Instance.TheVariants as at;
ghost use Rattle.presolve_model.specs.declared.instance.Reduction.{Reduction};
ghost use Rattle.presolve_model.specs.declared.instance.Verdict.{Verdict};
ghost use Rattle.presolve_model.specs.Changes.{added, changed, ChangeFits, ChangeIsWritten};
ghost use Rattle.presolve_model.specs.Enabled.{Enabled, enabled_on, reading_of, reads};
ghost use Rattle.presolve_model.specs.Instances.{goes_by_form, instances_from, is_open, lets_by, reach_of, rests_on_reading, rule_at, rule_of, shares_reading, tallied};
ghost use Rattle.presolve_model.specs.declared.instance.Rule.{Rule};
ghost use Rattle.dual_laws.specs.Forms.{EachLets, seen_at};
ghost use Rattle.presolve_model.specs.Meanings.{Meant};
ghost use Rattle.presolve_model.specs.Order.{reduction_order, verdict_order};
ghost use Rattle.presolve_model.specs.Replay.{CanApply, replay, Replays};
ghost use Rattle.presolve_model.specs.Scans.{all_ids, listed, proposal_of};
ghost use Rattle.presolve_model.specs.Stuck.{skipped_on};
ghost use Rattle.presolve_model.specs.Tables.{record_of};
ghost use Rattle.presolve_model.specs.Transactions.{numbers_read, told_of};
ghost use Rattle.presolve_model.specs.Tallies.{AreCountsOf, Counts, IsTally, no_counts, Open, open_by, open_on};

/// Each reduction that is enabled reduces the linear program that is shown, undone by its record, and adds to the cost what it says.
pub fn reductions_reduce()
    ensures shows { (p : Sparse) (r : Reduction) → IsSparse p → enabled_on p (at.Reduction r) ≡ true → Reduces Min (shown p) (shown (changed r p)) (undone (record_of r p)) (added r p) }
    ensures offset { (p : Sparse) (r : Reduction) → (changed r p).offset ≡ p.offset +ℚ added r p }
{}

/// Where no column is whole, each reduction that is enabled keeps it so, and its record undoes what meets the optimality conditions after it to
/// what meets them before.
pub fn reductions_keep_pairs()
    ensures pairs { (p : Sparse) (r : Reduction) → IsSparse p → enabled_on p (at.Reduction r) ≡ true → Continuous (shown p) → ReducesPairs Min (shown p) (shown (changed r p)) (undone_pair (record_of r p)) }
    ensures continuous { (p : Sparse) (r : Reduction) → IsSparse p → enabled_on p (at.Reduction r) ≡ true → Continuous (shown p) → Continuous (shown (changed r p)) }
{}

/// Where no column is whole, what undoing the record of a reduction that is enabled makes of the weights of a ray has their total, and is one of
/// the problem before.
pub fn reductions_take_rays_back()
    ensures { (p : Sparse) (r : Reduction) → IsSparse p → enabled_on p (at.Reduction r) ≡ true → Continuous (shown p) → StepsBack (shown p) (shown (changed r p)) (weighed_in (record_of r p) (shown (changed r p))) }
{}

/// Each reduction that is enabled keeps what is asked of a problem; and that it can be written, where its numbers have room and can be.
pub fn reductions_keep_problems()
    ensures sound { (p : Sparse) (r : Reduction) → IsSparse p → enabled_on p (at.Reduction r) ≡ true → IsSparse (changed r p) }
    ensures size { (p : Sparse) (r : Reduction) → SameSize p (changed r p) }
    ensures writable { (numbers : Numbers) (p : Sparse) (r : Reduction) → IsSparse p → IsWritable numbers p → enabled_on p (at.Reduction r) ≡ true → ChangeFits r p → ChangeIsWritten numbers r p → IsWritable numbers (changed r p) }
{}

/// With each reduction that is enabled, the number of a part rises by one where the reduction changed what the part holds, and stays where
/// it did not.
pub fn reductions_are_counted()
    ensures { (p : Sparse) (r : Reduction) (a : Part) → IsSparse p → enabled_on p (at.Reduction r) ≡ true → IsCounted p (changed r p) a }
{}

/// The record of a reduction that is enabled is sound, names what is live, and deletes what the reduction deletes.
pub fn records_are_sound()
    ensures sound { (p : Sparse) (r : Reduction) → IsSparse p → enabled_on p (at.Reduction r) ≡ true → IsSound (length p.matrix.rows) (length p.matrix.columns) (record_of r p) }
    ensures live { (p : Sparse) (r : Reduction) → IsSparse p → enabled_on p (at.Reduction r) ≡ true → NamesLive (flags_of p) (record_of r p) }
    ensures flags { (p : Sparse) (r : Reduction) → IsSparse p → enabled_on p (at.Reduction r) ≡ true → flags_of (changed r p) ≡ after (record_of r p) (flags_of p) }
{}

/// A verdict that is enabled means what it says of the linear program that is shown; before reductions it means the same, and of a program
/// in its own sense too.
pub fn verdicts_mean()
    ensures here { (p : Sparse) (v : Verdict) → IsSparse p → enabled_on p (at.Verdict v) ≡ true → Meant v Min (shown p) }
    ensures before { (v : Verdict) (M R : LinearProgram) (f : Vector → Vector) (k : Number) → Reduces Min M R f k → Meant v Min R → Meant v Min M }
    ensures in_sense { (v : Verdict) (d : Sense) (M : LinearProgram) → Meant v Min (minimizing d M) → Meant v d M }
{}

/// What is enabled on a reading is enabled on each problem that agrees with it, and reads of that problem what was read, with its numbers.
pub fn agreeing_readings_enable()
    ensures enabled { (p : Sparse) (e : Instance) (rs : List Read) → Agrees p rs → Enabled e rs → enabled_on p e ≡ true }
    ensures told { (p : Sparse) (e : Instance) (rs : List Read) → Agrees p rs → Enabled e rs → numbers_read p e ≡ map told_of rs }
{}

/// Where the refusals of a rule rest on what its instances read: where an enabled one reads the same on two problems, its numbers have room
/// on both or on neither, and can be written on both or on neither; so it can be applied on both or on neither.
pub fn refusals_rest_on_readings()
    ensures fits { (p q : Sparse) (r : Reduction) → rests_on_reading (rule_of r) ≡ true → enabled_on p (at.Reduction r) ≡ true → reading_of q (at.Reduction r) ≡ reading_of p (at.Reduction r) → ChangeFits r q → ChangeFits r p }
    ensures written { (numbers : Numbers) (p q : Sparse) (r : Reduction) → rests_on_reading (rule_of r) ≡ true → enabled_on p (at.Reduction r) ≡ true → reading_of q (at.Reduction r) ≡ reading_of p (at.Reduction r) → ChangeIsWritten numbers r q → ChangeIsWritten numbers r p }
    ensures applied { (numbers : Numbers) (p q : Sparse) (r : Reduction) → rests_on_reading (rule_of r) ≡ true → reading_of q (at.Reduction r) ≡ reading_of p (at.Reduction r) → CanApply numbers q r → CanApply numbers p r }
{}

/// Of a rule that looks at the form of ends alone: where of each part that an instance reads the entries are the same on q as on p, and the
/// form on q lets what it lets on p, it reads the same parts on q, and is enabled there if it is on p; and no refusal of such a rule rests on
/// what is read alone.
pub fn forms_decide()
    ensures parts { (p q : Sparse) (e : Instance) → goes_by_form (reach_of (rule_at e)) ≡ true → EachLets (lets_by (reach_of (rule_at e))) (map (seen_at p) (reads p e)) (map (seen_at q) (reads p e)) → reads q e ≡ reads p e }
    ensures enabled { (p q : Sparse) (e : Instance) → goes_by_form (reach_of (rule_at e)) ≡ true → EachLets (lets_by (reach_of (rule_at e))) (map (seen_at p) (reads p e)) (map (seen_at q) (reads p e)) → enabled_on p e ≡ true → enabled_on q e ≡ true }
    ensures awake { (r : Rule) → rests_on_reading r ≡ true → goes_by_form (reach_of r) ≡ false }
{}

/// Where the instances of a rule with a first id share their reading, they read the same parts of each problem, and look at what these hold.
/// One that is applied changes a part that it reads, which all the others read.
pub fn rows_are_read_once()
    ensures alike { (opens : Open) (p s : Sparse) (r : Rule) (k : ℕ) (x y : Instance) → shares_reading r ≡ true → Contains (instances_from opens p r k) x → Contains (instances_from opens p r k) y → reads s x ≡ reads s y }
    ensures by_value { (opens : Open) (p : Sparse) (r : Rule) (k : ℕ) (x : Instance) → shares_reading r ≡ true → Contains (instances_from opens p r k) x → goes_by_form (reach_of (rule_at x)) ≡ false }
    ensures rises { (p : Sparse) (r : Reduction) → IsSparse p → shares_reading (rule_of r) ≡ true → enabled_on p (at.Reduction r) ≡ true → (a : Part) × Contains (reads p (at.Reduction r)) a × (changes_of (changed r p) a ≡ risen (changes_of p a)) }
{}

/// A look at all first ids lists each enabled instance that is open with its reading, and as many reductions as are enabled and open.
pub fn looks_list_all()
    ensures reductions { (opens : Open) (p : Sparse) (v : ℕ) (r : Reduction) → is_open opens (at.Reduction r) ≡ true → enabled_on p (at.Reduction r) ≡ true → Contains (listed opens p v (all_ids p) reduction_order) (proposal_of p v (at.Reduction r)) }
    ensures verdicts { (opens : Open) (p : Sparse) (v : ℕ) (w : Verdict) → enabled_on p (at.Verdict w) ≡ true → Contains (listed opens p v (all_ids p) verdict_order) (proposal_of p v (at.Verdict w)) }
    ensures skipped { (opens : Open) (p : Sparse) (v : ℕ) → length (listed opens p v (all_ids p) reduction_order) ≡ skipped_on opens p }
{}

/// The counts of how often bounds were tightened are those of the records, up to ten: with each reduction that is enabled, and at first. So
/// the same bounds may be tightened by the counts as by the records.
pub fn tallies_follow_records()
    ensures first { (n : ℕ) → AreCountsOf n (no_counts n) × IsTally (no_counts n) [] }
    ensures more { (p : Sparse) (r : Reduction) (c : Counts) (us : List Undo) → enabled_on p (at.Reduction r) ≡ true → AreCountsOf (length p.matrix.columns) c → IsTally c us → IsTally (tallied r c) (us ++ record_of r p ∷ []) }
    ensures columns { (r : Reduction) (c : Counts) (n : ℕ) → AreCountsOf n c → AreCountsOf n (tallied r c) }
    ensures same { (c : Counts) (us : List Undo) → IsTally c us → open_on c ≡ open_by us }
{}

/// Along a history numbers alone decide: where the number of a part is what it was, and not at the end of its type, the part holds what it
/// did; where that is so of each part that an instance reads, the instance reads what it did, and is enabled where it was. And no number rises
/// by more than there were reductions.
pub fn numbers_decide()
    ensures told { (numbers : Numbers) (p : Sparse) (rs : List Reduction) (a : Part) → IsSparse p → Replays numbers p rs → IsTold p (replay p rs) a }
    ensures same { (numbers : Numbers) (p : Sparse) (rs : List Reduction) (e : Instance) → IsSparse p → Replays numbers p rs → All (λ a. (changes_of p a < 2 ^ 64 - 1) × (changes_of (replay p rs) a ≡ changes_of p a)) (reads p e)
        → (reading_of (replay p rs) e ≡ reading_of p e) × (enabled_on (replay p rs) e ≡ enabled_on p e) }
    ensures few { (numbers : Numbers) (p : Sparse) (rs : List Reduction) (a : Part) → IsSparse p → Replays numbers p rs → changes_of (replay p rs) a ≤ changes_of p a + length rs }
{}
