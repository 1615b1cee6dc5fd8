//! Books.

ghost use Rattle.std.specs.Prelude.{◌≡◌, ◌≢◌, ◌<◌, [], ◌∷◌, ◌++◌, ℕ, length, true, None, IfErr, IfOk, IfSome, OnErr, OnOk};
ghost use Rattle.std.specs.Bool.{MatchBool};
ghost use Rattle.fractions.specs.Number.{◌-ℚ◌};
ghost use Rattle.lp_model.specs.declared.program.Sense.TheVariants.{Min};
ghost use Rattle.lp_model.specs.Reductions.{Reduces};
ghost use Rattle.undo_records.specs.Lift.{lift};
ghost use Rattle.presolve_model.specs.declared.instance.Instance.TheVariants as at;
ghost use Rattle.presolve_model.specs.declared.outcome.Outcome.TheVariants.{NoMemory};
ghost use Rattle.presolve_model.specs.Commits.{Allows, HasRoom, IsFull, left_by, next_place, with_instance};
ghost use Rattle.presolve_model.specs.Enabled.{enabled_on};
ghost use Rattle.presolve_model.specs.Given.{Proposed};
ghost use Rattle.presolve_model.specs.Ledger.{instance_count, Stands};
ghost use Rattle.presolve_model.specs.Meanings.{Meant};
ghost use Rattle.presolve_model.specs.Scans.{proposal_of};
ghost use Rattle.presolve_model.specs.Tallies.{no_counts};
ghost use Rattle.presolve_model.specs.Transactions.{numbers_read};
ghost use Rattle.presolve_model.specs.Worlds.{version_of};
ghost use Rattle.problem_model.specs.declared.part.Part.{Part as PartValue};
ghost use Rattle.problem_model.specs.Noted.{AreNoted};
ghost use Rattle.problem_model.specs.Parts.{changes_of};
ghost use Rattle.problem_model.specs.Reading.{Agrees, DiffersAt};
ghost use Rattle.problem_model.specs.Showing.{shown};
ghost use Rattle.problem_model.specs.Writing.{IsWritable};
ghost use Rattle.row_spans.specs.Spans.{spans_of};
ghost use Rattle.kept_sums.specs.KeptSums.{AreSumsOf};
ghost use Rattle.txn_book.specs.Applying.{Applies, outcome_of};
ghost use Rattle.txn_book.specs.Sharing.{IsFrom};

use crate::row_lists::RowLists;
use applying::{commit_prepared, prepared};
use fractions::Numbers;
use instances::line_groups::Parallels;
use instances::{Differs, Proposal, Tally, Version, numbers_for};
use kept_sums::KeptSums;
use presolve_model::{Instance, Outcome, Part, Reduction, Refusal, Verdict};
use sparse_problem::Problem;
use std::alloc::{AllocError, Global};
use std::marker::Model;
use std::snapshot::Snapshot;
use undo_records::{Transactions, Undo};

/// A problem, and what was done to it: the reductions that were applied, first one first, with the record and the transaction of each, how
/// often each bound was tightened, and the verdict that closed the book. The problem is always what the history makes of the one that the book was opened with.
#[derive(Drop)]
pub struct Book {
    start: Snapshot<Problem>,
    problem: Problem,
    history: Vec<Reduction>,
    verdict: Option<Verdict>,
    records: Vec<Undo>,
    transactions: Transactions,
    lists: RowLists,
    tally: Tally,
    numbers: Numbers,
    limit: u64,
}

impl Model for Book {
    ghost use Rattle.std.specs.Coded.{codes};
    ghost use Rattle.fractions.specs.Lowest.{number_code};
    ghost use Rattle.presolve_model.specs.Ledger.{Ledger};

    ghost Value = { Ledger };

    ghost coded = { Prim.hlevel (codes, number_code) };

    ghost use Rattle.presolve_model.specs.Ledger.{Stands};

    ghost view = { λ b. record { start = b.start.value; problem = b.problem; history = b.history.items; verdict = b.verdict; records = b.records.items; transactions = b.transactions; tally = b.tally; numbers = b.numbers; limit = b.limit } };

    ghost invariant = { λ b. Stands (record { start = b.start.value; problem = b.problem; history = b.history.items; verdict = b.verdict; records = b.records.items; transactions = b.transactions; tally = b.tally; numbers = b.numbers; limit = b.limit }) };
}

/// What a book leaves when it is closed.
#[derive(Drop)]
pub struct Ended {
    /// The present problem.
    pub problem: Problem,
    /// The reductions that were applied, first one first.
    pub history: Vec<Reduction>,
    /// The verdict that was applied, if any.
    pub verdict: Option<Verdict>,
    /// The record of each reduction.
    pub records: Vec<Undo>,
    /// The transaction of each reduction.
    pub transactions: Transactions,
}

/// The answer to a commit that applies a reduction.
fn outcome_of(applied: Result<usize, Refusal>) -> Outcome
    ensures { result ≡ outcome_of applied }
{
    match applied {
        Ok(place) => Outcome::Applied { place },
        Err(Refusal::Past) => Outcome::Past,
        Err(Refusal::NotDecimal) => Outcome::NotDecimal,
        Err(Refusal::NoMemory) => Outcome::NoMemory,
    }
}

/// Adds the transaction of a reduction: who applies it, the version that it was found on, and what it reads. Where memory runs out, nothing
/// changes.
fn add_transaction(
    transactions: &mut Transactions,
    alloc: Global,
    problem: &Problem,
    by: u32,
    version: u64,
    reduction: Reduction,
) -> Result<(), AllocError>
    ensures added { OnOk result (transactions.new ≡ transactions.old ++ record { by = by; version = version; reads = numbers_read problem.now (at.Reduction reduction) } ∷ []) }
    ensures refused { OnErr result (transactions.new ≡ transactions.old) }
{
    let reads = numbers_for(alloc, problem, Instance::Reduction(reduction))?;
    transactions.append(by, version, reads.as_slice())
}

impl Book {
    /// A book of a problem of which no part has changed yet, to which at most `limit` reductions are applied.
    ///
    /// # Errors
    /// Memory ran out.
    pub fn open(
        alloc: Global,
        problem: Problem,
        numbers: Numbers,
        limit: u64,
    ) -> Result<Book, AllocError>
        requires writable { IsWritable numbers problem }
        requires unchanged { (a : PartValue) → changes_of problem a ≡ 0 }
        ensures { IfOk result (λ book. book ≡ record { start = problem; problem = problem; history = []; verdict = None; records = []; transactions = []; tally = no_counts (length problem.matrix.columns); numbers = numbers; limit = limit }) }
    {
        problem.is_sparse();
        let tally = Tally::new(alloc, problem.column_count() as u32)?;
        let lists = RowLists::new(alloc, problem.row_count())?;
        Ok(Book {
            start: Snapshot::of(&problem),
            problem,
            history: Vec::new(alloc),
            verdict: None,
            records: Vec::new(alloc),
            transactions: Transactions::new(alloc),
            lists,
            tally,
            numbers,
            limit,
        })
    }

    /// The present problem.
    pub fn problem(&self) -> &Problem
        ensures { result.now ≡ self.now.problem }
    {
        &self.problem
    }

    /// Makes the sums of rows of the present problem, where none are kept. The book stays the same.
    pub fn keep_sums(&mut self, rows: &[u32])
        ensures { self.new ≡ self.old }
    {
        self.problem.keep_sums(rows);
    }

    /// Keeps these sums of a row of the present problem. The book stays the same.
    pub fn keep(&mut self, row: u32, sums: KeptSums)
        requires { AreSumsOf (spans_of self.old.problem row) sums }
        ensures { self.new ≡ self.old }
    {
        self.problem.keep(row, sums);
    }

    /// How often each bound was tightened.
    pub fn tally(&self) -> &Tally
        ensures { result.now ≡ self.now.tally }
    {
        &self.tally
    }

    /// How many reductions were applied.
    pub fn applied(&self) -> u64
        ensures { result ≡ length self.now.history }
    {
        self.history.len() as u64
    }

    /// The verdict that was applied, if any.
    pub fn verdict(&self) -> Option<Verdict>
        ensures { result ≡ self.now.verdict }
    {
        self.verdict
    }

    /// The transaction of each reduction that was applied.
    pub fn transactions(&self) -> &Transactions
        ensures { result.now ≡ self.now.transactions }
    {
        &self.transactions
    }

    /// How many reductions may be applied.
    pub fn limit(&self) -> u64
        ensures { result ≡ self.now.limit }
    {
        self.limit
    }

    /// What a book keeps, and what it means: the linear program that was shown at first is reduced to the one that is shown now, undone by
    /// the records; and a verdict means at first what it says. Says so, and does nothing.
    pub fn stands(&self)
        ensures stands { Stands self.now }
        ensures reduces { Reduces Min (shown self.now.start) (shown self.now.problem) (lift self.now.records) (self.now.problem.offset -ℚ self.now.start.offset) }
        ensures verdict { IfSome self.now.verdict (λ v. Meant v Min (shown self.now.start)) }
    {
        let _ = &self.limit;
    }

    /// How many instances were applied: the reductions, and the verdict that closed the book.
    pub fn instance_count(&self) -> u64
        ensures { result ≡ instance_count self.now }
    {
        match self.verdict {
            None => self.applied(),
            Some(_) => self.applied() + 1,
        }
    }

    /// A copy of the present problem, with the groups of its lines, how often each bound was tightened, and how many instances were applied.
    ///
    /// # Errors
    /// Memory ran out.
    pub fn freeze(&self, alloc: Global) -> Result<Version, AllocError>
        ensures { IfOk result (λ v. v ≡ version_of self.now) }
    {
        let problem = self.problem.copy(alloc)?;
        let groups = Parallels::of(alloc, &problem)?;
        let tally = self.tally.copy(alloc)?;
        Ok(Version::new(problem, groups, tally, self.instance_count()))
    }

    /// Whether so many reductions were applied as are allowed. A verdict always has room.
    fn is_full(&self, instance: Instance) -> bool
        ensures { MatchBool result (IsFull self.now instance) (HasRoom self.now instance) }
    {
        match instance {
            Instance::Reduction(_) => self.applied() >= self.limit,
            Instance::Verdict(_) => false,
        }
    }

    /// Applies a reduction, keeps its record and its transaction, gives its place in the history, and notes the parts that change. Its numbers
    /// are asked before its transaction is made, which names all that it reads. All room is made before anything is changed.
    fn apply_reduction(
        &mut self,
        alloc: Global,
        by: u32,
        version: u64,
        reduction: Reduction,
        changed: &mut Vec<Part>,
    ) -> Result<usize, Refusal>
        requires undecided { self.old.verdict ≡ None }
        requires room { length self.old.history < self.old.limit }
        requires enabled { enabled_on self.old.problem (at.Reduction reduction) ≡ true }
        ensures applies { Applies self.old by version reduction result self.new }
        ensures noted { AreNoted self.old.problem self.new.problem changed.old.items changed.new.items }
    {
        self.history.reserve(1)?;
        self.records.reserve(1)?;
        let change = prepared(alloc, &self.problem, reduction, self.numbers)?;
        let before = self.history.as_slice().len();
        let found = version.min(before as u64);
        add_transaction(
            &mut self.transactions,
            alloc,
            &self.problem,
            by,
            found,
            reduction,
        )?;
        let undo = match commit_prepared(&mut self.problem, alloc, change, changed) {
            Ok(undo) => undo,
            Err(refusal) => {
                self.transactions.truncate(before);
                return Err(refusal);
            }
        };
        self.records.push_reserved(self.lists.share(undo));
        self.history.push_reserved(reduction);
        self.tally.follow(reduction);
        Ok(before + 1)
    }

    /// Closes the book with a verdict, and gives the verdict's place after the history.
    fn decide(&mut self, verdict: Verdict) -> usize
        requires { enabled_on self.old.problem (at.Verdict verdict) ≡ true }
        ensures place { result ≡ next_place self.old }
        ensures left { (w version : ℕ) → self.new ≡ with_instance self.old w version (at.Verdict verdict) }
    {
        self.verdict = Some(verdict);
        self.history.len() + 1
    }

    /// Applies an enabled instance where no verdict stands and there is room, and notes the parts that change.
    fn apply_open(
        &mut self,
        alloc: Global,
        by: u32,
        version: u64,
        instance: Instance,
        changed: &mut Vec<Part>,
    ) -> Outcome
        requires undecided { self.old.verdict ≡ None }
        requires room { HasRoom self.old instance }
        requires enabled { enabled_on self.old.problem instance ≡ true }
        ensures outcome { (p : Proposed) → p.instance ≡ instance → Agrees self.old.problem p.reading → Allows self.old p result }
        ensures left { (p : Proposed) → p.instance ≡ instance → p.version ≡ version → self.new ≡ left_by self.old by p result }
        ensures noted { AreNoted self.old.problem self.new.problem changed.old.items changed.new.items }
    {
        match instance {
            Instance::Reduction(reduction) => {
                outcome_of(self.apply_reduction(alloc, by, version, reduction, changed))
            }
            Instance::Verdict(verdict) => Outcome::Applied {
                place: self.decide(verdict),
            },
        }
    }

    /// Applies an enabled instance to the present problem, as a commit by worker 0 of its reading of that problem would that was found on this
    /// version, and notes the parts that change. Anything but `Applied` leaves the book as it is.
    pub fn apply(
        &mut self,
        alloc: Global,
        version: u64,
        instance: Instance,
        changed: &mut Vec<Part>,
    ) -> Outcome
        requires enabled { enabled_on self.old.problem instance ≡ true }
        ensures outcome { Allows self.old (proposal_of self.old.problem version instance) result }
        ensures left { self.new ≡ left_by self.old 0 (proposal_of self.old.problem version instance) result }
        ensures noted { result ≢ NoMemory → AreNoted self.old.problem self.new.problem changed.old.items changed.new.items }
    {
        if let Some(verdict) = self.verdict {
            return Outcome::Closed { verdict };
        }
        if self.is_full(instance) {
            return Outcome::Full;
        }
        self.apply_open(alloc, 0, version, instance, changed)
    }

    /// Commits a proposal of which it is known whether each part stands as it was read.
    fn commit_compared(
        &mut self,
        alloc: Global,
        by: u32,
        proposal: &Proposal,
        compared: Result<(), Differs>,
    ) -> Outcome
        requires agrees { OnOk compared (Agrees self.old.problem proposal.now.reading) }
        requires differs { IfErr compared (λ d. DiffersAt self.old.problem proposal.now.reading d.place) }
        ensures outcome { Allows self.old proposal.now result }
        ensures left { self.new ≡ left_by self.old by proposal.now result }
    {
        if let Some(verdict) = self.verdict {
            return Outcome::Closed { verdict };
        }
        let instance = proposal.instance();
        if self.is_full(instance) {
            return Outcome::Full;
        }
        if let Err(differs) = compared {
            return Outcome::Stale {
                place: differs.place,
            };
        }
        let mut changed = Vec::new(alloc);
        self.apply_open(alloc, by, proposal.version(), instance, &mut changed)
    }

    /// Commits a proposal: applies its instance if no verdict stands, there is room, and each part stands as it was read. Anything else
    /// leaves the book as it is. Who commits is kept in the transaction, and makes no other difference.
    pub fn commit(&mut self, alloc: Global, by: u32, proposal: &Proposal) -> Outcome
        ensures outcome { Allows self.old proposal.now result }
        ensures left { self.new ≡ left_by self.old by proposal.now result }
    {
        let compared = proposal.reading().agrees(&self.problem);
        self.commit_compared(alloc, by, proposal, compared)
    }

    /// Commits a proposal that was read of an earlier problem of this book, and compares how often its parts have changed, and nothing else.
    /// The answer and what it leaves are those of `commit`.
    pub fn commit_numbered(&mut self, alloc: Global, by: u32, proposal: &Proposal) -> Outcome
        requires { IsFrom self.old proposal.now }
        ensures outcome { Allows self.old proposal.now result }
        ensures left { self.new ≡ left_by self.old by proposal.now result }
    {
        // A history is never longer than its limit, and so no part stands at the end of what numbers of changes can be.
        let _ = self.limit();
        let compared = proposal.reading().moved(&self.problem);
        self.commit_compared(alloc, by, proposal, compared)
    }

    /// Closes the book for good: its problem, its history, its verdict, its records and their transactions.
    pub fn close(self) -> Ended
        ensures problem { result.problem ≡ self.problem }
        ensures history { result.history.items ≡ self.history }
        ensures verdict { result.verdict ≡ self.verdict }
        ensures records { result.records.items ≡ self.records }
        ensures transactions { result.transactions ≡ self.transactions }
    {
        Ended {
            problem: self.problem,
            history: self.history,
            verdict: self.verdict,
            records: self.records,
            transactions: self.transactions,
        }
    }
}
