//! What the transactions of records read.

ghost use Rattle.std.specs.Prelude.{◌≡◌, ◌≤◌, ◌∷◌, ◌++◌, [], IfOk, OnErr, OnOk, length, replicate, slice_get, slice_range, take};
ghost use Rattle.transactions.specs.Transactions.{end_last, start_at, untold, with_read};

use problem_model::Part;
use std::alloc::{AllocError, Global};
use std::marker::Model;

/// A part that a transaction read.
#[derive(Clone, Copy, Debug, PartialEq, Eq)]
pub struct PartRead {
    /// The part, by the original id of its row or column.
    pub part: Part,
    /// How often it had changed.
    pub changes: u64,
}

/// A transaction in a list of them, but for what it read: that ends here.
#[derive(Clone, Copy, Debug, PartialEq, Eq)]
struct Heading {
    by: u32,
    version: u64,
    end: usize,
}

/// Where the transaction at a place begins.
fn start_at(headings: &[Heading], place: usize) -> usize
    requires { place ≤ length headings.now }
    ensures { result ≡ start_at 0 headings.now place }
{
    if place == 0 {
        return 0;
    }
    headings[place - 1].end
}

/// What was read from a place on, as far as another one.
fn range(reads: &[PartRead], from: usize, to: usize) -> &[PartRead]
    requires { (from ≤ to) × (to ≤ length reads.now) }
    ensures { result.now ≡ slice_range reads.now from to }
{
    let (_, rest) = reads.split_at(from);
    let (range, _) = rest.split_at(to - from);
    range
}

/// The last transaction ends here.
fn end_last(headings: &mut Vec<Heading>, end: usize)
    ensures { headings.new.items ≡ end_last headings.old.items end }
{
    let count = headings.as_slice().len();
    if count > 0 {
        headings[count - 1].end = end;
    }
}

/// A transaction: what was read for a reduction, and who applied it.
#[derive(Drop)]
pub struct Transaction<'a> {
    by: u32,
    version: u64,
    reads: &'a [PartRead],
}

impl<'a> Model for Transaction<'a> {
    ghost use Rattle.transactions.specs.Transactions.{Transaction};

    ghost Value = { Transaction };

    ghost view = { λ t. record { by = t.by; version = t.version; reads = t.reads.now } };
}

impl<'a> Transaction<'a> {
    /// The worker that committed it, 0 in a run in order.
    pub fn by(&self) -> u32
        ensures { result ≡ self.now.by }
    {
        self.by
    }

    /// How many instances had been applied when the problem that it saw was frozen. It is below the record's place, from 1 on.
    pub fn version(&self) -> u64
        ensures { result ≡ self.now.version }
    {
        self.version
    }

    /// The parts that it read, in order. None where that isn't known.
    pub fn reads(&self) -> &'a [PartRead]
        ensures { result.now ≡ self.now.reads }
    {
        self.reads
    }
}

/// The transaction of each record, first applied first. All that they read stands in one list.
#[derive(Drop)]
pub struct Transactions {
    headings: Vec<Heading>,
    reads: Vec<PartRead>,
}

impl Model for Transactions {
    ghost use Rattle.std.specs.Prelude.{List, length};
    ghost use Rattle.transactions.specs.Transactions.{Transaction, cut, EndsAscend};

    ghost Value = { List Transaction };

    ghost view = { λ t. cut 0 t.headings.items t.reads.items };

    ghost invariant = { λ t. EndsAscend 0 t.headings.items (length t.reads.items) };
}

impl Transactions {
    /// None.
    pub fn new(alloc: Global) -> Transactions
        ensures { result ≡ [] }
    {
        Transactions {
            headings: Vec::new(alloc),
            reads: Vec::new(alloc),
        }
    }

    /// So many transactions of which nothing is known.
    ///
    /// # Errors
    /// Memory ran out.
    pub fn unknown(alloc: Global, count: usize) -> Result<Transactions, AllocError>
        ensures { IfOk result (λ transactions. transactions ≡ replicate count untold) }
    {
        let mut transactions = Transactions::new(alloc);
        for _ in 0..count {
            transactions.open(0, 0)?;
        }
        Ok(transactions)
    }

    /// How many there are.
    pub fn len(&self) -> usize
        ensures { result ≡ length self.now }
    {
        self.headings.as_slice().len()
    }

    /// The transaction at a place, from 0 on.
    pub fn get(&self, place: usize) -> Option<Transaction<'_>>
        ensures { result ≡ slice_get self.now place }
    {
        let headings = self.headings.as_slice();
        if place >= headings.len() {
            return None;
        }
        let heading = headings[place];
        let from = start_at(headings, place);
        Some(Transaction {
            by: heading.by,
            version: heading.version,
            reads: range(self.reads.as_slice(), from, heading.end),
        })
    }

    /// One transaction more, which has read nothing yet.
    ///
    /// # Errors
    /// Memory ran out.
    pub fn open(&mut self, by: u32, version: u64) -> Result<(), AllocError>
        ensures { OnOk result (self.new ≡ self.old ++ record { by = by; version = version; reads = [] } ∷ []) }
    {
        let end = self.reads.as_slice().len();
        self.headings.push(Heading { by, version, end })?;
        Ok(())
    }

    /// One part more that the last transaction read. Where there is none, nothing is kept.
    ///
    /// # Errors
    /// Memory ran out.
    pub fn add(&mut self, read: PartRead) -> Result<(), AllocError>
        ensures { OnOk result (self.new ≡ with_read self.old read) }
    {
        if self.headings.as_slice().len() == 0 {
            return Ok(());
        }
        self.reads.push(read)?;
        end_last(&mut self.headings, self.reads.as_slice().len());
        Ok(())
    }

    /// One transaction more, with all that it read. Where memory runs out, nothing changes.
    ///
    /// # Errors
    /// Memory ran out.
    pub fn append(&mut self, by: u32, version: u64, reads: &[PartRead]) -> Result<(), AllocError>
        ensures appended { OnOk result (self.new ≡ self.old ++ record { by = by; version = version; reads = reads.now } ∷ []) }
        ensures refused { OnErr result (self.new ≡ self.old) }
    {
        self.headings.reserve(1)?;
        self.reads.extend_from_slice(reads)?;
        let end = self.reads.as_slice().len();
        self.headings.push_reserved(Heading { by, version, end });
        Ok(())
    }

    /// Keeps the first so many transactions, and what they read.
    pub fn truncate(&mut self, count: usize)
        ensures { self.new ≡ take count self.old }
    {
        if count >= self.headings.as_slice().len() {
            return;
        }
        let end = start_at(self.headings.as_slice(), count);
        self.headings.truncate(count);
        self.reads.truncate(end);
    }
}
