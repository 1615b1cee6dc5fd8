//! Passes of a shared book.

ghost use Rattle.std.specs.Prelude.{◌≡◌, IfOk};
ghost use Rattle.problem_model.specs.declared.part.Part.{Part as PartValue};
ghost use Rattle.problem_model.specs.Parts.{changes_of};
ghost use Rattle.problem_model.specs.Writing.{IsWritable};
ghost use Rattle.presolve_model.specs.Ledger.{Stands};
ghost use Rattle.shared_book.specs.History.{HasFrozen};
ghost use Rattle.txn_book.specs.Sharing.{IsFrom};
ghost use Rattle.book_turns.specs.Turns.{IsPass, left_of};

use crate::models::{name_of, number, problem_of, program_of};
use book_turns::{found_are_taken, passes_remember};
use fractions::Numbers;
use fractions::ext::Ext;
use fractions::frac::Frac;
use instances::{Chunk, Proposal, Version, scan};
use lp_model::{ColumnDef, Program, RowDef, Term, Terms};
use presolve_model::{Outcome, Rule, Verdict};
use shared_book::{Pass, SharedBook};
use sparse_problem::Problem;
use std::alloc::{AllocError, Global};
use std::process::Abort;
use std::sync::Wait;
use std::test::Fail;
use txn_book::Book;

/// C1: x <= 3; C2: x + y >= 8.
fn rows(rt: &impl Abort, alloc: Global) -> Result<Vec<RowDef>, AllocError> {
    let first = RowDef {
        name: name_of(rt, alloc, b"C1")?,
        lower: Ext::none(),
        upper: Ext::at(number(rt, (3, 1))),
    };
    let second = RowDef {
        name: name_of(rt, alloc, b"C2")?,
        lower: Ext::at(number(rt, (8, 1))),
        upper: Ext::none(),
    };
    let rows = Vec::from_array(alloc, [first, second])?;
    Ok(rows)
}

/// A column from 0 to a bound that stands once in each of these rows.
fn column(
    rt: &impl Abort,
    alloc: Global,
    name: &[u8],
    upper: i128,
    rows: &[u32],
) -> Result<ColumnDef, AllocError> {
    let mut terms = Vec::new(alloc);
    for id in rows {
        terms.push(Term {
            id: *id,
            value: number(rt, (1, 1)),
        })?;
    }
    Ok(ColumnDef {
        name: name_of(rt, alloc, name)?,
        cost: Frac::zero(),
        lower: Ext::at(Frac::zero()),
        upper: Ext::at(number(rt, (upper, 1))),
        whole: false,
        semi: false,
        entries: Terms::new(terms),
    })
}

/// Both rows; x is at most 5, and y at most 3.
fn two_rows(rt: &impl Abort, alloc: Global) -> Result<Program, AllocError> {
    let first = column(rt, alloc, b"x", 5, &[0, 1])?;
    let second = column(rt, alloc, b"y", 3, &[1])?;
    let columns = Vec::from_array(alloc, [first, second])?;
    program_of(rt, alloc, rows(rt, alloc)?, columns)
}

/// Freezes the book by a pass.
fn freeze<R: Wait>(
    rt: &R,
    alloc: Global,
    shared: &SharedBook<Book>,
    pass: &mut Pass<Book>,
) -> Result<Version, AllocError>
    requires { IsPass shared.now pass.old }
    ensures pass { IsPass shared.now pass.new }
    ensures frozen { IfOk result (λ v. HasFrozen pass.new v) }
{
    passes_remember();
    shared.freeze(rt, alloc, pass)
}

/// The only instance of a rule that is enabled on a version that the pass froze, as it is read there.
fn only_of(
    rt: &impl Abort,
    alloc: Global,
    shared: &SharedBook<Book>,
    pass: &Pass<Book>,
    version: &Version,
    rule: Rule,
) -> Result<Proposal, AllocError>
    requires stands { Stands shared.now.start }
    requires pass { IsPass shared.now pass.now }
    requires frozen { HasFrozen pass.now version.now }
    ensures { IfOk result (IsFrom (left_of shared.now.start pass.now.seen)) }
{
    let _ = shared;
    let _ = pass;
    found_are_taken();
    let mut found = scan(alloc, version, rule, Chunk::new(0))?;
    assert_eq!(rt; found.len(), 1);
    match found.pop() {
        Some(proposal) => Ok(proposal),
        None => Err(AllocError),
    }
}

/// Freezes the book by a pass, and finds the only instance of a rule that is enabled there.
fn find<R: Wait + Abort>(
    rt: &R,
    alloc: Global,
    shared: &SharedBook<Book>,
    pass: &mut Pass<Book>,
    rule: Rule,
) -> Result<Proposal, AllocError>
    requires stands { Stands shared.now.start }
    requires pass { IsPass shared.now pass.old }
    ensures pass { IsPass shared.now pass.new }
    ensures taken { IfOk result (IsFrom (left_of shared.now.start pass.new.seen)) }
{
    let version = freeze(rt, alloc, shared, pass)?;
    only_of(rt, alloc, shared, pass, &version, rule)
}

/// Commits what a pass found by its last freeze. This is the answer.
fn commit<R: Wait + Abort>(
    rt: &R,
    alloc: Global,
    shared: &SharedBook<Book>,
    pass: &mut Pass<Book>,
    proposal: &Proposal,
    wanted: Outcome,
)
    requires pass { IsPass shared.now pass.old }
    requires taken { IsFrom (left_of shared.now.start pass.old.seen) proposal.now }
    ensures { IsPass shared.now pass.new }
{
    let answer = shared.commit(rt, alloc, pass, proposal);
    assert_eq!(rt; answer, wanted);
}

/// Both passes look at the book; the first commits K2 of C1, so that K7 of C2 is stale for the second.
fn one_is_stale<R: Wait + Abort>(
    rt: &R,
    alloc: Global,
    shared: &SharedBook<Book>,
    first: &mut Pass<Book>,
    second: &mut Pass<Book>,
) -> Result<(), AllocError>
    requires stands { Stands shared.now.start }
    requires first { IsPass shared.now first.old }
    requires second { IsPass shared.now second.old }
    ensures first { IsPass shared.now first.new }
    ensures second { IsPass shared.now second.new }
{
    let side = find(rt, alloc, shared, first, Rule::SingletonRow)?;
    let forced = find(rt, alloc, shared, second, Rule::ForcingRow)?;
    commit(
        rt,
        alloc,
        shared,
        first,
        &side,
        Outcome::Applied { place: 1 },
    );
    commit(
        rt,
        alloc,
        shared,
        second,
        &forced,
        Outcome::Stale { place: 2 },
    );
    Ok(())
}

/// The first sees that C1 is gone. The second closes the book with V2 of C2, and the first is told so.
fn one_closes<R: Wait + Abort>(
    rt: &R,
    alloc: Global,
    shared: &SharedBook<Book>,
    first: &mut Pass<Book>,
    second: &mut Pass<Book>,
) -> Result<(), AllocError>
    requires stands { Stands shared.now.start }
    requires first { IsPass shared.now first.old }
    requires second { IsPass shared.now second.old }
    ensures first { IsPass shared.now first.new }
    ensures second { IsPass shared.now second.new }
{
    let version = freeze(rt, alloc, shared, first)?;
    assert!(rt; !version.problem().is_row_live(0));
    let same = only_of(rt, alloc, shared, first, &version, Rule::InfeasibleRow)?;
    let other = find(rt, alloc, shared, second, Rule::InfeasibleRow)?;
    let verdict = Verdict::InfeasibleRow { row: 1 };
    commit(
        rt,
        alloc,
        shared,
        second,
        &other,
        Outcome::Applied { place: 2 },
    );
    commit(rt, alloc, shared, first, &same, Outcome::Closed { verdict });
    Ok(())
}

/// Hands both passes back, and gives the book that their calls left.
fn closed<R: Wait>(
    rt: &R,
    alloc: Global,
    shared: SharedBook<Book>,
    first: Pass<Book>,
    second: Pass<Book>,
) -> Result<Book, AllocError>
    requires first { IsPass shared first }
    requires second { IsPass shared second }
{
    let passes = Vec::from_array(alloc, [first, second])?;
    Ok(shared.close(rt, passes))
}

/// A book of both rows.
fn opened(rt: &impl Abort, alloc: Global) -> Result<Book, AllocError> {
    let program = two_rows(rt, alloc)?;
    let problem = problem_of(rt, alloc, Numbers::Fractions, &program)?;
    Book::open(alloc, problem, Numbers::Fractions, 9)
}

/// A book that is shared, and two passes of it.
fn shared_out(
    alloc: Global,
    book: Book,
) -> Result<(SharedBook<Book>, Pass<Book>, Pass<Book>), AllocError>
    ensures stands { IfOk result (λ r. Stands r.0.start) }
    ensures first { IfOk result (λ r. IsPass r.0 r.1) }
    ensures second { IfOk result (λ r. IsPass r.0 r.2) }
{
    book.stands();
    let (shared, mut first) = SharedBook::new(alloc, book)?;
    let second = shared.split(&mut first, 1);
    Ok((shared, first, second))
}

/// What both passes do, and the book that they leave.
fn both<R: Wait + Abort>(
    rt: &R,
    alloc: Global,
    shared: SharedBook<Book>,
    mut first: Pass<Book>,
    mut second: Pass<Book>,
) -> Result<Book, AllocError>
    requires stands { Stands shared.start }
    requires first { IsPass shared first }
    requires second { IsPass shared second }
{
    one_is_stale(rt, alloc, &shared, &mut first, &mut second)?;
    one_closes(rt, alloc, &shared, &mut first, &mut second)?;
    closed(rt, alloc, shared, first, second)
}

/// The book as both passes left it: K2 of C1 by pass 0, and closed by V2 of C2.
fn is_left(rt: &impl Abort, left: &Book) {
    assert_eq!(rt; left.applied(), 1);
    assert_eq!(rt; left.verdict(), Some(Verdict::InfeasibleRow { row: 1 }));
    match left.transactions().get(0) {
        Some(transaction) => assert_eq!(rt; transaction.by(), 0),
        None => assert!(rt; false),
    }
}

#[test]
fn two_passes(rt: HostRuntime) -> Result<(), Fail> {
    let alloc = rt.alloc();
    let book = opened(&rt, alloc)?;
    let (shared, first, second) = shared_out(alloc, book)?;
    let left = both(&rt, alloc, shared, first, second)?;
    is_left(&rt, &left);
    Ok(())
}
