//! Proposals that were found on another program than the book's.

use crate::models::{name_of, number, problem_of, program_of};
use fractions::Numbers;
use fractions::ext::Ext;
use instances::{Proposal, Reading, look};
use lp_model::{ColumnDef, Program, RowDef, Term, Terms};
use presolve_model::{Contents, Instance, Outcome, Part, Reduction};
use std::alloc::{AllocError, Global};
use std::process::Abort;
use std::test::Fail;
use txn_book::Book;
use txn_world::{Event, World};

/// What a part is to hold.
#[derive(Clone, Copy)]
enum Held {
    /// Nothing: it is gone.
    Nothing,
    /// A row's only entry, 1 in this column.
    Entry(u32),
    /// Both sides of a row at this number.
    Side(i128),
}

/// Where a proposal is stale: the place in what it read, the part there, what was read of it, and what stands there.
#[derive(Clone, Copy)]
struct Stale {
    place: usize,
    part: Part,
    read: Held,
    now: Held,
}

/// A row between two sides.
fn row(
    rt: &impl Abort,
    alloc: Global,
    name: &[u8],
    lower: Ext,
    upper: Ext,
) -> Result<RowDef, AllocError> {
    Ok(RowDef {
        name: name_of(rt, alloc, name)?,
        lower,
        upper,
    })
}

/// C1: x = side; C2: x + y >= 5.
fn rows(rt: &impl Abort, alloc: Global, side: i128) -> Result<Vec<RowDef>, AllocError> {
    let end = Ext::at(number(rt, (side, 1)));
    let first = row(rt, alloc, b"C1", end, end)?;
    let second = row(rt, alloc, b"C2", Ext::at(number(rt, (5, 1))), Ext::none())?;
    let rows = Vec::from_array(alloc, [first, second])?;
    Ok(rows)
}

/// A column from 0 on, with 1 in each of these rows.
fn column(
    rt: &impl Abort,
    alloc: Global,
    name: &[u8],
    cost: i128,
    rows: &[u32],
) -> Result<ColumnDef, AllocError> {
    let mut terms = Vec::new(alloc);
    for id in rows {
        terms.push(Term {
            id: *id,
            value: number(rt, (1, 1)),
        })?;
    }
    Ok(ColumnDef {
        name: name_of(rt, alloc, name)?,
        cost: number(rt, (cost, 1)),
        lower: Ext::at(number(rt, (0, 1))),
        upper: Ext::none(),
        whole: false,
        semi: false,
        entries: Terms::new(terms),
    })
}

/// x of cost 1, and y of cost 2.
fn columns(rt: &impl Abort, alloc: Global) -> Result<Vec<ColumnDef>, AllocError> {
    let first = column(rt, alloc, b"x", 1, &[0, 1])?;
    let second = column(rt, alloc, b"y", 2, &[1])?;
    let columns = Vec::from_array(alloc, [first, second])?;
    Ok(columns)
}

/// The least x + 2y with x = side and x + y at least 5.
fn two_rows(rt: &impl Abort, alloc: Global, side: i128) -> Result<Program, AllocError> {
    program_of(rt, alloc, rows(rt, alloc, side)?, columns(rt, alloc)?)
}

/// The same with a row more, C3: z = 2.
fn three_rows(rt: &impl Abort, alloc: Global, side: i128) -> Result<Program, AllocError> {
    let end = Ext::at(number(rt, (2, 1)));
    let mut rows = rows(rt, alloc, side)?;
    rows.push(row(rt, alloc, b"C3", end, end)?)?;
    let mut columns = columns(rt, alloc)?;
    columns.push(column(rt, alloc, b"z", 0, &[2])?)?;
    program_of(rt, alloc, rows, columns)
}

/// A book of a program.
fn opened(rt: &impl Abort, alloc: Global, program: &Program) -> Result<Book, AllocError> {
    let problem = problem_of(rt, alloc, Numbers::Fractions, program)?;
    Book::open(alloc, problem, Numbers::Fractions, 9)
}

/// What an instance reads of a program on which it is enabled.
fn found_on(
    rt: &impl Abort,
    alloc: Global,
    program: &Program,
    instance: Instance,
) -> Result<Proposal, AllocError> {
    let problem = problem_of(rt, alloc, Numbers::Fractions, program)?;
    match look(alloc, &problem, instance)? {
        Some(proposal) => Ok(proposal),
        None => Err(AllocError),
    }
}

/// A part holds what it is to hold.
fn holds(rt: &impl Abort, contents: &Contents, wanted: Held) -> bool {
    match (contents, wanted) {
        (Contents::Gone, Held::Nothing) => true,
        (Contents::Entries(terms), Held::Entry(column)) => match terms.as_slice() {
            [term] => term.id == column && term.value.is_same(&number(rt, (1, 1))),
            _ => false,
        },
        (Contents::Sides(lower, upper), Held::Side(side)) => {
            let end = Ext::at(number(rt, (side, 1)));
            lower.is_same(&end) && upper.is_same(&end)
        }
        _ => false,
    }
}

/// A worker commits a proposal, and is told where it is stale.
fn commit(
    rt: &impl Abort,
    alloc: Global,
    world: &mut World,
    proposal: Proposal,
    place: usize,
) -> Result<(), Fail> {
    let answer = world.step(alloc, Event::Propose(1, proposal))?;
    assert_eq!(rt; answer, None);
    let answer = world.step(alloc, Event::Commit(1))?;
    assert_eq!(rt; answer, Some(Outcome::Stale { place }));
    Ok(())
}

/// What was read at a place, and what stands there. The part had not changed, and has not changed since.
fn differs(
    rt: &impl Abort,
    alloc: Global,
    world: &World,
    reading: &Reading,
    wanted: &Stale,
) -> Result<(), Fail> {
    let reads = reading.as_slice();
    assert!(rt; wanted.place < reads.len());
    let read = &reads[wanted.place];
    assert_eq!(rt; read.part, wanted.part);
    assert_eq!(rt; read.changes, 0);
    assert!(rt; holds(rt, &read.contents, wanted.read));
    let now = reading.now_at(alloc, world.book().problem(), wanted.place)?;
    assert_eq!(rt; now.part, wanted.part);
    assert_eq!(rt; now.changes, 0);
    assert!(rt; holds(rt, &now.contents, wanted.now));
    Ok(())
}

/// An instance that is enabled on another program is stale on the book of x = 3.
fn is_stale(
    rt: &impl Abort,
    alloc: Global,
    other: &Program,
    instance: Instance,
    wanted: &Stale,
) -> Result<(), Fail> {
    let proposal = found_on(rt, alloc, other, instance)?;
    let Some(reading) = proposal.reading().share() else {
        assert!(rt; false);
        return Ok(());
    };
    let program = two_rows(rt, alloc, 3)?;
    let mut world = World::new(alloc, opened(rt, alloc, &program)?);
    commit(rt, alloc, &mut world, proposal, wanted.place)?;
    differs(rt, alloc, &world, &reading, wanted)
}

/// K2 of a row.
fn singleton(row: u32) -> Instance {
    Instance::Reduction(Reduction::SingletonRow { row })
}

/// K2 of C1, found where C1 is x = 4: entries and numbers are the same, and the sides differ.
#[test]
fn another_side(rt: HostRuntime) -> Result<(), Fail> {
    let alloc = rt.alloc();
    let other = two_rows(&rt, alloc, 4)?;
    let wanted = Stale {
        place: 1,
        part: Part::Sides(0),
        read: Held::Side(4),
        now: Held::Side(3),
    };
    is_stale(&rt, alloc, &other, singleton(0), &wanted)
}

/// K2 of C3: the book's program has neither this row nor its column.
#[test]
fn ids_past_the_last(rt: HostRuntime) -> Result<(), Fail> {
    let alloc = rt.alloc();
    let other = three_rows(&rt, alloc, 3)?;
    let wanted = Stale {
        place: 0,
        part: Part::Row(2),
        read: Held::Entry(2),
        now: Held::Nothing,
    };
    is_stale(&rt, alloc, &other, singleton(2), &wanted)
}
