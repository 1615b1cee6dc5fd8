//! Two workers on one book, and a book with none.

use crate::models::{Model, problem};
use fractions::Numbers;
use instances::{Chunk, Proposal, Tally, Version, scan};
use line_groups::Parallels;
use presolve_model::{Instance, Outcome, Part, Reduction, Rule, Verdict};
use rule_table::is_enabled;
use sparse_problem::Problem;
use std::alloc::{AllocError, Global};
use std::process::Abort;
use std::test::Fail;
use txn_book::Book;
use txn_world::{Event, World};
use undo_records::PartRead;

/// x whole in [0, 7/2]; 2x <= 4.
const PLAIN: Model = Model {
    entry: (2, 1),
    side: (4, 1),
    lower: (0, 1),
    upper: (7, 2),
    second: false,
};

/// What is done, and what is to come of it.
#[derive(Clone, Copy)]
enum Step {
    /// A worker freezes the problem.
    Freeze(u32),
    /// A worker proposes all instances of a rule on its frozen version: so many.
    Find(u32, Rule, usize),
    /// A worker proposes all instances of a rule on the other problem: so many.
    FindOther(u32, Rule, usize),
    /// A worker commits, and this is the answer.
    Commit(u32, Option<Outcome>),
}

/// The transaction of a reduction that was applied: who committed it, the version, and what was read, with how often it had changed.
struct Told {
    by: u32,
    version: u64,
    reads: &'static [(Part, u64)],
}

/// The program of the book, the numbers and the limit, another program, what the workers do, and the transactions that are told then.
struct Story {
    model: Model,
    numbers: Numbers,
    limit: u64,
    other: Model,
    steps: &'static [Step],
    told: &'static [Told],
}

/// The version on which proposals on the other problem are said to be found.
const FOREIGN_VERSION: u64 = 9;

const STORIES: [Story; 10] = [
    // what the other worker read no longer stands; the first proposal is committed first
    Story {
        model: PLAIN,
        numbers: Numbers::Fractions,
        limit: 9,
        other: PLAIN,
        steps: &[
            Step::Commit(0, None),
            Step::Freeze(0),
            Step::Freeze(1),
            Step::Find(0, Rule::SingletonRow, 1),
            Step::Find(0, Rule::RoundedBounds, 1),
            Step::Find(1, Rule::RoundedBounds, 1),
            Step::Commit(0, Some(Outcome::Applied { place: 1 })),
            Step::Commit(1, Some(Outcome::Stale { place: 0 })),
            Step::Commit(0, Some(Outcome::Stale { place: 0 })),
            Step::Commit(0, None),
            Step::Freeze(1),
            Step::Find(1, Rule::RoundedBounds, 0),
            Step::Find(1, Rule::FixedColumn, 0),
            Step::Find(1, Rule::EmptyColumn, 1),
            Step::Find(0, Rule::RoundedBounds, 1),
            Step::Commit(1, Some(Outcome::Applied { place: 2 })),
            Step::Freeze(1),
            Step::Find(1, Rule::FixedColumn, 1),
            Step::Commit(1, Some(Outcome::Applied { place: 3 })),
            Step::Commit(1, None),
        ],
        told: &[
            Told {
                by: 0,
                version: 0,
                reads: &[(Part::Row(0), 0), (Part::Sides(0), 0), (Part::Bounds(0), 0)],
            },
            Told {
                by: 1,
                version: 1,
                reads: &[(Part::Col(0), 1), (Part::Bounds(0), 1)],
            },
            Told {
                by: 1,
                version: 2,
                reads: &[(Part::Col(0), 1), (Part::Bounds(0), 2)],
            },
        ],
    },
    // a limit of 1
    Story {
        model: Model {
            side: (5, 1),
            ..PLAIN
        },
        numbers: Numbers::Fractions,
        limit: 1,
        other: PLAIN,
        steps: &[
            Step::Freeze(0),
            Step::Find(0, Rule::SingletonRow, 1),
            Step::Commit(0, Some(Outcome::Applied { place: 1 })),
            Step::Freeze(0),
            Step::Find(0, Rule::RoundedBounds, 1),
            Step::Commit(0, Some(Outcome::Full)),
        ],
        told: &[Told {
            by: 0,
            version: 0,
            reads: &[(Part::Row(0), 0), (Part::Sides(0), 0), (Part::Bounds(0), 0)],
        }],
    },
    // nothing is applied after a verdict, which needs no room
    Story {
        model: Model {
            entry: (-1, 1),
            side: (-5, 1),
            ..PLAIN
        },
        numbers: Numbers::Fractions,
        limit: 1,
        other: PLAIN,
        steps: &[
            Step::Freeze(0),
            Step::Freeze(1),
            Step::Find(0, Rule::SingletonRow, 1),
            Step::Find(1, Rule::RoundedBounds, 1),
            Step::Commit(0, Some(Outcome::Applied { place: 1 })),
            Step::Freeze(0),
            Step::Find(0, Rule::CrossedBounds, 1),
            Step::Commit(0, Some(Outcome::Applied { place: 2 })),
            Step::Commit(
                1,
                Some(Outcome::Closed {
                    verdict: Verdict::CrossedBounds { column: 0 },
                }),
            ),
        ],
        told: &[Told {
            by: 0,
            version: 0,
            reads: &[(Part::Row(0), 0), (Part::Sides(0), 0), (Part::Bounds(0), 0)],
        }],
    },
    // x <= 1/3 is no decimal number
    Story {
        model: Model {
            entry: (3, 1),
            side: (1, 1),
            ..PLAIN
        },
        numbers: Numbers::Decimal,
        limit: 9,
        other: PLAIN,
        steps: &[
            Step::Freeze(0),
            Step::Find(0, Rule::SingletonRow, 1),
            Step::Commit(0, Some(Outcome::NotDecimal)),
        ],
        told: &[],
    },
    // x >= 10^21 is past the range
    Story {
        model: Model {
            entry: (-1, 1000),
            side: (-1_000_000_000_000_000_000, 1),
            ..PLAIN
        },
        numbers: Numbers::Fractions,
        limit: 9,
        other: PLAIN,
        steps: &[
            Step::Freeze(0),
            Step::Find(0, Rule::SingletonRow, 1),
            Step::Commit(0, Some(Outcome::Past)),
        ],
        told: &[],
    },
    // a new bound whose denominator has no room
    Story {
        model: Model {
            entry: (1 << 100, 1),
            side: (1, 1 << 100),
            ..PLAIN
        },
        numbers: Numbers::Fractions,
        limit: 9,
        other: PLAIN,
        steps: &[
            Step::Freeze(0),
            Step::Find(0, Rule::SingletonRow, 1),
            Step::Commit(0, Some(Outcome::Past)),
        ],
        told: &[],
    },
    // another program: its bounds differ
    Story {
        model: PLAIN,
        numbers: Numbers::Fractions,
        limit: 9,
        other: Model {
            upper: (5, 2),
            ..PLAIN
        },
        steps: &[
            Step::FindOther(1, Rule::RoundedBounds, 1),
            Step::Commit(1, Some(Outcome::Stale { place: 0 })),
        ],
        told: &[],
    },
    // another program: its entries are the same, and its sides differ
    Story {
        model: PLAIN,
        numbers: Numbers::Fractions,
        limit: 9,
        other: Model {
            side: (3, 1),
            ..PLAIN
        },
        steps: &[
            Step::FindOther(1, Rule::SingletonRow, 1),
            Step::Commit(1, Some(Outcome::Stale { place: 1 })),
        ],
        told: &[],
    },
    // another program: what it has at the first id stands here too, and the second id is past the ids
    Story {
        model: PLAIN,
        numbers: Numbers::Fractions,
        limit: 9,
        other: Model {
            second: true,
            ..PLAIN
        },
        steps: &[
            Step::FindOther(1, Rule::RoundedBounds, 2),
            Step::Commit(1, Some(Outcome::Applied { place: 1 })),
            Step::Commit(1, Some(Outcome::Stale { place: 0 })),
        ],
        told: &[Told {
            by: 1,
            version: 0,
            reads: &[(Part::Bounds(0), 0)],
        }],
    },
    // of each of two proposals that were found elsewhere, on a version that is not below its place, the one before that place is told
    // of one that was found on a version further below, that version
    Story {
        model: Model {
            second: true,
            ..PLAIN
        },
        numbers: Numbers::Fractions,
        limit: 9,
        other: Model {
            second: true,
            ..PLAIN
        },
        steps: &[
            Step::Freeze(0),
            Step::FindOther(1, Rule::RoundedBounds, 2),
            Step::Commit(1, Some(Outcome::Applied { place: 1 })),
            Step::Commit(1, Some(Outcome::Applied { place: 2 })),
            Step::Find(0, Rule::SingletonRow, 1),
            Step::Commit(0, Some(Outcome::Stale { place: 2 })),
            Step::Freeze(0),
            Step::Find(0, Rule::EmptyColumn, 1),
            Step::Find(0, Rule::SingletonRow, 1),
            Step::Commit(0, Some(Outcome::Applied { place: 3 })),
            Step::Commit(0, Some(Outcome::Applied { place: 4 })),
        ],
        told: &[
            Told {
                by: 1,
                version: 0,
                reads: &[(Part::Bounds(0), 0)],
            },
            Told {
                by: 1,
                version: 1,
                reads: &[(Part::Bounds(1), 0)],
            },
            Told {
                by: 0,
                version: 2,
                reads: &[(Part::Col(1), 0), (Part::Bounds(1), 1)],
            },
            Told {
                by: 0,
                version: 2,
                reads: &[(Part::Row(0), 0), (Part::Sides(0), 0), (Part::Bounds(0), 1)],
            },
        ],
    },
];

/// The enabled instances of a rule on a problem that is no version of the book's.
fn found_on(alloc: Global, problem: &Problem, rule: Rule) -> Result<Vec<Proposal>, AllocError> {
    let problem = problem.copy(alloc)?;
    let groups = Parallels::of(alloc, &problem)?;
    let tally = Tally::new(alloc, 2)?;
    let version = Version::new(problem, groups, tally, FOREIGN_VERSION);
    scan(alloc, &version, rule, Chunk::new(0))
}

/// A worker proposes what was found: so many.
fn propose(
    rt: &impl Abort,
    alloc: Global,
    world: &mut World,
    worker: u32,
    found: Vec<Proposal>,
    count: usize,
) -> Result<(), Fail> {
    assert_eq!(rt; found.len(), count);
    for proposal in found {
        let answer = world.step(alloc, Event::Propose(worker, proposal))?;
        assert_eq!(rt; answer, None);
    }
    Ok(())
}

/// A worker proposes the instances of a rule on its frozen version.
fn propose_frozen(
    rt: &impl Abort,
    alloc: Global,
    world: &mut World,
    worker: u32,
    (rule, count): (Rule, usize),
) -> Result<(), Fail> {
    let Some(version) = world.frozen(worker) else {
        assert!(rt; false);
        return Ok(());
    };
    let found = scan(alloc, version, rule, Chunk::new(0))?;
    propose(rt, alloc, world, worker, found, count)
}

/// A step of a story.
fn take(
    rt: &impl Abort,
    alloc: Global,
    world: &mut World,
    other: &Problem,
    step: Step,
) -> Result<(), Fail> {
    match step {
        Step::Freeze(worker) => {
            let answer = world.step(alloc, Event::Freeze(worker))?;
            assert_eq!(rt; answer, None);
        }
        Step::Find(worker, rule, count) => {
            propose_frozen(rt, alloc, world, worker, (rule, count))?;
        }
        Step::FindOther(worker, rule, count) => {
            let found = found_on(alloc, other, rule)?;
            propose(rt, alloc, world, worker, found, count)?;
        }
        Step::Commit(worker, wanted) => {
            let answer = world.step(alloc, Event::Commit(worker))?;
            assert_eq!(rt; answer, wanted);
        }
    }
    Ok(())
}

/// The transaction at a place is this one.
fn is_told(rt: &impl Abort, book: &Book, place: usize, told: &Told) {
    let Some(transaction) = book.transactions().get(place) else {
        assert!(rt; false);
        return;
    };
    assert_eq!(rt; transaction.by(), told.by);
    assert_eq!(rt; transaction.version(), told.version);
    let reads = transaction.reads();
    assert_eq!(rt; reads.len(), told.reads.len());
    for (read, (part, changes)) in reads.iter().zip(told.reads.iter()) {
        assert_eq!(rt;
            *read,
            PartRead {
                part: *part,
                changes: *changes
            }
        );
    }
}

/// Takes steps one after the other.
fn take_all(
    rt: &impl Abort,
    alloc: Global,
    world: &mut World,
    other: &Problem,
    steps: &[Step],
) -> Result<(), Fail> {
    for step in steps {
        take(rt, alloc, world, other, *step)?;
    }
    Ok(())
}

/// The transactions are these, and no others.
fn are_told(rt: &impl Abort, book: &Book, told: &[Told]) {
    assert_eq!(rt; book.transactions().len(), told.len());
    for (place, one) in told.iter().enumerate() {
        is_told(rt, book, place, one);
    }
}

#[test]
fn two_workers(rt: HostRuntime) -> Result<(), Fail> {
    let alloc = rt.alloc();
    for story in &STORIES {
        let first = problem(&rt, alloc, story.numbers, &story.model)?;
        let other = problem(&rt, alloc, story.numbers, &story.other)?;
        let book = Book::open(alloc, first, story.numbers, story.limit)?;
        let mut world = World::new(alloc, book);
        take_all(&rt, alloc, &mut world, &other, story.steps)?;
        world.stands();
        assert_eq!(rt; world.book().limit(), story.limit);
        are_told(&rt, world.book(), story.told);
    }
    Ok(())
}

/// Applies an instance, if it is enabled.
fn apply(
    alloc: Global,
    book: &mut Book,
    version: u64,
    instance: Instance,
    changed: &mut Vec<Part>,
) -> Option<Outcome> {
    if !is_enabled(book.problem(), instance) {
        return None;
    }
    Some(book.apply(alloc, version, instance, changed))
}

#[test]
fn applied_at_once(rt: HostRuntime) -> Result<(), Fail> {
    let alloc = rt.alloc();
    let plain = problem(&rt, alloc, Numbers::Fractions, &PLAIN)?;
    let mut book = Book::open(alloc, plain, Numbers::Fractions, 1)?;
    let mut changed = Vec::new(alloc);
    let row = Instance::Reduction(Reduction::SingletonRow { row: 0 });
    let outcome = apply(alloc, &mut book, 0, row, &mut changed);
    assert_eq!(rt; outcome, Some(Outcome::Applied { place: 1 }));
    for part in [Part::Row(0), Part::Sides(0), Part::Col(0), Part::Bounds(0)] {
        assert!(rt; changed.contains(&part));
    }
    let column = Instance::Reduction(Reduction::EmptyColumn { column: 0 });
    let outcome = apply(alloc, &mut book, 1, column, &mut changed);
    assert_eq!(rt; outcome, Some(Outcome::Full));
    Ok(())
}
