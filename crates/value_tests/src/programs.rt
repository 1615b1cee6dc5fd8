//! The plain program on a small model, with values worked by hand.

use fractions::Numbers;
use fractions::ext::Ext;
use fractions::frac::Frac;
use fractions::whole::Whole;
use lp_model::{
    ColumnDef, Name, Point, Program, RowDef, Sense, Term, Terms, Violation, cost, first_violation,
    is_feasible, is_name, names_differ, no_worse,
};
use std::alloc::{AllocError, Global};
use std::process::Abort;
use std::test::Fail;

fn number(value: i32) -> Frac {
    Frac::whole(Whole::new(value as i128))
}

fn at(value: i32) -> Ext {
    Ext::at(number(value))
}

fn name(rt: &impl Abort, alloc: Global, bytes: &[u8]) -> Result<Name, AllocError> {
    assert!(rt; is_name(bytes));
    Name::from_slice(alloc, bytes)
}

fn column(
    rt: &impl Abort,
    alloc: Global,
    named: &[u8],
    cost: i32,
    lower: i32,
    rows: &[u32],
) -> Result<ColumnDef, AllocError> {
    let mut terms = Vec::new(alloc);
    for row in rows {
        terms.push(Term {
            id: *row,
            value: number(1),
        })?;
    }
    Ok(ColumnDef {
        name: name(rt, alloc, named)?,
        cost: number(cost),
        lower: at(lower),
        upper: Ext::none(),
        whole: false,
        semi: false,
        entries: Terms::new(terms),
    })
}

fn row(
    rt: &impl Abort,
    alloc: Global,
    named: &[u8],
    lower: i32,
    upper: Ext,
) -> Result<RowDef, AllocError> {
    Ok(RowDef {
        name: name(rt, alloc, named)?,
        lower: at(lower),
        upper,
    })
}

/// min x + 2 y; C1: x = 3; C2: x + y >= 5.
fn whole_program(rt: &impl Abort, alloc: Global) -> Result<Program, AllocError> {
    let mut rows = Vec::new(alloc);
    rows.push(row(rt, alloc, b"C1", 3, at(3))?)?;
    rows.push(row(rt, alloc, b"C2", 5, Ext::none())?)?;
    let mut columns = Vec::new(alloc);
    columns.push(column(rt, alloc, b"x", 1, 0, &[0, 1])?)?;
    columns.push(column(rt, alloc, b"y", 2, 0, &[1])?)?;
    let cost = name(rt, alloc, b"COST")?;
    assert!(rt; names_differ(&cost, rows.as_slice(), columns.as_slice()));
    Ok(Program::new(Sense::Min, cost, number(0), rows, columns))
}

/// What is left of it: min 2 y + 3; y >= 2.
fn reduced_program(rt: &impl Abort, alloc: Global) -> Result<Program, AllocError> {
    let mut columns = Vec::new(alloc);
    columns.push(column(rt, alloc, b"y", 2, 2, &[])?)?;
    let cost = name(rt, alloc, b"COST")?;
    assert!(rt; names_differ(&cost, &[], columns.as_slice()));
    Ok(Program::new(Sense::Min, cost, number(3), Vec::new(alloc), columns))
}

fn point(alloc: Global, values: &[i32]) -> Result<Point, AllocError> {
    let mut numbers = Vec::new(alloc);
    for value in values {
        numbers.push(number(*value))?;
    }
    Ok(Point::new(numbers))
}

fn is_side(found: &Option<Violation>, row: usize, value: &Frac, limit: &Frac) -> bool {
    match found {
        Some(
            Violation::Side {
                row: i,
                value: v,
                limit: l,
            },
        ) => *i == row && v.is_same(value) && l.is_same(limit),
        _ => false,
    }
}

#[test]
fn judges_points(rt: HostRuntime) -> Result<(), Fail> {
    let alloc = rt.alloc();
    let whole = whole_program(&rt, alloc)?;
    for (values, feasible, price) in [([3, 2], true, 7), ([3, 1], false, 5)] {
        let point = point(alloc, &values)?;
        assert!(rt; point.as_slice().len() == whole.columns().len());
        assert!(rt; is_feasible(&whole, &point)? == feasible);
        assert!(rt; cost(&whole, &point)?.is_same(&number(price)));
    }
    Ok(())
}

#[test]
fn costs_the_same_when_reduced(rt: HostRuntime) -> Result<(), Fail> {
    let alloc = rt.alloc();
    let reduced = reduced_program(&rt, alloc)?;
    let point = point(alloc, &[2])?;
    assert!(rt; point.as_slice().len() == reduced.columns().len());
    assert!(rt; is_feasible(&reduced, &point)?);
    assert!(rt; cost(&reduced, &point)?.is_same(&number(7)));
    Ok(())
}

#[test]
fn names_what_is_violated(rt: HostRuntime) -> Result<(), Fail> {
    let alloc = rt.alloc();
    let program = whole_program(&rt, alloc)?;
    let point = point(alloc, &[3, 1])?;
    assert!(rt; point.as_slice().len() == program.columns().len());
    let found = first_violation(&program, &point)?;
    assert!(rt; is_side(&found, 1, &number(4), &number(5)));
    Ok(())
}

#[test]
fn compares_costs(rt: HostRuntime) {
    for (sense, a, b, no_worse_than) in [
        (Sense::Min, 1, 2, true),
        (Sense::Min, 2, 1, false),
        (Sense::Max, 1, 2, false),
        (Sense::Max, 2, 1, true),
        (Sense::Max, 2, 2, true),
    ] {
        assert!(rt; no_worse(sense, &number(a), &number(b)) == no_worse_than);
    }
}

/// The upper side of the row C1 from 3 up, the rows in which the one column stands, and whether the program can be written and its entries
/// ascend.
const ENTRIES: [(i32, &[u32], bool, bool); 6] = [
    (3, &[0, 1], true, true),
    (2, &[], false, true),
    (4, &[1, 0], true, false),
    (4, &[1, 1], true, false),
    (4, &[2], true, false),
    (2, &[2], false, false),
];

#[test]
fn tells_whether_programs_can_be_written(rt: HostRuntime) -> Result<(), Fail> {
    let alloc = rt.alloc();
    for (upper, entries, writable, ascends) in ENTRIES {
        let mut rows = Vec::new(alloc);
        rows.push(row(&rt, alloc, b"C1", 3, at(upper))?)?;
        rows.push(row(&rt, alloc, b"C2", 5, Ext::none())?)?;
        let mut columns = Vec::new(alloc);
        columns.push(column(&rt, alloc, b"x", 1, 0, entries)?)?;
        let cost = name(&rt, alloc, b"COST")?;
        assert!(rt; names_differ(&cost, rows.as_slice(), columns.as_slice()));
        let program = Program::new(Sense::Min, cost, number(0), rows, columns);
        assert!(rt; program.is_writable(Numbers::Decimal) == writable);
        assert!(rt; program.has_ascending_entries() == ascends);
    }
    Ok(())
}

/// Names of the rows and of the columns of a program with the objective COST, and whether they differ.
const NAMES: [(&[&[u8]], &[&[u8]], bool); 6] = [
    (&[], &[], true),
    (&[b"C1", b"C2"], &[b"C1", b"x"], true),
    (&[b"C1"], &[b"COST"], true),
    (&[b"C1", b"C2", b"C1"], &[b"x"], false),
    (&[b"C1", b"COST"], &[b"x"], false),
    (&[b"C1"], &[b"x", b"y", b"y"], false),
];

#[test]
fn tells_whether_names_differ(rt: HostRuntime) -> Result<(), Fail> {
    let alloc = rt.alloc();
    let cost = name(&rt, alloc, b"COST")?;
    for (row_names, column_names, differ) in NAMES {
        let mut rows = Vec::new(alloc);
        for name in row_names {
            rows.push(row(&rt, alloc, name, 0, Ext::none())?)?;
        }
        let mut columns = Vec::new(alloc);
        for name in column_names {
            columns.push(column(&rt, alloc, name, 0, 0, &[])?)?;
        }
        assert!(rt; names_differ(&cost, rows.as_slice(), columns.as_slice()) == differ);
    }
    Ok(())
}

/// Bytes, and whether they can be a name.
const BYTES: [(&[u8], bool); 7] = [
    (b"x", true),
    (b"'MARKER'", true),
    (b"a\r", true),
    (b"", false),
    (b"a b", false),
    (b"a\t", false),
    (b"\na", false),
];

#[test]
fn tells_names(rt: HostRuntime) {
    for (bytes, named) in BYTES {
        assert!(rt; is_name(bytes) == named);
    }
}
