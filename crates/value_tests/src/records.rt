//! What no text of records shows: names by id of records that are made, and the size of a record.

use fractions::frac::Frac;
use lp_model::{Labels, Name, Sense, Term, Terms, is_name};
use std::alloc::{AllocError, Global};
use std::mem::size_of;
use std::process::Abort;
use std::test::Fail;
use undo_records::{FixedColumn, KeptNumber, Label, Records, TermsApart, Undo};

/// A column or row of this name.
fn label(rt: &impl Abort, alloc: Global, name: &[u8], live: bool) -> Result<Label, AllocError> {
    assert!(rt; is_name(name));
    Ok(Label {
        name: Name::from_slice(alloc, name)?,
        live,
    })
}

#[test]
fn keeps_names_and_records(rt: HostRuntime) -> Result<(), Fail> {
    let alloc = rt.alloc();
    let columns = vec![in alloc; label(&rt, alloc, b"x", false)?]?;
    let rows = vec![in alloc; label(&rt, alloc, b"C1", true)?]?;
    let one = Term {
        id: 0,
        value: Frac::one(),
    };
    let fixed = Undo::FixedColumn(FixedColumn {
        column: 0,
        value: KeptNumber::new(alloc, Frac::one())?,
        cost: KeptNumber::new(alloc, Frac::one())?,
        entries: Terms::new(vec![in alloc; one]?),
    });
    let undos = vec![in alloc; fixed]?;
    let made = Records::checked(alloc, Sense::Min, true, columns, rows, Frac::zero(), undos)?;
    let records = made.expect(&rt, "sound records");
    assert_eq!(rt; records.column_count(), 1);
    assert!(rt; records.column_name(0).as_bytes() == b"x".as_slice());
    let apart = TermsApart::new(alloc, Terms::new(vec![in alloc; one]?))?;
    assert_eq!(rt; apart.as_slice().len(), 1);
    assert!(rt; size_of::<Undo>() <= 80);
    Ok(())
}
