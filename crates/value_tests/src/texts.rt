//! What no text of a program shows: numbers behind other bytes, and in format strings.

use fractions::frac::Frac;
use fractions::whole::Whole;
use number_texts::{Displayed, push};
use std::test::Fail;

#[test]
fn writes_behind_and_shows(rt: HostRuntime) -> Result<(), Fail> {
    let tenth = Frac::ratio_of(Whole::natural(1), 10);
    let third = Frac::ratio_of(Whole::natural(1), 3);
    let mut out = Vec::new(rt.alloc());
    out.push(b'=')?;
    push(&mut out, &tenth)?;
    assert!(rt; out.as_slice() == b"=0.1".as_slice());
    let shown = format!(in rt.alloc(); "{}", Displayed(&third))?;
    assert!(rt; shown.as_bytes() == b"1/3".as_slice());
    Ok(())
}
