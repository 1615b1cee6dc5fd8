//! Programs to text.

ghost use Rattle.std.specs.Prelude.{◌≡◌, ◌++◌, OnOk, IfOk, IsOkUnless, codes};
ghost use Rattle.mps_writer.specs.declared.error.WriteError.TheVariants.{NoMemory};
ghost use Rattle.mps_writer.specs.MpsText.{sense_text, section, mps_text, WidthsFit};

use crate::bounds::bounds;
use crate::columns::push_columns;
use crate::error::WriteError;
use crate::rows::{push_rows, ranges, right_sides};
use lp_model::{Program, Sense};
use std::alloc::{AllocError, Global};

/// Appends the lines in front of the rows.
fn push_head(out: &mut Vec<u8>, sense: Sense) -> Result<(), AllocError>
    ensures { OnOk result (out.new.items ≡ out.old.items ++ (codes "NAME presolved\n" ++ sense_text sense)) }
{
    match sense {
        Sense::Min => out.extend_from_slice(b"NAME presolved\n"),
        Sense::Max => out.extend_from_slice(b"NAME presolved\nOBJSENSE\n MAX\n"),
    }
}

/// Appends a section, if it has a card.
fn push_section(out: &mut Vec<u8>, heading: &[u8], cards: &[u8]) -> Result<(), AllocError>
    ensures { OnOk result (out.new.items ≡ out.old.items ++ section heading.now cards.now) }
{
    if cards.is_empty() {
        return Ok(());
    }
    out.extend_from_slice(heading)?;
    out.push(b'\n')?;
    out.extend_from_slice(cards)
}

/// The MPS text of a program, in free format: one space between words, and one value a card. Each row is to have a finite
/// side, since MPS has no card for a row without one that is not the objective; numbers that aren't decimal are written `n/d`.
///
/// # Errors
/// `Past` where the width between two different finite sides of a row is out of range, and `NoMemory`.
#[tactic(auto, using(crate::proofs::SectionLaws::sections_are))]
pub fn write_mps(alloc: Global, program: &Program) -> Result<Vec<u8>, WriteError>
    ensures text { IfOk result (λ text. text.items ≡ mps_text program.now) }
    ensures fits { WidthsFit program.now.rows → IsOkUnless result NoMemory }
{
    let mut out = Vec::new(alloc);
    push_head(&mut out, program.sense())?;
    push_rows(&mut out, program.objective(), program.rows())?;
    push_columns(
        &mut out,
        program.objective(),
        program.rows(),
        program.columns(),
    )?;
    let sides = right_sides(
        alloc,
        program.objective(),
        &program.constant(),
        program.rows(),
    )?;
    push_section(&mut out, b"RHS", sides.as_slice())?;
    let widths = ranges(alloc, program.rows())?;
    push_section(&mut out, b"RANGES", widths.as_slice())?;
    let ends = bounds(alloc, program.columns())?;
    push_section(&mut out, b"BOUNDS", ends.as_slice())?;
    out.extend_from_slice(b"ENDATA\n")?;
    Ok(out)
}
