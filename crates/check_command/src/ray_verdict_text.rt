//! Verdicts on rays as text.

ghost use Rattle.std.specs.Prelude.{◌≡◌, IfOk};
ghost use Rattle.check_command.specs.RayVerdictText.{no_row_text, no_column_text, no_total_text};
ghost use Rattle.check_command.specs.JudgedRay.{TellsRayVerdict};

use crate::verdict_text::{past_text, push_row};
use endings::{Ending, push_column};
use fractions::frac::Frac;
use lp_check::Item;
use lp_model::Program;
use ray_check::RayChecked;
use std::alloc::{AllocError, Global};

fn no_row_text(alloc: Global, program: &Program, row: u32) -> Result<Vec<u8>, AllocError>
    ensures { IfOk result (λ text. text.items ≡ no_row_text program.now row) }
{
    let mut text = Vec::new(alloc);
    text.extend_from_slice(b"no ray row ")?;
    push_row(&mut text, program, row)?;
    text.push(b'\n')?;
    Ok(text)
}

fn no_column_text(alloc: Global, program: &Program, column: u32) -> Result<Vec<u8>, AllocError>
    ensures { IfOk result (λ text. text.items ≡ no_column_text program.now column) }
{
    let mut text = Vec::new(alloc);
    text.extend_from_slice(b"no ray column ")?;
    push_column(&mut text, program, column)?;
    text.push(b'\n')?;
    Ok(text)
}

fn no_total_text(alloc: Global, total: &Frac) -> Result<Vec<u8>, AllocError>
    ensures { IfOk result (λ text. text.items ≡ no_total_text total.now) }
{
    let mut text = Vec::new(alloc);
    text.extend_from_slice(b"no ray total ")?;
    number_texts::push(&mut text, total)?;
    text.push(b'\n')?;
    Ok(text)
}

/// The ending of a check of a ray with this verdict.
pub fn ray_verdict_ending(
    alloc: Global,
    program: &Program,
    verdict: RayChecked,
) -> Result<Ending, AllocError>
    ensures { IfOk result (λ ending. TellsRayVerdict program.now verdict ending) }
{
    match verdict {
        RayChecked::Yes => Ok(Ending::Done(Vec::from_slice(alloc, b"yes infeasible\n")?)),
        RayChecked::NoRow(row) => Ok(Ending::Violated(no_row_text(alloc, program, row)?)),
        RayChecked::NoColumn(column) => {
            Ok(Ending::Violated(no_column_text(alloc, program, column)?))
        }
        RayChecked::NoTotal(total) => Ok(Ending::Violated(no_total_text(alloc, &total)?)),
        RayChecked::PastColumn(column) => {
            Ok(Ending::NoRoom(past_text(alloc, program, Item::Column(column))?))
        }
        RayChecked::PastTotal => Ok(Ending::NoRoom(Vec::from_slice(alloc, b"past total\n")?)),
    }
}
