//! Verdicts on points with duals as text.

ghost use Rattle.std.specs.Prelude.{◌≡◌, ◌++◌, OnOk, IfOk};
ghost use Rattle.check_command.specs.VerdictText.{end_text, no_dual_text, no_reduced_cost_text};
ghost use Rattle.lp_check.specs.Numbered.{numbered_found, numbered_pair};
ghost use Rattle.check_command.specs.Checked.{TellsPairVerdict};

use crate::verdict_text::{past_text, push_row, verdict_ending};
use endings::{Ending, push_column};
use exact_texts::Textual;
use lp_check::{End, Item, Misplaced, PairVerdict};
use lp_model::Program;
use std::alloc::{AllocError, Global};

/// Appends an end, `-inf` or `inf` where it is infinite.
fn push_end(out: &mut Vec<u8>, end: End) -> Result<(), AllocError>
    ensures { OnOk result (out.new.items ≡ out.old.items ++ end_text end) }
{
    match end {
        End::Lower(lower) => match lower.number() {
            Some(number) => number_texts::push(out, &number),
            None => out.extend_from_slice(b"-inf"),
        },
        End::Upper(upper) => match upper.number() {
            Some(number) => number_texts::push(out, &number),
            None => out.extend_from_slice(b"inf"),
        },
    }
}

fn no_dual_text<T: Textual>(
    alloc: Global,
    program: &Program,
    row: u32,
    found: &Misplaced<T>,
) -> Result<Vec<u8>, AllocError>
    ensures { IfOk result (λ text. text.items ≡ no_dual_text T.texts.writing program.now row (numbered_found T.number found.now)) }
{
    let mut text = Vec::new(alloc);
    text.extend_from_slice(b"no dual ")?;
    push_row(&mut text, program, row)?;
    text.extend_from_slice(b" y ")?;
    found.multiplier.push(alloc, &mut text)?;
    text.extend_from_slice(b" value ")?;
    found.value.push(alloc, &mut text)?;
    text.extend_from_slice(b" side ")?;
    push_end(&mut text, found.end)?;
    text.push(b'\n')?;
    Ok(text)
}

fn no_reduced_cost_text<T: Textual>(
    alloc: Global,
    program: &Program,
    column: u32,
    found: &Misplaced<T>,
) -> Result<Vec<u8>, AllocError>
    ensures { IfOk result (λ text. text.items ≡ no_reduced_cost_text T.texts.writing program.now column (numbered_found T.number found.now)) }
{
    let mut text = Vec::new(alloc);
    text.extend_from_slice(b"no reduced cost ")?;
    push_column(&mut text, program, column)?;
    text.extend_from_slice(b" z ")?;
    found.multiplier.push(alloc, &mut text)?;
    text.extend_from_slice(b" value ")?;
    found.value.push(alloc, &mut text)?;
    text.extend_from_slice(b" bound ")?;
    push_end(&mut text, found.end)?;
    text.push(b'\n')?;
    Ok(text)
}

/// The ending of a check of a point with duals with this verdict.
pub fn pair_verdict_ending<T: Textual>(
    alloc: Global,
    program: &Program,
    verdict: PairVerdict<T>,
) -> Result<Ending, AllocError>
    ensures { IfOk result (λ ending. TellsPairVerdict T.texts.writing program.now (numbered_pair T.number verdict) ending) }
{
    match verdict {
        PairVerdict::OnPoint(verdict) => verdict_ending(alloc, program, verdict),
        PairVerdict::Dual { row, found } => {
            Ok(Ending::Violated(no_dual_text(alloc, program, row, &found)?))
        }
        PairVerdict::ReducedCost { column, found } => Ok(Ending::Violated(no_reduced_cost_text(
            alloc, program, column, &found,
        )?)),
        PairVerdict::PastReducedCost { column } => {
            Ok(Ending::NoRoom(past_text(alloc, program, Item::Column(column))?))
        }
    }
}
