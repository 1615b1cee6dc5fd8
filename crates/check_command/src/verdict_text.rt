//! Verdicts as text.

ghost use Rattle.std.specs.Prelude.{◌≡◌, ◌++◌, OnOk, IfOk};
ghost use Rattle.check_command.specs.VerdictText.{row_text, item_text, limit_text, yes_text, no_text, past_text};
ghost use Rattle.lp_check.specs.Numbered.{numbered};
ghost use Rattle.check_command.specs.Checked.{TellsVerdict};

use endings::{Ending, push_column};
use exact_texts::Textual;
use lp_check::{Item, Limit, Verdict};
use lp_model::{Labels, Program};
use std::alloc::{AllocError, Global};

/// Appends the name of a row, if there is one of this id.
pub fn push_row(out: &mut Vec<u8>, program: &Program, id: u32) -> Result<(), AllocError>
    ensures { OnOk result (out.new.items ≡ out.old.items ++ row_text program.now id) }
{
    if (id as usize) < program.row_count() {
        out.extend_from_slice(program.row_name(id as usize).as_bytes())?;
    }
    Ok(())
}

/// Appends an item by its name.
fn push_item(out: &mut Vec<u8>, program: &Program, item: Item) -> Result<(), AllocError>
    ensures { OnOk result (out.new.items ≡ out.old.items ++ item_text program.now item) }
{
    match item {
        Item::Column(id) => {
            out.extend_from_slice(b"column ")?;
            push_column(out, program, id)
        }
        Item::Row(id) => {
            out.extend_from_slice(b"row ")?;
            push_row(out, program, id)
        }
        Item::Cost => out.extend_from_slice(b"cost"),
    }
}

/// Appends how a value breaks a limit.
fn push_limit(out: &mut Vec<u8>, limit: Limit) -> Result<(), AllocError>
    ensures { OnOk result (out.new.items ≡ out.old.items ++ limit_text limit) }
{
    match limit {
        Limit::Below(end) => {
            out.extend_from_slice(b" below ")?;
            number_texts::push(out, &end)
        }
        Limit::Above(end) => {
            out.extend_from_slice(b" above ")?;
            number_texts::push(out, &end)
        }
        Limit::NotWhole => out.extend_from_slice(b" not whole"),
    }
}

fn yes_text<T: Textual>(alloc: Global, cost: &T) -> Result<Vec<u8>, AllocError>
    ensures { IfOk result (λ text. text.items ≡ yes_text T.texts.writing (T.number cost.now)) }
{
    let mut text = Vec::new(alloc);
    text.extend_from_slice(b"yes cost ")?;
    cost.push(alloc, &mut text)?;
    text.push(b'\n')?;
    Ok(text)
}

fn no_text<T: Textual>(
    alloc: Global,
    program: &Program,
    item: Item,
    value: &T,
    limit: Limit,
) -> Result<Vec<u8>, AllocError>
    ensures { IfOk result (λ text. text.items ≡ no_text T.texts.writing program.now item (T.number value.now) limit) }
{
    let mut text = Vec::new(alloc);
    text.extend_from_slice(b"no ")?;
    push_item(&mut text, program, item)?;
    text.extend_from_slice(b" value ")?;
    value.push(alloc, &mut text)?;
    push_limit(&mut text, limit)?;
    text.push(b'\n')?;
    Ok(text)
}

pub fn past_text(alloc: Global, program: &Program, item: Item) -> Result<Vec<u8>, AllocError>
    ensures { IfOk result (λ text. text.items ≡ past_text program.now item) }
{
    let mut text = Vec::new(alloc);
    text.extend_from_slice(b"past ")?;
    push_item(&mut text, program, item)?;
    text.push(b'\n')?;
    Ok(text)
}

/// The ending of a check with this verdict.
pub fn verdict_ending<T: Textual>(
    alloc: Global,
    program: &Program,
    verdict: Verdict<T>,
) -> Result<Ending, AllocError>
    ensures { IfOk result (λ ending. TellsVerdict T.texts.writing program.now (numbered T.number verdict) ending) }
{
    match verdict {
        Verdict::Yes { cost } => Ok(Ending::Done(yes_text(alloc, &cost)?)),
        Verdict::No { item, value, limit } => {
            Ok(Ending::Violated(no_text(alloc, program, item, &value, limit)?))
        }
        Verdict::Past { item } => Ok(Ending::NoRoom(past_text(alloc, program, item)?)),
    }
}
