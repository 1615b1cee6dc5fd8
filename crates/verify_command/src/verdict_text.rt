//! What is said of records as text.

ghost use Rattle.std.specs.Prelude.{◌≡◌, IfOk};
ghost use Rattle.verify_command.specs.VerdictText.{step_text, flaw_text, yes_text, TellsVerified};

use endings::Ending;
use fractions::frac::Frac;
use number_texts::Displayed;
use record_verify::{Flaw, StepFlaw, Verified};
use std::alloc::{AllocError, Global};

fn yes_text(alloc: Global, records: u64, offset: &Frac) -> Result<Vec<u8>, AllocError>
    ensures { IfOk result (λ text. text.items ≡ yes_text records offset.now) }
{
    let line = format!(in alloc; "yes records {records} offset {}\n", Displayed(offset))?;
    Vec::from_slice(alloc, line.as_bytes())
}

fn step_text(alloc: Global, number: u64, why: StepFlaw) -> Result<Vec<u8>, AllocError>
    ensures { IfOk result (λ text. text.items ≡ step_text number why) }
{
    match why {
        StepFlaw::NotEnabled => {
            let line = format!(in alloc; "no record {number} not enabled\n")?;
            Vec::from_slice(alloc, line.as_bytes())
        }
        StepFlaw::Reading => {
            let line = format!(in alloc; "no record {number} reading\n")?;
            Vec::from_slice(alloc, line.as_bytes())
        }
        StepFlaw::Past => {
            let line = format!(in alloc; "no record {number} past\n")?;
            Vec::from_slice(alloc, line.as_bytes())
        }
        StepFlaw::Fields => {
            let line = format!(in alloc; "no record {number} fields\n")?;
            Vec::from_slice(alloc, line.as_bytes())
        }
    }
}

fn flaw_text(alloc: Global, flaw: Flaw) -> Result<Vec<u8>, AllocError>
    ensures { IfOk result (λ text. text.items ≡ flaw_text flaw) }
{
    match flaw {
        Flaw::Header => Vec::from_slice(alloc, b"no header\n"),
        Flaw::Step { number, why } => step_text(alloc, number, why),
        Flaw::Program => Vec::from_slice(alloc, b"no program\n"),
        Flaw::Offset => Vec::from_slice(alloc, b"no offset\n"),
    }
}

/// The ending by what is said of records.
pub fn verdict_ending(alloc: Global, said: Verified) -> Result<Ending, AllocError>
    ensures { IfOk result (λ ending. TellsVerified said ending) }
{
    match said {
        Verified::Yes { records, offset } => {
            Ok(Ending::Done(yes_text(alloc, records, &offset)?))
        }
        Verified::No { why } => Ok(Ending::Violated(flaw_text(alloc, why)?)),
    }
}
