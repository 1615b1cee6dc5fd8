//! What is said of the texts of IN, OUT and REC.

ghost use Rattle.std.specs.Prelude.{◌≡◌, ◌≤◌, length, IfSome};
ghost use Rattle.file_ports.specs.Ports.{Moment};
ghost use Rattle.command_words.specs.Names.{VerifyNames};
ghost use Rattle.endings.specs.declared.reads.TheConstants.{INPUT_LIMIT};
ghost use Rattle.record_texts.specs.declared.reading.TheConstants.{RECORDS_LIMIT};
ghost use Rattle.verify_command.specs.Given.{input_form};
ghost use Rattle.verify_command.specs.Verifying.{AreFound, IsSaid};

use crate::given::{Found, program_of};
use crate::refusal::Refusal;
use crate::verdict_text::verdict_ending;
use endings::{Ending, Form, fractions_form};
use record_texts::records_of;
use record_verify::verify;
use std::alloc::Global;

/// What is said of the texts of IN, OUT and REC, which are looked at in this order.
pub fn judge(alloc: Global, found: Found, form: Form) -> Result<Ending, Refusal>
    requires input { IfSome found.input (λ text. length text.items ≤ INPUT_LIMIT) }
    requires output { IfSome found.output (λ text. length text.items ≤ INPUT_LIMIT) }
    requires records { IfSome found.records (λ text. length text.items ≤ RECORDS_LIMIT) }
    ensures { (names : VerifyNames) → (before now : Moment) → form ≡ input_form names → AreFound names found before now → IsSaid names result before now }
{
    let Found {
        input,
        output,
        records,
    } = found;
    let program = program_of(alloc, input, form)?;
    let reduced = program_of(alloc, output, fractions_form(false))?;
    let records = records_of(alloc, records)?;
    let said = verify(alloc, &program, &reduced, &records)?;
    records.is_sound();
    records.is_named();
    records.is_told();
    let ending = verdict_ending(alloc, said)?;
    Ok(ending)
}
