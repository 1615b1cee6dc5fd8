//! The command `verify IN OUT REC [--fixed] [--opb]`.

ghost use Rattle.std.specs.Prelude.{◌≤◌, length, option_map, IfOk, IfSome, OnErr, IsErrOf};
ghost use Rattle.command_words.specs.Seen.{verify_names_of};
ghost use Rattle.endings.specs.Ending.{status_of, text_of};
ghost use Rattle.endings.specs.Moments.{Finds, IsQuiet};
ghost use Rattle.endings.specs.declared.reads.TheConstants.{INPUT_LIMIT};
ghost use Rattle.record_texts.specs.declared.reading.TheConstants.{RECORDS_LIMIT};
ghost use Rattle.verify_command.specs.Verifying.{EndsVerify, IsUnread};

use crate::given::Found;
use crate::judging::judge;
use crate::refusal::Refusal;
use command_words::VerifyWords;
use endings::{Ending, INPUT_LIMIT, Unread, form_with, read_within};
use file_ports::Files;
use fractions::Numbers;
use record_texts::RECORDS_LIMIT;
use std::alloc::{AllocError, Global};

/// Reads IN, then OUT, then REC.
fn read_all<F: Files>(
    alloc: Global,
    words: &VerifyWords<'_>,
    files: &mut F,
) -> Result<Found, Unread>
    ensures input { IfOk result (λ found. Finds INPUT_LIMIT words.now.input.now (F.moment files.old) (F.moment files.new) (option_map (λ text. text.items) found.input)) }
    ensures output { IfOk result (λ found. Finds INPUT_LIMIT words.now.output.now (F.moment files.old) (F.moment files.new) (option_map (λ text. text.items) found.output)) }
    ensures records { IfOk result (λ found. Finds RECORDS_LIMIT words.now.records.now (F.moment files.old) (F.moment files.new) (option_map (λ text. text.items) found.records)) }
    ensures most_of_input { IfOk result (λ found. IfSome found.input (λ text. length text.items ≤ INPUT_LIMIT)) }
    ensures most_of_output { IfOk result (λ found. IfSome found.output (λ text. length text.items ≤ INPUT_LIMIT)) }
    ensures most_of_records { IfOk result (λ found. IfSome found.records (λ text. length text.items ≤ RECORDS_LIMIT)) }
    ensures failed { IsErrOf result Unread.Failed → IsUnread (verify_names_of words.now) (F.moment files.old) (F.moment files.new) }
    ensures kept { IsQuiet (F.moment files.old) (F.moment files.new) }
{
    let input = read_within(alloc, words.input, INPUT_LIMIT, files)?;
    let output = read_within(alloc, words.output, INPUT_LIMIT, files)?;
    let records = read_within(alloc, words.records, RECORDS_LIMIT, files)?;
    Ok(Found {
        input,
        output,
        records,
    })
}

/// Reads a program, a reduced one and records, and says whether the records lead from the one to the other. No file is written.
pub fn verify<F: Files>(
    alloc: Global,
    words: &VerifyWords<'_>,
    files: &mut F,
) -> Result<Ending, AllocError>
    ensures ends { IfOk result (λ e. EndsVerify (verify_names_of words.now) (status_of e) (text_of e) (F.moment files.old) (F.moment files.new)) }
    ensures no_memory { OnErr result (IsQuiet (F.moment files.old) (F.moment files.new)) }
{
    let form = form_with(words.format, Numbers::Fractions);
    let found = match read_all(alloc, words, files) {
        Ok(found) => found,
        Err(Unread::Failed) => return Ok(Ending::ReadFault),
        Err(Unread::NoMemory) => return Err(AllocError),
    };
    match judge(alloc, found, form) {
        Ok(ending) => Ok(ending),
        Err(Refusal::Program(line)) => Ok(Ending::Refused(line)),
        Err(Refusal::Records(line)) => Ok(Ending::RecordsRefused(line)),
        Err(Refusal::NoMemory) => Err(AllocError),
    }
}
