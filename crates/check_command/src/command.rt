//! The command `check IN SOL [--fixed] [--opb] [--wide]`.

ghost use Rattle.std.specs.Prelude.{◌≡◌, ◌≤◌, ◌⊎◌, length, option_map, IfOk, IfSome, OnErr, IsErrOf};
ghost use Rattle.command_words.specs.Seen.{check_names_of};
ghost use Rattle.endings.specs.Ending.{status_of, text_of};
ghost use Rattle.endings.specs.Moments.{FailsToRead, Finds, IsQuiet};
ghost use Rattle.check_command.specs.Checked.{EndsCheck};

use crate::judging::judge;
use command_words::CheckWords;
use endings::{Ending, INPUT_LIMIT, SOLUTION_LIMIT, Unread, form_with, read_within};
use file_ports::Files;
use fractions::Numbers;
use std::alloc::{AllocError, Global};

/// The bytes of IN and of SOL; none of a name that holds more than is read.
#[derive(Drop)]
struct BothTexts {
    input: Option<Vec<u8>>,
    solution: Option<Vec<u8>>,
}

/// Reads IN, then SOL.
fn read_both<F: Files>(
    alloc: Global,
    input: &str,
    solution: &str,
    files: &mut F,
) -> Result<BothTexts, Unread>
    ensures input { IfOk result (λ both. Finds INPUT_LIMIT input.now (F.moment files.old) (F.moment files.new) (option_map (λ bytes. bytes.items) both.input)) }
    ensures solution { IfOk result (λ both. Finds SOLUTION_LIMIT solution.now (F.moment files.old) (F.moment files.new) (option_map (λ bytes. bytes.items) both.solution)) }
    ensures most { IfOk result (λ both. IfSome both.input (λ bytes. length bytes.items ≤ INPUT_LIMIT)) }
    ensures failed { IsErrOf result Unread.Failed → FailsToRead input.now (F.moment files.old) (F.moment files.new) ⊎ FailsToRead solution.now (F.moment files.old) (F.moment files.new) }
    ensures kept { IsQuiet (F.moment files.old) (F.moment files.new) }
{
    let input = read_within(alloc, input, INPUT_LIMIT, files)?;
    let solution = read_within(alloc, solution, SOLUTION_LIMIT, files)?;
    Ok(BothTexts { input, solution })
}

/// Reads a program and a solution, and says whether the solution's point meets the program; or a ray in the place of a solution, and says
/// whether it proves that no point does. No file is written.
pub fn check<F: Files>(
    alloc: Global,
    words: &CheckWords<'_>,
    files: &mut F,
) -> Result<Ending, AllocError>
    ensures ends { IfOk result (λ e. EndsCheck (check_names_of words.now) (status_of e) (text_of e) (F.moment files.old) (F.moment files.new)) }
    ensures no_memory { OnErr result (IsQuiet (F.moment files.old) (F.moment files.new)) }
{
    let form = form_with(words.format, Numbers::Fractions);
    match read_both(alloc, words.input, words.solution, files) {
        Ok(BothTexts { input, solution }) => judge(alloc, input, solution, form, words.wide),
        Err(Unread::Failed) => Ok(Ending::ReadFault),
        Err(Unread::NoMemory) => Err(AllocError),
    }
}
