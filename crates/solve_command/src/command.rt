//! The command `solve IN SOL [--pivots N] [--fixed]`.

ghost use Rattle.std.specs.Prelude.{IfOk, OnErr};
ghost use Rattle.command_words.specs.Seen.{solve_names_of};
ghost use Rattle.endings.specs.Ending.{status_of, text_of};
ghost use Rattle.endings.specs.Moments.{IsQuiet};
ghost use Rattle.solve_command.specs.Solving.{EndsSolve};

use crate::answer::solved_texts;
use crate::refusal::Unsolved;
use command_words::SolveWords;
use endings::{Ending, INPUT_LIMIT, Unread, fractions_form, read_within};
use file_ports::{Failed, Files};
use std::alloc::{AllocError, Global};

/// Reads a program, and writes a best point with duals that prove it, by so many pivots at most. Where there is none, or it isn't found,
/// nothing is written. All that is written and printed is made before the write.
pub fn solve<F: Files>(
    alloc: Global,
    words: &SolveWords<'_>,
    files: &mut F,
) -> Result<Ending, AllocError>
    ensures ends { IfOk result (λ e. EndsSolve (solve_names_of words.now) (status_of e) (text_of e) (F.moment files.old) (F.moment files.new)) }
    ensures no_memory { OnErr result (IsQuiet (F.moment files.old) (F.moment files.new)) }
{
    let found = match read_within(alloc, words.input, INPUT_LIMIT, files) {
        Ok(found) => found,
        Err(Unread::Failed) => return Ok(Ending::ReadFault),
        Err(Unread::NoMemory) => return Err(AllocError),
    };
    let texts = match solved_texts(alloc, found, fractions_form(words.fixed), words.pivots) {
        Ok(texts) => texts,
        Err(Unsolved::Ends(ending)) => return Ok(ending),
        Err(Unsolved::NoMemory) => return Err(AllocError),
    };
    match files.write(words.solution, &texts.written) {
        Ok(()) => Ok(Ending::Done(texts.printed)),
        Err(Failed) => Ok(Ending::WriteFault),
    }
}
