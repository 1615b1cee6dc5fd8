//! What the words ask for, done.

ghost use Rattle.endings.specs.Moments.{IsQuiet};
ghost use Rattle.explain_command.specs.Answers.{Answers, AnswersWords, IsLine, RanOut};

use crate::running::{Told, run};
use crate::words::{Words, read};
use command_words::Refusal;
use endings::INPUT_LIMIT;
use file_ports::{Files, ReadErr};
use std::alloc::Global;

/// A line with its status, or status 5 where there is no memory for it.
fn line(alloc: Global, status: u8, line: &[u8]) -> Told
    ensures { IsLine status line.now result.status result.text.items }
{
    match Vec::from_slice(alloc, line) {
        Ok(text) => Told { status, text },
        Err(_) => Told {
            status: 5,
            text: Vec::new(alloc),
        },
    }
}

/// That memory ran out.
fn no_memory(alloc: Global) -> Told
    ensures { RanOut result.status result.text.items }
{
    line(alloc, 5, b"no memory\n")
}

/// Tells of the program that IN holds. Progress is shown where that is wanted.
fn tell_of<R: Eprint, F: Files>(
    rt: &R,
    alloc: Global,
    words: &Words<'_>,
    files: &mut F,
    is_shown: bool,
) -> Told
    ensures quiet { IsQuiet (F.moment files.old) (F.moment files.new) }
    ensures answers { Answers words.now (F.moment files.old) (F.moment files.new) result.status result.text.items }
{
    let text = match files.read(alloc, words.input, INPUT_LIMIT) {
        Ok(text) => text,
        Err(ReadErr::Failed) => return line(alloc, 3, b"read fault\n"),
        Err(ReadErr::TooLong) => return line(alloc, 2, b"error M17\n"),
        Err(ReadErr::NoMemory) => return no_memory(alloc),
    };
    match run(rt, alloc, &text, words, is_shown) {
        Ok(told) => told,
        Err(_) => no_memory(alloc),
    }
}

/// Does what the words ask for, and writes no file. The first word is the program's own name. Progress is shown where that is wanted.
pub fn answer<R: Eprint, F: Files>(
    rt: &R,
    alloc: Global,
    words: &[String],
    files: &mut F,
    is_shown: bool,
) -> Told
    ensures quiet { IsQuiet (F.moment files.old) (F.moment files.new) }
    ensures answers { AnswersWords (F.moment files.old) (F.moment files.new) result.status result.text.items }
{
    match read(alloc, words) {
        Ok(words) => tell_of(rt, alloc, &words, files, is_shown),
        Err(Refusal::Words) => line(
            alloc,
            1,
            b"usage: papilo-explain IN [--fractions] [--fixed] [--opb] [--limit N] [--all] [--column NAME] [--row NAME]\n",
        ),
        Err(Refusal::NoMemory) => no_memory(alloc),
    }
}
