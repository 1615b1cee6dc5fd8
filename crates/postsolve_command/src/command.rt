//! The command `postsolve OUT REC SOL RESULT [--wide]`.

ghost use Rattle.std.specs.Prelude.{◌≡◌, ◌≤◌, length, option_map, IfOk, IfSome, OnErr, IsErrOf};
ghost use Rattle.file_ports.specs.Ports.{Moment, NeverFall};
ghost use Rattle.command_words.specs.Names.{PostsolveNames};
ghost use Rattle.command_words.specs.Seen.{postsolve_names_of};
ghost use Rattle.endings.specs.Ending.{status_of, text_of};
ghost use Rattle.endings.specs.Moments.{Finds, IsQuiet};
ghost use Rattle.endings.specs.declared.reads.TheConstants.{SOLUTION_LIMIT};
ghost use Rattle.record_texts.specs.declared.reading.TheConstants.{RECORDS_LIMIT};
ghost use Rattle.postsolve_command.specs.declared.given.TheConstants.{PROGRAM_LIMIT};
ghost use Rattle.lp_model.specs.Writable.{EntriesAscend};
ghost use Rattle.record_reader.specs.Matching.{Matches};
ghost use Rattle.postsolve_command.specs.Postsolved.{AreFound, BringsBack, EndsPostsolve, IsBrought, IsUnread};

use crate::given::{Found, PROGRAM_LIMIT, pair_of, program_of, see_duals, see_match};
use crate::lifted::{Texts, lifted_texts};
use crate::refusal::Refusal;
use command_words::PostsolveWords;
use endings::{Ending, SOLUTION_LIMIT, Unread, read_within};
use exact_texts::Textual;
use file_ports::{Failed, Files};
use fractions::frac::Frac;
use lp_model::Program;
use record_texts::{RECORDS_LIMIT, records_of};
use std::alloc::{AllocError, Global};
use undo_records::Records;
use wide_numbers::Wide;

/// Reads OUT, then REC, then SOL.
fn read_all<F: Files>(
    alloc: Global,
    words: &PostsolveWords<'_>,
    files: &mut F,
) -> Result<Found, Unread>
    ensures program { IfOk result (λ found. Finds PROGRAM_LIMIT words.now.program.now (F.moment files.old) (F.moment files.new) (option_map (λ text. text.items) found.program)) }
    ensures records { IfOk result (λ found. Finds RECORDS_LIMIT words.now.records.now (F.moment files.old) (F.moment files.new) (option_map (λ text. text.items) found.records)) }
    ensures solution { IfOk result (λ found. Finds SOLUTION_LIMIT words.now.solution.now (F.moment files.old) (F.moment files.new) (option_map (λ text. text.items) found.solution)) }
    ensures most_of_program { IfOk result (λ found. IfSome found.program (λ text. length text.items ≤ PROGRAM_LIMIT)) }
    ensures most_of_records { IfOk result (λ found. IfSome found.records (λ text. length text.items ≤ RECORDS_LIMIT)) }
    ensures failed { IsErrOf result Unread.Failed → IsUnread (postsolve_names_of words.now) (F.moment files.old) (F.moment files.new) }
    ensures kept { IsQuiet (F.moment files.old) (F.moment files.new) }
    ensures writes_stay { NeverFall (F.moment files.old).writes (F.moment files.new).writes }
{
    let program = read_within(alloc, words.program, PROGRAM_LIMIT, files)?;
    let records = read_within(alloc, words.records, RECORDS_LIMIT, files)?;
    let solution = read_within(alloc, words.solution, SOLUTION_LIMIT, files)?;
    Ok(Found {
        program,
        records,
        solution,
    })
}

/// What is made of SOL's text by a program and its records, in numbers of a kind.
fn brought_by<T: Textual>(
    alloc: Global,
    program: &Program,
    records: &Records,
    solution: Option<Vec<u8>>,
) -> Result<Texts, Refusal>
    requires matches { Matches records.now program.now }
    requires ascends { EntriesAscend program.now }
    ensures { BringsBack T.room T.texts program.now records.now (option_map (λ text. text.items) solution) result }
{
    let pair = pair_of::<T>(alloc, program, solution)?;
    see_duals(alloc, records, &pair)?;
    lifted_texts(alloc, program, records, pair)
}

/// What is made of the texts of OUT, REC and SOL, of which OUT is looked at first, by numbers of any width if they are asked for.
fn bring_back(alloc: Global, found: Found, wide: bool) -> Result<Texts, Refusal>
    requires program { IfSome found.program (λ text. length text.items ≤ PROGRAM_LIMIT) }
    requires records { IfSome found.records (λ text. length text.items ≤ RECORDS_LIMIT) }
    ensures { (names : PostsolveNames) → (before now : Moment) → wide ≡ names.wide → AreFound names found before now → IsBrought names result before now }
{
    let Found {
        program,
        records,
        solution,
    } = found;
    let program = program_of(alloc, program)?;
    let records = records_of(alloc, records)?;
    see_match(alloc, &records, &program)?;
    if wide {
        brought_by::<Wide>(alloc, &program, &records, solution)
    } else {
        brought_by::<Frac>(alloc, &program, &records, solution)
    }
}

/// Reads a reduced program, its records and a solution, and writes what the solution is brought back to. All that is written and
/// printed is made before the write.
pub fn postsolve<F: Files>(
    alloc: Global,
    words: &PostsolveWords<'_>,
    files: &mut F,
) -> Result<Ending, AllocError>
    ensures ends { IfOk result (λ e. EndsPostsolve (postsolve_names_of words.now) (status_of e) (text_of e) (F.moment files.old) (F.moment files.new)) }
    ensures no_memory { OnErr result (IsQuiet (F.moment files.old) (F.moment files.new)) }
{
    let found = match read_all(alloc, words, files) {
        Ok(found) => found,
        Err(Unread::Failed) => return Ok(Ending::ReadFault),
        Err(Unread::NoMemory) => return Err(AllocError),
    };
    let texts = match bring_back(alloc, found, words.wide) {
        Ok(texts) => texts,
        Err(Refusal::Program(line)) => return Ok(Ending::Refused(line)),
        Err(Refusal::Records(line)) => return Ok(Ending::RecordsRefused(line)),
        Err(Refusal::Solution(line)) => return Ok(Ending::SolutionRefused(line)),
        Err(Refusal::Stopped(line)) => return Ok(Ending::NoRoom(line)),
        Err(Refusal::NoMemory) => return Err(AllocError),
    };
    match files.write(words.result, &texts.result) {
        Ok(()) => Ok(Ending::Done(texts.printed)),
        Err(Failed) => Ok(Ending::WriteFault),
    }
}
