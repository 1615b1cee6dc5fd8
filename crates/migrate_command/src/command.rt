//! The command `migrate REC NEW`.

ghost use Rattle.std.specs.Prelude.{IfOk, OnErr};
ghost use Rattle.command_words.specs.Seen.{migrate_names_of};
ghost use Rattle.endings.specs.Ending.{status_of, text_of};
ghost use Rattle.endings.specs.Moments.{IsQuiet};
ghost use Rattle.migrate_command.specs.Migrated.{EndsMigrate};

use crate::migrated::migrated;
use command_words::MigrateWords;
use endings::{Ending, Unread, read_within};
use file_ports::{Failed, Files};
use record_texts::{NoRecords, RECORDS_LIMIT};
use std::alloc::{AllocError, Global};

/// Reads records, and writes them as a text of the second version. All that is written and printed is made before the write.
pub fn migrate<F: Files>(
    alloc: Global,
    words: &MigrateWords<'_>,
    files: &mut F,
) -> Result<Ending, AllocError>
    ensures ends { IfOk result (λ e. EndsMigrate (migrate_names_of words.now) (status_of e) (text_of e) (F.moment files.old) (F.moment files.new)) }
    ensures no_memory { OnErr result (IsQuiet (F.moment files.old) (F.moment files.new)) }
{
    let found = match read_within(alloc, words.records, RECORDS_LIMIT, files) {
        Ok(found) => found,
        Err(Unread::Failed) => return Ok(Ending::ReadFault),
        Err(Unread::NoMemory) => return Err(AllocError),
    };
    let texts = match migrated(alloc, found) {
        Ok(texts) => texts,
        Err(NoRecords::Refused(line)) => return Ok(Ending::RecordsRefused(line)),
        Err(NoRecords::NoMemory) => return Err(AllocError),
    };
    match files.write(words.written, &texts.written) {
        Ok(()) => Ok(Ending::Done(texts.printed)),
        Err(Failed) => Ok(Ending::WriteFault),
    }
}
