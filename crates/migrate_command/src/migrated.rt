//! The text of the second version that is made of a text of records.

ghost use Rattle.std.specs.Prelude.{◌≡◌, ◌≤◌, length, option_map, IfOk, IfSome};
ghost use Rattle.file_ports.specs.Ports.{Moment};
ghost use Rattle.command_words.specs.Names.{MigrateNames};
ghost use Rattle.endings.specs.Moments.{Finds};
ghost use Rattle.record_texts.specs.declared.reading.TheConstants.{RECORDS_LIMIT};
ghost use Rattle.migrate_command.specs.Migrated.{IsMigration, count_text};

use record_file::write_records;
use record_round_trip::records_come_back;
use record_texts::{NoRecords, records_of};
use record_values::TextVersion;
use std::alloc::{AllocError, Global};
use undo_records::Records;

/// What a migration writes, and what it prints.
#[derive(Drop)]
pub struct Texts {
    pub written: Vec<u8>,
    pub printed: Vec<u8>,
}

/// The line that counts records.
fn count_line(alloc: Global, records: &Records) -> Result<Vec<u8>, AllocError>
    ensures { IfOk result (λ line. line.items ≡ count_text records.now) }
{
    let count = records.undos().len();
    let text = format!(in alloc; "records {count}\n")?;
    Vec::from_slice(alloc, text.as_bytes())
}

/// Makes the texts of what was found of REC; where that is none, it was longer than is read.
pub fn migrated(alloc: Global, found: Option<Vec<u8>>) -> Result<Texts, NoRecords>
    requires { IfSome found (λ text. length text.items ≤ RECORDS_LIMIT) }
    ensures { (names : MigrateNames) → (before now : Moment) → Finds RECORDS_LIMIT names.records before now (option_map (λ text. text.items) found)
        → IsMigration names result before now }
{
    let records = records_of(alloc, found)?;
    records_come_back(&records);
    let written = write_records(alloc, &records, TextVersion::Second)?;
    let printed = count_line(alloc, &records)?;
    Ok(Texts { written, printed })
}
