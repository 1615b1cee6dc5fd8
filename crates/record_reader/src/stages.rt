//! The stages of a record text.

ghost use Rattle.std.specs.Prelude.{◌≡◌};
ghost use Rattle.record_reader.specs.Progress.{columns_left, reads_left, records_left, rows_left};
ghost use Rattle.record_reader.specs.Reading.{is_over};

use record_values::TextVersion;

/// What the next line has to be.
#[derive(Clone, Copy, Debug, PartialEq, Eq)]
pub enum Stage {
    /// The header.
    Header,
    /// The sense.
    SenseLine,
    /// Whether duals are undone too.
    DualsLine,
    /// The number of columns.
    ColumnCount,
    /// So many columns' labels.
    Columns(u64),
    /// The number of rows.
    RowCount,
    /// So many rows' labels.
    Rows(u64),
    /// The offset.
    Offset,
    /// The number of records.
    RecordCount,
    /// So many records, the first one's transaction in front.
    Transactions(u64),
    /// For the first of so many records, so many parts that were read.
    Reads(u64, u64),
    /// So many records, of which the first one's transaction was read where the text has them.
    Undos(u64),
    /// The end.
    End,
    /// Nothing.
    Over,
}

/// The stage where so many columns are left.
pub fn columns_left(count: u64) -> Stage
    ensures { result ≡ columns_left count }
{
    if count == 0 {
        Stage::RowCount
    } else {
        Stage::Columns(count)
    }
}

/// The stage where so many rows are left.
pub fn rows_left(count: u64) -> Stage
    ensures { result ≡ rows_left count }
{
    if count == 0 {
        Stage::Offset
    } else {
        Stage::Rows(count)
    }
}

/// The stage where so many records are left.
pub fn records_left(version: TextVersion, count: u64) -> Stage
    ensures { result ≡ records_left version count }
{
    if count == 0 {
        return Stage::End;
    }
    match version {
        TextVersion::First => Stage::Undos(count),
        TextVersion::Second => Stage::Transactions(count),
    }
}

/// The stage where so many parts are left that were read for the first of so many records.
pub fn reads_left(records: u64, reads: u64) -> Stage
    ensures { result ≡ reads_left records reads }
{
    if reads == 0 {
        Stage::Undos(records)
    } else {
        Stage::Reads(records, reads)
    }
}

/// Whether the end was read.
pub fn is_over(stage: Stage) -> bool
    ensures { result ≡ is_over stage }
{
    matches!(stage, Stage::Over)
}
